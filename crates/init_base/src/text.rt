//! Texts: lists of bytes, mostly ASCII, of any content.

ghost use Rattle.std.specs.Prelude.{◌≡◌, ◌≤◌, ◌-◌, ◌↔◌, [], IsTrue, IfOk, length, slice_range};
ghost use Rattle.std.specs.Arc.{arc_value};
ghost use Rattle.std.specs.Str.{bytes_eq, is_utf8};
ghost use Rattle.init_base.specs.Text.{form_bytes, IsForm};

use crate::comparing::same_bytes;
use crate::memory::NoMemory;
use crate::value::is_text;
use std::alloc::Global;
use std::marker::Model;
use std::sync::Arc;

/// The most bytes that a text holds in place.
const MAX_INLINE: usize = 22;

/// The most bytes that stand in one block with the count of those who share them.
const MAX_BLOCK: usize = 56;

/// A text: bytes of any value. A short one holds them in place; the others share them, so that another text of the
/// same bytes, or of a part of them, copies none.
#[derive(Debug, Drop)]
pub struct Text {
    form: Form,
}

/// Where the bytes of a text are.
#[derive(Debug, Drop)]
enum Form {
    Inline {
        len: u8,
        bytes: [u8; 22],
    },
    Block {
        owner: Arc<[u8; 56]>,
        from: u8,
        to: u8,
    },
    Shared {
        owner: Arc<Vec<u8>>,
        from: u32,
        to: u32,
    },
}

impl Model for Text {
    ghost use Rattle.std.specs.Prelude.{ℕ, List};

    ghost Value = { List ℕ };

    ghost use Rattle.init_base.specs.Text.{form_bytes, IsForm};

    ghost view = { λ t. form_bytes t.form };

    ghost invariant = { λ t. IsForm t.form };
}

impl Text {
    /// A text of these bytes. Those of 4 GiB or more are want of memory.
    pub fn of(alloc: Global, bytes: &[u8]) -> Result<Text, NoMemory>
        ensures { IfOk result (λ t. t ≡ bytes.now) }
    {
        if bytes.len() <= MAX_INLINE {
            return Ok(Text::inline(bytes));
        }
        if bytes.len() <= MAX_BLOCK {
            return Text::block(alloc, bytes);
        }
        let to = bytes.len();
        Text::shared(Arc::new(alloc, Vec::from_slice(alloc, bytes)?)?, 0, to)
    }

    /// A text of these bytes, in place.
    fn inline(bytes: &[u8]) -> Text
        requires { length bytes.now ≤ 22 }
        ensures { result ≡ bytes.now }
    {
        let mut kept = [0; 22];
        kept[..bytes.len()].copy_from_slice(bytes);
        Text {
            form: Form::Inline {
                len: bytes.len() as u8,
                bytes: kept,
            },
        }
    }

    /// A text of these bytes, in a block of its own.
    fn block(alloc: Global, bytes: &[u8]) -> Result<Text, NoMemory>
        requires { length bytes.now ≤ 56 }
        ensures { IfOk result (λ t. t ≡ bytes.now) }
    {
        let mut kept = [0; 56];
        kept[..bytes.len()].copy_from_slice(bytes);
        Ok(Text {
            form: Form::Block {
                owner: Arc::new(alloc, kept)?,
                from: 0,
                to: bytes.len() as u8,
            },
        })
    }

    /// A text of the bytes of a vector, of which it copies at most a few. Those of 4 GiB or more are want of memory.
    pub fn from_vec(bytes: Vec<u8>) -> Result<Text, NoMemory>
        ensures { IfOk result (λ t. t ≡ bytes.items) }
    {
        let alloc = *bytes.allocator();
        if bytes.len() <= MAX_BLOCK {
            return Text::of(alloc, bytes.as_slice());
        }
        let to = bytes.len();
        Text::shared(Arc::new(alloc, bytes)?, 0, to)
    }

    /// A text of a part of shared bytes. A place of 32 bits or more is want of memory.
    fn shared(owner: Arc<Vec<u8>>, from: usize, to: usize) -> Result<Text, NoMemory>
        requires order { from ≤ to }
        requires bound { to ≤ length (arc_value owner).items }
        ensures { IfOk result (λ t. t ≡ slice_range (arc_value owner).items from to) }
    {
        let (Ok(from), Ok(to)) = (u32::try_from(from), u32::try_from(to)) else {
            return Err(NoMemory);
        };
        Ok(Text {
            form: Form::Shared { owner, from, to },
        })
    }

    /// The empty text. It takes no memory.
    pub fn empty() -> Text
        ensures { result ≡ [] }
    {
        Text::inline(&[])
    }

    /// A text of at most 22 bytes of others, in place. Where 22 stand there, they are copied as one piece of a known
    /// size, which is quicker than those alone that are meant.
    #[tactic(auto, using(crate::proofs::Parts::front_of_piece))]
    fn part(bytes: &[u8], from: usize, to: usize) -> Text
        requires order { from ≤ to }
        requires bound { to ≤ length bytes.now }
        requires short { to - from ≤ 22 }
        ensures { result ≡ slice_range bytes.now from to }
    {
        if bytes.len() - from < MAX_INLINE {
            return Text::inline(&bytes[from..to]);
        }
        let mut kept = [0; 22];
        kept.copy_from_slice(&bytes[from..from + MAX_INLINE]);
        Text {
            form: Form::Inline {
                len: (to - from) as u8,
                bytes: kept,
            },
        }
    }

    /// Another text of the same bytes, which shares them. It takes no memory, and fails only where as many texts share
    /// them as can be counted.
    pub fn share(&self) -> Result<Text, NoMemory>
        ensures { IfOk result (λ t. t ≡ self.now) }
    {
        let form = match &self.form {
            Form::Inline { len, bytes } => Form::Inline {
                len: *len,
                bytes: *bytes,
            },
            Form::Block { owner, from, to } => Form::Block {
                owner: Arc::try_clone(owner)?,
                from: *from,
                to: *to,
            },
            Form::Shared { owner, from, to } => Form::Shared {
                owner: Arc::try_clone(owner)?,
                from: *from,
                to: *to,
            },
        };
        Ok(Text { form })
    }

    /// A text of the bytes from one place to before another, which shares them as `share` does.
    #[tactic(auto, using(crate::proofs::Parts::part_of_shared))]
    pub fn slice(&self, from: usize, to: usize) -> Result<Text, NoMemory>
        requires order { from ≤ to }
        requires bound { to ≤ length self.now }
        ensures { IfOk result (λ t. t ≡ slice_range self.now from to) }
    {
        match &self.form {
            Form::Shared {
                owner,
                from: start,
                ..
            } if to - from > MAX_INLINE => {
                let start = *start as usize;
                Text::shared(Arc::try_clone(owner)?, start + from, start + to)
            }
            Form::Shared {
                owner,
                from: start,
                ..
            } => {
                let start = *start as usize;
                Ok(Text::part(owner.as_slice(), start + from, start + to))
            }
            Form::Block {
                owner,
                from: start,
                ..
            } if to - from > MAX_INLINE => Ok(Text {
                form: Form::Block {
                    owner: Arc::try_clone(owner)?,
                    from: *start + from as u8,
                    to: *start + to as u8,
                },
            }),
            _ => Ok(Text::inline(&self.bytes()[from..to])),
        }
    }

    pub fn bytes(&self) -> &[u8]
        ensures { result.now ≡ self.now }
    {
        match &self.form {
            Form::Inline { len, bytes } => &bytes[..*len as usize],
            Form::Block { owner, from, to } => &owner[*from as usize..*to as usize],
            Form::Shared { owner, from, to } => &owner.as_slice()[*from as usize..*to as usize],
        }
    }

    /// Whether the text has exactly these bytes.
    pub fn is(&self, bytes: &[u8]) -> bool
        ensures { result ≡ bytes_eq self.now bytes.now }
    {
        same_bytes(self.bytes(), bytes)
    }

    /// The number of bytes.
    pub fn len(&self) -> usize
        ensures { result ≡ length self.now }
    {
        self.bytes().len()
    }

    pub fn is_empty(&self) -> bool
        ensures { IsTrue result ↔ (self.now ≡ []) }
    {
        self.bytes().is_empty()
    }

    /// Whether the bytes are UTF-8.
    pub fn is_utf8(&self) -> bool
        ensures { result ≡ is_utf8 self.now }
    {
        is_text(self.bytes())
    }
}
