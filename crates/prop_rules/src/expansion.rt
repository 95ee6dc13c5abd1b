//! Expansion of properties in a text (AOSP, init's README, "Android Init Language").

ghost use Rattle.std.specs.Prelude.{ℕ, List as Items, Option as Maybe, IsTrue, ◌≡◌, ◌+◌, ◌<◌, ◌≤◌, length, Ok, IfOk, not, ◌==◌};
ghost use Rattle.std.specs.List.{list_all};
ghost use Rattle.init_base.specs.Value.{max_value_len};
ghost use Rattle.init_machine.specs.Expand.{joined, piece_value, values_of, pieces_of, within_limit};
ghost use Rattle.init_machine.specs.Expand as spec;
ghost use Rattle.init_machine.specs.Props.{value_in};
ghost use Rattle.prop_rules.specs.Answers.{IsExpansion, IsAppended, AppendsValue};
ghost use Rattle.prop_rules.specs.Pieces.{meant, piece_at};

use crate::piece::{Dollar, behind_dollar};
use crate::value::look_up;
use init_base::{NoMemory, PropName, Text, ValueBuffer};
use init_machine::PropStore;
use std::alloc::{AllocError, Global};

/// The most bytes that may come out.
const LIMIT: usize = 4096;

/// Why a text isn't expanded.
#[derive(Debug, Drop)]
pub enum ExpandRefusal {
    /// The `$` at this place begins no expansion.
    BadForm { place: usize },
    /// The property of this name isn't there, or empty.
    Absent { name: Text },
    /// More than 4,096 bytes come out.
    TooLong,
    NoMemory,
}

impl From<AllocError> for ExpandRefusal {
    ghost use Rattle.std.specs.Prelude.{◌≡◌};
    ghost use Rattle.prop_rules.specs.declared.expansion.ExpandRefusal.TheVariants.{NoMemory as expand_no_memory};

    ghost from_gives = { λ _ refusal. refusal ≡ expand_no_memory };

    fn from(_: AllocError) -> Self {
        ExpandRefusal::NoMemory
    }
}

impl From<NoMemory> for ExpandRefusal {
    ghost use Rattle.std.specs.Prelude.{◌≡◌};
    ghost use Rattle.prop_rules.specs.declared.expansion.ExpandRefusal.TheVariants.{NoMemory as expand_no_memory};

    ghost from_gives = { λ _ refusal. refusal ≡ expand_no_memory };

    fn from(_: NoMemory) -> Self {
        ExpandRefusal::NoMemory
    }
}

/// Appends the value of a property that isn't empty, and answers whether there is one.
fn append_value<S: PropStore>(
    store: &mut S,
    name: PropName<'_>,
    out: &mut Vec<u8>,
) -> Result<bool, ExpandRefusal>
    ensures value { AppendsValue result out.old.items out.new.items (value_in (S.meaning store.old) name.entry.bytes.now) }
    ensures same { S.meaning store.new ≡ S.meaning store.old }
    ensures told { S.told store.new ≡ S.told store.old }
    ensures spare { S.spare store.new ≡ S.spare store.old }
    ensures beside { S.Beside store.old store.new }
{
    if name.is_read_only() {
        append_value_by(store, name, out, ValueBuffer::new().bytes())
    } else {
        append_value_by(store, name, out, &mut [0; 91])
    }
}

/// The same by a buffer that the value is copied to.
fn append_value_by<S: PropStore>(
    store: &mut S,
    name: PropName<'_>,
    out: &mut Vec<u8>,
    buffer: &mut [u8],
) -> Result<bool, ExpandRefusal>
    requires { max_value_len name.bytes.now ≤ length buffer.old }
    ensures value { AppendsValue result out.old.items out.new.items (value_in (S.meaning store.old) name.entry.bytes.now) }
    ensures same { S.meaning store.new ≡ S.meaning store.old }
    ensures told { S.told store.new ≡ S.told store.old }
    ensures spare { S.spare store.new ≡ S.spare store.old }
    ensures beside { S.Beside store.old store.new }
{
    match look_up(store, name, buffer) {
        Some(value) if !value.is_empty() => {
            out.extend_from_slice(value)?;
            Ok(true)
        }
        _ => Ok(false),
    }
}

/// Appends what a `$` at a place begins.
fn append_dollar<S: PropStore>(
    alloc: Global,
    store: &mut S,
    place: usize,
    dollar: Dollar<'_>,
    out: &mut Vec<u8>,
) -> Result<(), ExpandRefusal>
    ensures value { IsAppended result out.new.items
        (joined (Ok out.old.items) (piece_value (value_in (S.meaning store.old)) place (meant dollar.entry))) }
    ensures same { S.meaning store.new ≡ S.meaning store.old }
    ensures told { S.told store.new ≡ S.told store.old }
    ensures spare { S.spare store.new ≡ S.spare store.old }
    ensures beside { S.Beside store.old store.new }
{
    match dollar {
        Dollar::Sign => out.extend_from_slice(b"$")?,
        Dollar::ValueOf(name) => {
            if !append_value(store, name, out)? {
                return Err(ExpandRefusal::Absent {
                    name: Text::of(alloc, name.bytes())?,
                });
            }
        }
        Dollar::ValueOr(name, other) => {
            if !append_value(store, name, out)? {
                out.extend_from_slice(other)?;
            }
        }
        Dollar::Bad => return Err(ExpandRefusal::BadForm { place }),
    }
    Ok(())
}

/// Appends the piece at a place, and answers how many bytes it is written with.
fn append_piece<S: PropStore>(
    alloc: Global,
    store: &mut S,
    text: &[u8],
    place: usize,
    out: &mut Vec<u8>,
) -> Result<usize, ExpandRefusal>
    requires { place < length text.now }
    ensures value { IsAppended result out.new.items
        (joined (Ok out.old.items) (piece_value (value_in (S.meaning store.old)) place (piece_at text.now place).piece)) }
    ensures written { IfOk result (λ written. written ≡ (piece_at text.now place).length) }
    ensures some { IfOk result (λ written. 1 ≤ written) }
    ensures within { IfOk result (λ written. place + written ≤ length text.now) }
    ensures same { S.meaning store.new ≡ S.meaning store.old }
    ensures told { S.told store.new ≡ S.told store.old }
    ensures spare { S.spare store.new ≡ S.spare store.old }
    ensures beside { S.Beside store.old store.new }
{
    if text[place] == b'$' {
        let (dollar, written) = behind_dollar(&text[place + 1..]);
        append_dollar(alloc, store, place, dollar, out)?;
        Ok(written)
    } else {
        out.extend_from_slice(&text[place..place + 1])?;
        Ok(1)
    }
}

/// Appends what the pieces of a text stand for.
fn append_all<S: PropStore>(
    alloc: Global,
    store: &mut S,
    text: &[u8],
    out: &mut Vec<u8>,
) -> Result<(), ExpandRefusal>
    ensures value { IsAppended result out.new.items
        (joined (Ok out.old.items) (values_of (value_in (S.meaning store.old)) (pieces_of text.now))) }
    ensures same { S.meaning store.new ≡ S.meaning store.old }
    ensures told { S.told store.new ≡ S.told store.old }
    ensures spare { S.spare store.new ≡ S.spare store.old }
    ensures beside { S.Beside store.old store.new }
{
    let mut place = 0;
    while place < text.len() {
        match append_piece(alloc, store, text, place, out) {
            Ok(written) => place += written,
            Err(why) => return Err(why),
        }
    }
    Ok(())
}

/// Whether no byte is a `$`.
fn is_plain(text: &[u8]) -> bool
    ensures { result ≡ list_all (λ b. not (b == 36)) text.now }
{
    !text.contains(&b'$')
}

/// Whether a text is its own expansion, as one without `$` is that isn't too long.
pub fn stands_for_itself(text: &Text) -> bool
    ensures { IsTrue result → (look_up : Items ℕ → Maybe (Items ℕ)) → spec.expand look_up text.now ≡ Ok text.now }
{
    text.len() <= LIMIT && is_plain(text.bytes())
}

/// The text that came out, if it isn't too long.
fn limited(text: Text) -> Result<Text, ExpandRefusal>
    ensures { IsExpansion result (within_limit (Ok text)) }
{
    if text.len() > LIMIT {
        Err(ExpandRefusal::TooLong)
    } else {
        Ok(text)
    }
}

/// The text with its properties expanded. A text without `$` is its own expansion.
#[tactic(auto, using(crate::proofs::Expansions::plain_values), unfolding(init_machine::specs::Expand::expand))]
pub fn expand<S: PropStore>(
    alloc: Global,
    text: &Text,
    store: &mut S,
) -> Result<Text, ExpandRefusal>
    ensures answer { IsExpansion result (spec.expand (value_in (S.meaning store.old)) text.now) }
    ensures same { S.meaning store.new ≡ S.meaning store.old }
    ensures told { S.told store.new ≡ S.told store.old }
    ensures spare { S.spare store.new ≡ S.spare store.old }
    ensures beside { S.Beside store.old store.new }
{
    if is_plain(text.bytes()) {
        return limited(text.share()?);
    }
    let mut out = Vec::new(alloc);
    match append_all(alloc, store, text.bytes(), &mut out) {
        Ok(()) => limited(Text::from_vec(out)?),
        Err(why) => Err(why),
    }
}
