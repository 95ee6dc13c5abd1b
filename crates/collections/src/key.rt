//! The keys of maps by texts. A key's bytes are hashed at once, and a map is asked by bytes that nobody owns.

ghost use Rattle.std.specs.Prelude.{◌≡◌, ◌∷◌, [], IfOk};
ghost use Rattle.std.specs.Cmp.{on_equiv, partial_equiv_from_equiv};
ghost use Rattle.std.specs.Cmp.Lexicographic.{nat_list_eq_equiv};
ghost use Rattle.std.specs.Str.{bytes_eq};
ghost use Rattle.init_base.proofs.ByBytes.{same_input};

use indexmap::Equivalent;
use init_base::{NoMemory, same_bytes};
use std::alloc::Global;
use std::hash::{Hash, Hasher};
use std::marker::Model;

/// A text that is a key.
#[derive(Debug, Drop)]
pub struct TextKey {
    bytes: Vec<u8>,
}

impl Model for TextKey {
    ghost use Rattle.std.specs.Prelude.{ℕ, List};

    ghost Value = { List ℕ };

    ghost view = { λ key. key.bytes.items };
}

impl TextKey {
    /// The key of a text.
    pub fn of(alloc: Global, text: &[u8]) -> Result<TextKey, NoMemory>
        ensures { IfOk result (λ key. key ≡ text.now) }
    {
        Ok(TextKey {
            bytes: Vec::from_slice(alloc, text)?,
        })
    }

    /// The key of a text that nobody else has.
    pub fn from_vec(text: Vec<u8>) -> TextKey
        ensures { result ≡ text.items }
    {
        TextKey { bytes: text }
    }

    /// The text.
    pub fn bytes(&self) -> &[u8]
        ensures { result.now ≡ self.now }
    {
        self.bytes.as_slice()
    }
}

impl PartialEq for TextKey {
    ghost eq = { bytes_eq };

    ghost laws = { partial_equiv_from_equiv nat_list_eq_equiv };

    fn eq(&self, other: &Self) -> bool {
        same_bytes(self.bytes(), other.bytes())
    }
}

impl Eq for TextKey {
    ghost laws = { nat_list_eq_equiv };
}

impl Hash for TextKey {
    ghost hash_input = { λ bytes. bytes ∷ [] };

    ghost respects_eq = { same_input };

    fn hash<H: Hasher>(&self, state: &mut H) {
        state.write(self.bytes());
    }
}

/// A text by which a map with `TextKey`s is asked.
#[derive(Clone, Copy, Debug)]
pub struct Spelled<'a> {
    pub bytes: &'a [u8],
}

impl PartialEq for Spelled<'_> {
    ghost eq = { λ one other. bytes_eq one.bytes.now other.bytes.now };

    ghost laws = { partial_equiv_from_equiv (on_equiv (λ one. one.bytes.now) nat_list_eq_equiv) };

    fn eq(&self, other: &Self) -> bool {
        same_bytes(self.bytes, other.bytes)
    }
}

impl Eq for Spelled<'_> {
    ghost laws = { on_equiv (λ one. one.bytes.now) nat_list_eq_equiv };
}

impl Hash for Spelled<'_> {
    ghost hash_input = { λ one. one.bytes.now ∷ [] };

    ghost respects_eq = { λ x y. same_input x.bytes.now y.bytes.now };

    fn hash<H: Hasher>(&self, state: &mut H) {
        state.write(self.bytes);
    }
}

impl Equivalent<TextKey> for Spelled<'_> {
    ghost equivalent = { λ one key. bytes_eq one.bytes.now key };

    ghost respects_hash = { λ one key. same_input one.bytes.now key };

    ghost respects_eq = { λ one x y same. nat_list_eq_equiv.congr one.bytes.now x y same };

    fn equivalent(&self, key: &TextKey) -> bool {
        same_bytes(self.bytes, key.bytes())
    }
}
