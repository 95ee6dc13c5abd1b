//! The properties to be saved.

ghost use Rattle.std.specs.Prelude.{◌≡◌, ◌||◌, ◌≤◌, IsTrue, OnOk, OnErr, length};
ghost use Rattle.std.specs.List.{list_all, position_or_len};
ghost use Rattle.std.specs.Str.{bytes_eq};
ghost use Rattle.init_machine.specs.Pairs.{with_saved, without_name};
ghost use Rattle.init_machine.specs.Pairs as spec;

use init_base::{List, NoMemory, Text};
use init_machine::Pair;
use std::alloc::Global;
use std::marker::Model;

/// Persistent properties, each with its value, in the order of their names as they were put.
#[derive(Drop)]
pub struct Saved {
    pairs: List<Pair>,
}

impl Model for Saved {
    ghost use Rattle.std.specs.Prelude.{IsTrue, List};
    ghost use Rattle.std.specs.List.{list_all};
    ghost use Rattle.init_machine.specs.Setting.{is_persistent};
    ghost use Rattle.init_machine.specs.declared.config.Pair.{Pair};

    ghost Value = { List Pair };

    ghost view = { λ saved. saved.pairs };

    ghost invariant = { λ saved. IsTrue (list_all (λ p. is_persistent p.name) saved.pairs) };
}

impl Saved {
    ghost use Rattle.std.specs.Prelude.{◌≡◌, IsTrue, OnOk};
    ghost use Rattle.std.specs.List.{list_all};
    ghost use Rattle.init_machine.specs.Pairs.{with_saved, without_name};
    ghost use Rattle.init_machine.specs.Setting.{is_persistent};

    /// These pairs.
    pub fn of(pairs: List<Pair>) -> Saved
        requires { IsTrue (list_all (λ p. is_persistent p.name) pairs) }
        ensures { result ≡ pairs }
    {
        Saved { pairs }
    }

    /// The pairs.
    pub fn pairs(&self) -> &List<Pair>
        ensures same { result.now ≡ self.now }
        ensures persistent { IsTrue (list_all (λ p. is_persistent p.name) result.now) }
    {
        &self.pairs
    }

    /// The pairs, as a list of their own.
    pub fn into_pairs(self) -> List<Pair>
        ensures { result ≡ self }
    {
        self.pairs
    }

    /// Puts a pair in the place of its name's old one, or in its place by the order of names.
    pub fn put(&mut self, name: &Text, value: &Text) -> Result<(), NoMemory>
        requires { IsTrue (is_persistent name.now) }
        ensures { OnOk result (self.new ≡ with_saved self.old name.now value.now) }
    {
        put_pair(&mut self.pairs, name, value)
    }

    /// Takes the pair of a name away, if there is one.
    pub fn remove(&mut self, alloc: Global, name: &Text) -> Result<(), NoMemory>
        ensures { OnOk result (self.new ≡ without_name self.old name.now) }
    {
        let pairs = std::mem::replace(&mut self.pairs, List::new(alloc));
        self.pairs = without(pairs, name);
        Ok(())
    }
}

/// Whether one text is before another in the order of bytes.
fn is_before(text: &[u8], other: &[u8]) -> bool
    ensures { result ≡ spec.is_before text.now other.now }
{
    text < other
}

/// The place of the first pair that has the name, or whose name the name is before; past the last one where there is none.
fn place_for(pairs: &List<Pair>, name: &[u8]) -> usize
    ensures place { result ≡ position_or_len (λ p. bytes_eq p.name name.now || spec.is_before name.now p.name) pairs.now }
    ensures within { result ≤ length pairs.now }
{
    for (place, pair) in pairs.items().iter().enumerate() {
        if pair.name.is(name) || is_before(name, pair.name.bytes()) {
            return place;
        }
    }
    pairs.len()
}

/// Puts a pair in the place of its name's old one, or in its place by the order of names.
fn put_pair(pairs: &mut List<Pair>, name: &Text, value: &Text) -> Result<(), NoMemory>
    ensures ok { OnOk result (pairs.new ≡ with_saved pairs.old name.now value.now) }
    ensures err { OnErr result (pairs.new ≡ pairs.old) }
{
    let pair = Pair {
        name: name.share()?,
        value: value.share()?,
    };
    let bytes = name.bytes();
    let place = place_for(pairs, bytes);
    match pairs.at(place) {
        Some(held) if held.name.is(bytes) => {
            pairs.set(place, pair);
            Ok(())
        }
        _ => pairs.insert(place, pair),
    }
}

/// The pairs of other names.
fn without(pairs: List<Pair>, name: &Text) -> List<Pair>
    ensures { result ≡ without_name pairs name.now }
{
    let mut kept = pairs.into_vec();
    kept.retain(|pair| !pair.name.is(name.bytes()));
    List::from_vec(kept)
}
