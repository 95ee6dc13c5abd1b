//! `PropStore`: what a store of properties is to the layers above. Its meaning is `Props` of `specs/Props.antt`.

ghost use Rattle.std.specs.Prelude.{◌≡◌, ◌+◌, ◌≤◌, ◌∷◌, [], ℕ, List, length, Option, None, OnOk};
ghost use Rattle.std.specs.Result.{result_err};
ghost use Rattle.init_base.specs.Value.{LegalValue, max_value_len};
ghost use Rattle.init_machine.specs.Props.{Props, lookup_in, number_of as number_in, more_sets, with_set, used_in, full_for, IsLookUp, MayBeSet};

use init_base::{NoMemory, PropName, PropValue};
use std::alloc::Global;

/// Why a store has no room for a set.
#[derive(Clone, Copy, Debug, PartialEq, Eq)]
pub enum Full {
    /// So many words are in use, and the name needs so many more, which together pass the capacity.
    Words { used: u64, need: u64 },
    /// The numbers of sets are used up.
    Numbers { last: u64 },
}

/// A store of properties: a finite map from names to a value and the number of the set that gave it.
pub trait PropStore {
    /// The map, the count of sets, and the capacity in words.
    ghost meaning: { Self → Props };

    /// The names and values of the accepted sets in order, where they are told.
    ghost told: { Self → Option (List (List ℕ × List ℕ)) };

    /// For how many sets there is memory already.
    ghost spare: { Self → ℕ };

    /// Two states of a store that are the same beside the map.
    ghost Beside: { Self → Self → Type 0 };

    /// None exactly where the name is absent; else the length of the value, which stands at the front of `out`, and
    /// the number of the set that gave it. The buffer has room for any value that is legal under the name.
    fn get(&mut self, name: PropName<'_>, out: &mut [u8]) -> Option<(usize, u64)>
        requires room { max_value_len name.bytes.now ≤ length out.old }
        ensures found { IsLookUp (lookup_in (meaning self.old).held name.entry.bytes.now) result out.new }
        ensures same { meaning self.new ≡ meaning self.old }
        ensures told { told self.new ≡ told self.old }
        ensures spare { spare self.new ≡ spare self.old }
        ensures beside { Beside self.old self.new };

    /// None exactly where the name is absent; else the number of the set that gave the value. It takes no buffer.
    fn number_of(&mut self, name: PropName<'_>) -> Option<u64>
        ensures number { result ≡ number_in (lookup_in (meaning self.old).held name.entry.bytes.now) }
        ensures same { meaning self.new ≡ meaning self.old }
        ensures told { told self.new ≡ told self.old }
        ensures spare { spare self.new ≡ spare self.old }
        ensures beside { Beside self.old self.new };

    /// The number of accepted sets.
    fn count(&self) -> u64
        ensures { result ≡ (meaning self.now).count };

    /// The words in use.
    fn used(&self) -> u64
        ensures { result ≡ used_in (meaning self.now) };

    /// Whether a set of the name by a value of so many bytes has room, and if not, why.
    fn room(&mut self, name: PropName<'_>, len: usize) -> Result<(), Full>
        ensures full { result_err result ≡ full_for (meaning self.old) name.entry.bytes.now len }
        ensures same { meaning self.new ≡ meaning self.old }
        ensures told { told self.new ≡ told self.old }
        ensures spare { spare self.new ≡ spare self.old }
        ensures beside { Beside self.old self.new };

    /// Takes the memory for one set.
    fn reserve(&mut self, alloc: Global) -> Result<(), NoMemory>
        ensures spare { OnOk result (1 ≤ spare self.new) }
        ensures same { meaning self.new ≡ meaning self.old }
        ensures told { told self.new ≡ told self.old }
        ensures beside { Beside self.old self.new };

    /// Sets the property, and answers the set's number. It can't fail.
    fn put(&mut self, name: PropName<'_>, value: PropValue<'_>) -> u64
        requires legal { LegalValue name.bytes.now value.bytes.now }
        requires room { full_for (meaning self.old) name.bytes.now (length value.bytes.now) ≡ None }
        requires once { MayBeSet (meaning self.old) name.bytes.now }
        requires spare { 1 ≤ spare self.old }
        ensures number { result ≡ (meaning self.old).count + 1 }
        ensures set { meaning self.new ≡ with_set (meaning self.old) name.entry.bytes.now value.entry.bytes.now }
        ensures told { told self.new ≡ more_sets (told self.old) ((name.entry.bytes.now, value.entry.bytes.now) ∷ []) }
        ensures beside { Beside self.old self.new };

    /// The same beside the map is reflexive.
    ghost reflexive: { (s : Self) → Beside s s };

    /// The same beside the map is transitive.
    ghost transitive: { (s t u : Self) → Beside s t → Beside t u → Beside s u };
}
