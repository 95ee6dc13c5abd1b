//! What the bytes of a store determine.

ghost use Rattle.std.specs.Prelude.{◌≡◌, ◌⊎◌, ℕ, List, IsTrue};
ghost use Rattle.init_machine.specs.Policy.{PolicyLines};
ghost use Rattle.init_machine.specs.declared.config.Pair.{Pair};
ghost use Rattle.persist_file.specs.Causes.{IsUnfitAt};
ghost use Rattle.persist_file.specs.Examples.{TwoPairsAreRead, TypedPairsAreRead};
ghost use Rattle.persist_file.specs.Store.{are_saved, are_typed, store_text, IsStore, IsTextUnder};
ghost use Rattle.persist_file.specs.declared.refusal.StoreCause.{StoreCause};

/// Bytes are read in one way: they are the store of one list of pairs, or there is one first line that doesn't fit, for one cause.

pub fn each_text_has_one_reading()
    ensures pairs { (bytes : List ℕ) (pairs others : List Pair) → IsStore bytes pairs → IsStore bytes others → pairs ≡ others }
    ensures line { (bytes : List ℕ) (line other : ℕ) (cause why : StoreCause) → IsUnfitAt bytes line cause
        → IsUnfitAt bytes other why → line ≡ other }
    ensures cause { (bytes : List ℕ) (line other : ℕ) (cause why : StoreCause) → IsUnfitAt bytes line cause
        → IsUnfitAt bytes other why → cause ≡ why }
    ensures not_both { (bytes : List ℕ) (pairs : List Pair) (line : ℕ) (cause : StoreCause) → IsStore bytes pairs
        → ¬ IsUnfitAt bytes line cause }
    ensures one_of_both { (bytes : List ℕ) →
        ((pairs : List Pair) × IsStore bytes pairs) ⊎ ((line : ℕ) × (cause : StoreCause) × IsUnfitAt bytes line cause) }
    ensures example { TwoPairsAreRead }
    ensures typed_example { TypedPairsAreRead }
{}

/// What is printed under a policy is a text of the pairs. A version 2 text whose types are the policy's is what is printed of the pairs
/// that it gives.
pub fn printing_undoes_reading()
    ensures printed { (policy : PolicyLines) (bytes : List ℕ) (pairs others : List Pair) →
        IsTextUnder policy bytes others → IsStore bytes pairs → store_text policy pairs ≡ bytes }
    ensures saved { (bytes : List ℕ) (pairs : List Pair) → IsStore bytes pairs → IsTrue (are_saved pairs) }
    ensures read { (policy : PolicyLines) (pairs : List Pair) →
        IsTrue (are_saved pairs) → IsTrue (are_typed policy pairs) → IsStore (store_text policy pairs) pairs }
{}
