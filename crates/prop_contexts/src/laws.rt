//! What two texts determine, and what the definitions say of closed texts.

ghost use Rattle.std.specs.Prelude.{◌≡◌, ◌≢◌, ◌⊎◌, ℕ, List};
ghost use Rattle.init_machine.specs.Policy.{PolicyLines};
ghost use Rattle.prop_contexts.specs.Examples.{FourLinesAreRead, Looks, Types};
ghost use Rattle.prop_contexts.specs.Grammar.{IsPolicy, IsRefused};
ghost use Rattle.prop_contexts.specs.declared.refusal.PolicyRefusal.{PolicyRefusal};
ghost use Rattle.prop_contexts.specs.declared.refusal.PolicyRefusal.TheVariants.{NoMemory};

/// Two texts are read in one way: they are one policy, or there is one first line that doesn't fit.
pub fn each_text_has_one_reading()
    ensures policy { (contexts allow : List ℕ) (policy other : PolicyLines) →
        IsPolicy contexts allow policy → IsPolicy contexts allow other → policy ≡ other }
    ensures refusal { (contexts allow : List ℕ) (why other : PolicyRefusal) →
        IsRefused contexts allow why → IsRefused contexts allow other → why ≢ NoMemory → other ≢ NoMemory → why ≡ other }
    ensures not_both { (contexts allow : List ℕ) (policy : PolicyLines) (why : PolicyRefusal) →
        IsPolicy contexts allow policy → IsRefused contexts allow why → why ≡ NoMemory }
    ensures one_of_both { (contexts allow : List ℕ) →
        ((policy : PolicyLines) × IsPolicy contexts allow policy)
        ⊎ ((why : PolicyRefusal) × IsRefused contexts allow why × (why ≢ NoMemory)) }
{}

/// Four lines, the contexts that they give to names, and the values of a type.
#[tactic(auto, unfolding(crate::specs::Examples::computing))]
pub fn documented_contexts()
    ensures read { FourLinesAreRead }
    ensures looks { Looks }
    ensures types { Types }
{}
