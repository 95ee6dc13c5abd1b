//! That each tree has a world: a law of the definitions.

ghost use Rattle.std.specs.Prelude.{ℕ, List, Option, Some};
ghost use Rattle.rc_import.specs.World.{IsWorld, World};

use rc_tokens::one_reading;

/// Each tree has a world with any properties, so that what is said of all its worlds is said of something.
#[tactic(auto, using(crate::proofs::Worlds::world_of))]
pub fn each_tree_has_its_world()
    ensures { (tree : List (List ℕ × List ℕ)) (look_up : List ℕ → Option (List ℕ))
        → (world : World) × IsWorld (Some tree) look_up world }
{
    one_reading();
}
