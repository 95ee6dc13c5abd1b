//! That each tree is told: a law of the definitions.

ghost use Rattle.std.specs.Prelude.{Some};
ghost use Rattle.lint_sources.specs.Loads.{Tree};
ghost use Rattle.lint_sources.specs.Told.{IsTold, Told};

use rc_import::each_tree_has_its_world;
use rc_tokens::one_reading;

/// Each tree has a world and the lines of its files, so that what is said of all told trees is said of something.
#[tactic(auto, using(crate::proofs::Worlds::told_of))]
pub fn each_tree_is_told()
    ensures { (tree : Tree) → (told : Told) × IsTold (Some tree) told }
{
    each_tree_has_its_world();
    one_reading();
}
