//! That kinds and names go together: a law of the definitions.

ghost use Rattle.std.specs.Prelude.{◌≡◌, Some, ℕ, List};
ghost use Rattle.lint_findings.specs.Names.{about_in, about_text};
ghost use Rattle.lint_findings.specs.declared.finding.About.{About};

/// Each kind has one name, and each name at most one kind.
#[tactic(auto, using(crate::proofs::Called::named, crate::proofs::Called::found))]
pub fn each_kind_has_its_name()
    ensures named { (name : List ℕ) (about : About) → about_in name ≡ Some about → name ≡ about_text about }
    ensures found { (about : About) → about_in (about_text about) ≡ Some about }
{}
