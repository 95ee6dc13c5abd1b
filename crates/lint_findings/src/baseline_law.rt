//! What the definitions say together.

ghost use Rattle.std.specs.Prelude.{◌≡◌, ℕ, List, [], filter, IsTrue};
ghost use Rattle.std.specs.List.{list_all};
ghost use Rattle.lint_findings.specs.Baseline.{IsBaseline, IsBaselineOf, IsUnfitAt, are_bytes, baseline_text};
ghost use Rattle.lint_findings.specs.Left.{IsPartOf, is_new, left};
ghost use Rattle.lint_findings.specs.declared.finding.Finding.{Finding};

/// Against its own baseline nothing of some findings is left. What is left is a part of the findings in their order, and has
/// all of those whose line isn't in the baseline.
#[tactic(auto, using(crate::proofs::Unknown::own_goes, crate::proofs::Unknown::left_is_part, crate::proofs::Unknown::new_is_left))]
pub fn known_findings_go()
    ensures own { (findings : List Finding) (rows : List (List ℕ)) → IsBaselineOf findings rows → left rows findings ≡ [] }
    ensures part { (findings : List Finding) (rows : List (List ℕ)) → IsPartOf (left rows findings) findings }
    ensures fresh { (findings : List Finding) (rows : List (List ℕ)) →
        filter (is_new rows) (left rows findings) ≡ filter (is_new rows) findings }
{}

/// Bytes are read in one way: they are the baseline of at most one list of lines, or there is at most one first line that doesn't fit,
/// and never both. The text of findings' baseline is that of its lines.
pub fn each_text_has_one_reading()
    ensures rows { (bytes : List ℕ) (rows others : List (List ℕ)) →
        IsBaseline bytes rows → IsBaseline bytes others → rows ≡ others }
    ensures line { (bytes : List ℕ) (line other : ℕ) → IsUnfitAt bytes line → IsUnfitAt bytes other → line ≡ other }
    ensures not_both { (bytes : List ℕ) (rows : List (List ℕ)) (line : ℕ) → IsBaseline bytes rows → ¬ IsUnfitAt bytes line }
    ensures printed { (findings : List Finding) (rows : List (List ℕ)) →
        IsTrue (list_all are_bytes findings) → IsBaselineOf findings rows → IsBaseline (baseline_text rows) rows }
{}
