//! Laws of a report's text. The statements are in `specs/Law.antt`.

ghost use Rattle.init_trace.specs.Law.{TextDeterminesReport, TextIsItsParts};

/// Different reports have different texts: a law over all reports whose numbers are below 2 ^ 64.
pub fn text_determines_report()
    ensures { TextDeterminesReport }
{}

/// The text of a report is its head, its entries one after another, and its tail.
#[tactic(auto, using(crate::proofs::Texts::text_parts))]
pub fn text_is_its_parts()
    ensures { TextIsItsParts }
{}
