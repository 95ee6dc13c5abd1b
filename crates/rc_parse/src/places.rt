//! What a file means, and where its lines and diagnostics stand: laws of the definitions.

ghost use Rattle.std.specs.Prelude.{◌≡◌, ℕ, List};
ghost use Rattle.rc_tokens.specs.Lines.{Line, Tokens, Ascend, numbers};
ghost use Rattle.rc_parse.specs.Files.{Reads};
ghost use Rattle.rc_parse.specs.Places.{ArePlaced, IsParted, places};
ghost use Rattle.rc_parse.specs.Sections.{Sections};
ghost use Rattle.rc_parse.specs.declared.parsed.Parsed.{Parsed};

/// Each line stands before the first header or in one section, and diagnostics stand in the order of the lines, at most
/// one at a line, with that of the line that was left out behind them.
#[tactic(auto, using(crate::proofs::Placed::lines_parted, crate::proofs::Placed::diagnostics_placed, crate::proofs::Placed::diagnostics_ascend))]
pub fn lines_have_their_places()
    ensures lines { (lines : List Line) → IsParted lines }
    ensures diagnostics { (file : List ℕ) (tokens : Tokens) (parsed : Parsed) → Sections file tokens parsed
        → ArePlaced file tokens parsed }
    // The lines of diagnostics ascend, since the numbers of lines do.
    ensures ascend { (file : List ℕ) (tokens : Tokens) (parsed : Parsed) → Sections file tokens parsed →
        Ascend (numbers tokens.lines tokens.dropped) → Ascend (places parsed.diagnostics) }
{}

/// The bytes of a file have one meaning.
pub fn one_meaning()
    ensures { (file content : List ℕ) (one other : Parsed) → Reads file content one → Reads file content other → one ≡ other }
{}
