//! The names of kinds. They are those of `specs/Names.antt`.

ghost use Rattle.std.specs.Prelude.{◌≡◌, map};
ghost use Rattle.lint_findings.specs.Names.{about_in, about_text, choose, hint_text, warning_text};

use crate::finding::{About, HintKind, WarningKind};
use init_machine::DiagKind;
use init_trace::kind_name;

/// Every kind by its name.
pub const KINDS: [(&[u8], About); 24] = [
    (b"Cut", About::Error(DiagKind::Cut)),
    (b"Orphan", About::Error(DiagKind::Orphan)),
    (b"NoTrigger", About::Error(DiagKind::NoTrigger)),
    (b"BadTrigger", About::Error(DiagKind::BadTrigger)),
    (b"TwiceProp", About::Error(DiagKind::TwiceProp)),
    (b"BadWord", About::Error(DiagKind::BadWord)),
    (b"BadArity", About::Error(DiagKind::BadArity)),
    (b"BadOption", About::Error(DiagKind::BadOption)),
    (b"BadService", About::Error(DiagKind::BadService)),
    (b"ServiceAgain", About::Error(DiagKind::ServiceAgain)),
    (b"BadImport", About::Error(DiagKind::BadImport)),
    (b"NoFile", About::Error(DiagKind::NoFile)),
    (b"Loop", About::Error(DiagKind::Loop)),
    (b"TooDeep", About::Error(DiagKind::TooDeep)),
    (b"BadExpand", About::Error(DiagKind::BadExpand)),
    (b"BadProp", About::Error(DiagKind::BadProp)),
    (b"NotModelled", About::Warning(WarningKind::NotModelled)),
    (b"NoService", About::Warning(WarningKind::NoService)),
    (b"NoClass", About::Warning(WarningKind::NoClass)),
    (b"UnheardEvent", About::Warning(WarningKind::UnheardEvent)),
    (b"UnsentEvent", About::Warning(WarningKind::UnsentEvent)),
    (b"ByteOrderMark", About::Hint(HintKind::ByteOrderMark)),
    (b"SpannedLines", About::Hint(HintKind::SpannedLines)),
    (b"CapitalHeader", About::Hint(HintKind::CapitalHeader)),
];

fn warning_name(kind: WarningKind) -> &'static [u8]
    ensures { result.now ≡ warning_text kind }
{
    match kind {
        WarningKind::NotModelled => b"NotModelled",
        WarningKind::NoService => b"NoService",
        WarningKind::NoClass => b"NoClass",
        WarningKind::UnheardEvent => b"UnheardEvent",
        WarningKind::UnsentEvent => b"UnsentEvent",
    }
}

fn hint_name(kind: HintKind) -> &'static [u8]
    ensures { result.now ≡ hint_text kind }
{
    match kind {
        HintKind::ByteOrderMark => b"ByteOrderMark",
        HintKind::SpannedLines => b"SpannedLines",
        HintKind::CapitalHeader => b"CapitalHeader",
    }
}

/// The name of a kind.
pub fn about_name(about: About) -> &'static [u8]
    ensures { result.now ≡ about_text about }
{
    match about {
        About::Error(kind) => kind_name(kind),
        About::Warning(kind) => warning_name(kind),
        About::Hint(kind) => hint_name(kind),
    }
}

/// The kind with a name. None exactly where no kind has it.
pub fn about_of(name: &[u8]) -> Option<About>
    ensures { result ≡ about_in name.now }
{
    look_up(&KINDS, name)
}

/// What stands beside a name in a table. None exactly where no row has the name.
fn look_up(mut table: &[(&[u8], About)], name: &[u8]) -> Option<About>
    ensures { result ≡ choose (map (λ row. (row.0.now, row.1)) table.entry.now) name.now }
{
    while let [row, rest @ ..] = table {
        if row.0 == name {
            return Some(row.1);
        }
        table = rest;
    }
    None
}
