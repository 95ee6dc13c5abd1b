//! The words that stand in a trace for diagnostics and refusals of the tree. They are those of
//! `specs/Words.antt`.

ghost use Rattle.std.specs.Prelude.{◌≡◌};
ghost use Rattle.init_trace.specs.Words.{kind_text, tree_text};

use init_machine::{DiagKind, FsRefusal};

/// The name of a diagnostic's kind.
#[tactic(auto, unfolding(crate::specs::Words::kind_text))]
pub fn kind_name(kind: DiagKind) -> &'static [u8]
    ensures { result.now ≡ kind_text kind }
{
    match kind {
        DiagKind::Cut => b"Cut",
        DiagKind::Orphan => b"Orphan",
        DiagKind::NoTrigger => b"NoTrigger",
        DiagKind::BadTrigger => b"BadTrigger",
        DiagKind::TwiceProp => b"TwiceProp",
        DiagKind::BadWord => b"BadWord",
        DiagKind::BadArity => b"BadArity",
        DiagKind::BadOption => b"BadOption",
        DiagKind::BadService => b"BadService",
        DiagKind::ServiceAgain => b"ServiceAgain",
        DiagKind::BadImport => b"BadImport",
        DiagKind::NoFile => b"NoFile",
        DiagKind::Loop => b"Loop",
        DiagKind::TooDeep => b"TooDeep",
        DiagKind::BadExpand => b"BadExpand",
        DiagKind::BadProp => b"BadProp",
    }
}

/// The name of a refusal of the tree.
#[tactic(auto, unfolding(crate::specs::Words::tree_text))]
pub fn tree_name(refusal: FsRefusal) -> &'static [u8]
    ensures { result.now ≡ tree_text refusal }
{
    match refusal {
        FsRefusal::BadPath => b"BadPath",
        FsRefusal::Absent => b"Absent",
        FsRefusal::IsDir => b"IsDir",
        FsRefusal::NotDir => b"NotDir",
        FsRefusal::Exists => b"Exists",
        FsRefusal::NotEmpty => b"NotEmpty",
        FsRefusal::Insecure => b"Insecure",
        FsRefusal::NoMemory => b"NoMemory",
    }
}
