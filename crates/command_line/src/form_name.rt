//! The names of the forms.

ghost use Rattle.std.specs.Prelude.{◌≡◌};
ghost use Rattle.command_line.specs.FormName as spec;

use init_base::Text;

/// The name of a form: the first of its words.
#[derive(Clone, Copy, Debug, PartialEq, Eq)]
pub enum FormName {
    Run,
    Race,
    Check,
    Soak,
    Wire,
    Dispatch,
    Audit,
}

/// The form with this name.
pub(crate) fn form_named(word: &Text) -> Option<FormName>
    ensures { result ≡ spec.form_named word.now }
{
    if word.is(b"run") {
        Some(FormName::Run)
    } else if word.is(b"race") {
        Some(FormName::Race)
    } else if word.is(b"check") {
        Some(FormName::Check)
    } else if word.is(b"soak") {
        Some(FormName::Soak)
    } else if word.is(b"wire") {
        Some(FormName::Wire)
    } else if word.is(b"dispatch") {
        Some(FormName::Dispatch)
    } else if word.is(b"audit") {
        Some(FormName::Audit)
    } else {
        None
    }
}
