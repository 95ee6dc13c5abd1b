//! The forms of the words.

ghost use Rattle.std.specs.Prelude.{◌≡◌, ◌&&◌, option_map};
ghost use Rattle.command_line.specs.Form as form_spec;
ghost use Rattle.command_line.specs.Services as services_spec;
ghost use Rattle.command_line.specs.declared.form.Form.TheVariants as form;

use crate::form_name::{FormName, form_named};
use crate::services::services_in;
use init_base::{List, Text};

/// What the program is asked to do.
#[derive(Clone, Copy, Debug, PartialEq, Eq)]
pub enum Form {
    /// `run ROOT SCRIPT`: the machine runs, and its report is written.
    Run,
    /// `race ROOT SCRIPT`: the machine runs with each client on a thread, and its report is written.
    Race,
    /// `check ROOT`: what is wrong in the build files and the rc files is written.
    Check,
    /// `soak N`: a generated boot of so many services runs, and the summary of its report is written.
    Soak { services: u32 },
    /// `wire ROOT MESSAGES`: the messages of clients of the property socket are answered, and the replies are written.
    Wire,
    /// `dispatch ROOT SCRIPT`: the machine runs, one worker serves all clients' sets through a queue, and its report is written.
    Dispatch,
    /// `audit ROOT SCRIPT TRACE`: whether the machine can have written a trace is written.
    Audit,
}

/// The form of the words.
pub fn form_of(words: &List<Text>) -> Option<Form>
    ensures { result ≡ form_spec.form_of words.now }
{
    let (word, paths) = words.items().split_first()?;
    form_with(form_named(word)?, paths)
}

/// The form with this name and the words after it.
fn form_with(name: FormName, paths: &[Text]) -> Option<Form>
    ensures { result ≡ form_spec.form_with paths.now name }
{
    match (name, paths) {
        (FormName::Check, [root]) if is_path_word(root) => Some(Form::Check),
        (FormName::Soak, [count]) if is_path_word(count) => soak_of(count),
        (FormName::Run, [root, script]) if are_path_words(root, script) => Some(Form::Run),
        (FormName::Race, [root, script]) if are_path_words(root, script) => Some(Form::Race),
        (FormName::Wire, [root, messages]) if are_path_words(root, messages) => Some(Form::Wire),
        (FormName::Dispatch, [root, script]) if are_path_words(root, script) => Some(
            Form::Dispatch,
        ),
        (FormName::Audit, [root, script, trace])
            if are_path_words(root, script) && is_path_word(trace) => { Some(Form::Audit) }
        _ => None,
    }
}

/// Whether two words may stand after the name of a form.
fn are_path_words(one: &Text, other: &Text) -> bool
    ensures { result ≡ (form_spec.is_path_word one.now && form_spec.is_path_word other.now) }
{
    is_path_word(one) && is_path_word(other)
}

/// The form `soak` with a word that is a number of services.
fn soak_of(count: &Text) -> Option<Form>
    ensures { result ≡ option_map form.Soak (services_spec.services_in count.now) }
{
    let services = services_in(count.bytes())?;
    Some(Form::Soak { services })
}

/// Whether a word may stand after the name of a form, as a path does: it isn't empty, doesn't begin with `-`, and is UTF-8.
fn is_path_word(word: &Text) -> bool
    ensures { result ≡ form_spec.is_path_word word.now }
{
    match word.bytes() {
        [] | [b'-', ..] => false,
        _ => word.is_utf8(),
    }
}
