//! What is wrong with words that have no form.

ghost use Rattle.std.specs.Prelude.{◌≡◌, ◌↔◌, ℕ, None, IsSome, List as Items};
ghost use Rattle.command_line.specs.Form as form_spec;
ghost use Rattle.command_line.specs.Misuse as misuse_spec;
ghost use Rattle.command_line.specs.Services as services_spec;

use crate::form_name::{FormName, form_named};
use crate::services::services_in;
use init_base::{List, Text};

/// The first thing that is wrong with the words.
#[derive(Clone, Copy, Debug, PartialEq, Eq)]
pub enum Misuse {
    /// There are no words.
    NoForm,
    /// The first word is the name of no form.
    UnknownForm,
    /// After the form's name stand more words than the form has, or fewer.
    WrongCount { form: FormName, given: usize },
    /// The word at this place names no path.
    BadWord { place: Place, fault: WordFault },
    /// The word after `soak` is no number from 1 to 1000 in decimal.
    BadNumber,
}

/// The places of a form at which a path stands, or a number.
#[derive(Clone, Copy, Debug, PartialEq, Eq)]
pub enum Place {
    Root,
    Script,
    Messages,
    Trace,
    Number,
}

/// Why a word names no path.
#[derive(Clone, Copy, Debug, PartialEq, Eq)]
pub enum WordFault {
    Empty,
    /// The word begins with `-`.
    Dash,
    NotUtf8,
}

/// Nothing is wrong exactly where the words have a form.
#[tactic(auto, using(crate::proofs::Misuses::misuse_law))]
pub fn nothing_wrong_with_a_form()
    ensures { (words : Items (Items ℕ)) → (misuse_spec.misuse_of words ≡ None) ↔ IsSome (form_spec.form_of words) }
{}

/// The first thing that is wrong with the words: none exactly where they have a form.
pub fn misuse_of(words: &List<Text>) -> Option<Misuse>
    ensures { result ≡ misuse_spec.misuse_of words.now }
{
    let Some((word, paths)) = words.items().split_first() else {
        return Some(Misuse::NoForm);
    };
    let Some(form) = form_named(word) else {
        return Some(Misuse::UnknownForm);
    };
    misuse_after(form, paths)
}

/// The first thing that is wrong with the words after the form's name.
fn misuse_after(form: FormName, paths: &[Text]) -> Option<Misuse>
    ensures { result ≡ misuse_spec.misuse_after paths.now form }
{
    match (form, paths) {
        (FormName::Check, [root]) => misuse_at(Place::Root, root),
        (FormName::Soak, [count]) => misuse_at(Place::Number, count).or(number_fault(count)),
        (FormName::Run | FormName::Race | FormName::Dispatch, [root, script]) => {
            misuse_at(Place::Root, root).or(misuse_at(Place::Script, script))
        }
        (FormName::Wire, [root, messages]) => {
            misuse_at(Place::Root, root).or(misuse_at(Place::Messages, messages))
        }
        (FormName::Audit, [root, script, trace]) => misuse_at(Place::Root, root).or(misuse_at(
            Place::Script,
            script,
        ).or(misuse_at(Place::Trace, trace))),
        _ => Some(Misuse::WrongCount {
            form,
            given: paths.len(),
        }),
    }
}

/// What is wrong with the number of services.
fn number_fault(count: &Text) -> Option<Misuse>
    ensures { result ≡ misuse_spec.number_fault (services_spec.services_in count.now) }
{
    match services_in(count.bytes()) {
        Some(_) => None,
        None => Some(Misuse::BadNumber),
    }
}

/// What is wrong with the word at this place.
fn misuse_at(place: Place, word: &Text) -> Option<Misuse>
    ensures { result ≡ misuse_spec.misuse_at place word.now }
{
    let fault = word_fault(word)?;
    Some(Misuse::BadWord { place, fault })
}

/// Why the word names no path.
fn word_fault(word: &Text) -> Option<WordFault>
    ensures { result ≡ misuse_spec.word_fault word.now }
{
    match word.bytes() {
        [] => Some(WordFault::Empty),
        [b'-', ..] => Some(WordFault::Dash),
        _ if word.is_utf8() => None,
        _ => Some(WordFault::NotUtf8),
    }
}
