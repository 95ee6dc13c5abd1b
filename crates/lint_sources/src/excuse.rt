//! Which lines of a file another init takes. The rule is `all_taken_elsewhere` of `specs/Excused.antt`.

ghost use Rattle.std.specs.Prelude.{◌≡◌, ◌++◌, ◌∷◌, [], map, position, is_ok, IfOk, OnOk};
ghost use Rattle.std.specs.List.{list_any};
ghost use Rattle.init_base.specs.Tree.{has_name};
ghost use Rattle.rc_parse.specs.Lines.{lines_before_header};
ghost use Rattle.rc_parse.specs.Triggers.{is_equals_sign, triggers_of};
ghost use Rattle.lint_sources.specs.Sources.{HasNumbers};
ghost use Rattle.lint_sources.specs.internal.Steps as steps_spec;
ghost use Rattle.lint_sources.specs.Excused.{all_taken_elsewhere, good_header, number_if, numbers_of};
ghost use Rattle.lint_sources.specs.Excused as excused_spec;

use crate::not_modelled::{is_command_not_modelled, is_option_not_modelled};
use init_base::{List, NoMemory, Text};
use rc_parse::{
    arguments, before_header, first_word, is_header, is_on, is_service, is_text, parse,
};
use rc_tokens::{Line, LineSlice, Tokens};
use std::alloc::Global;
use std::collections::HashSet;

const ON_PROPERTY: &[u8] = b"property:";

/// A section whose lines have words of their own.
#[derive(Clone, Copy, Debug, PartialEq, Eq)]
pub enum Part {
    Action,
    Service,
}

fn is_allowed(allowed: &List<Text>, word: &[u8]) -> bool
    ensures { result ≡ has_name allowed.now word.now }
{
    allowed.items().iter().any(|text| text.is(word))
}

fn is_excused_command(allowed: &List<Text>, word: &[u8]) -> bool
    ensures { result ≡ excused_spec.is_excused_command allowed.now word.now }
{
    is_command_not_modelled(word) || is_allowed(allowed, word)
}

fn is_excused_option(allowed: &List<Text>, word: &[u8]) -> bool
    ensures { result ≡ excused_spec.is_excused_option allowed.now word.now }
{
    is_option_not_modelled(word) || is_allowed(allowed, word)
}

fn is_excused_in_action(allowed: &List<Text>, line: &Line<'_>) -> bool
    ensures { result ≡ excused_spec.is_excused_in_action allowed.now line.now }
{
    is_excused_command(allowed, first_word(line.words()))
}

fn is_excused_in_service(allowed: &List<Text>, line: &Line<'_>) -> bool
    ensures { result ≡ excused_spec.is_excused_in_service allowed.now line.now }
{
    let words = line.words();
    let word = first_word(words);
    if is_text(word, b"onrestart") {
        is_excused_command(allowed, first_word(arguments(words)))
    } else {
        is_excused_option(allowed, word)
    }
}

/// Whether another init takes a line of a section.
fn is_excused_at(part: Part, allowed: &List<Text>, line: &Line<'_>) -> bool
    ensures { result ≡ steps_spec.is_excused_at part allowed.now line.now }
{
    match part {
        Part::Action => is_excused_in_action(allowed, line),
        Part::Service => is_excused_in_service(allowed, line),
    }
}

/// The place of the first `=`.
fn equals_sign(text: &[u8]) -> Option<usize>
    ensures { result ≡ position is_equals_sign text.now }
{
    text.iter().position(|byte| *byte == b'=')
}

/// The text without the `!` before its first `=`.
fn without_bang(alloc: Global, text: &Text) -> Result<Text, NoMemory>
    ensures { IfOk result (λ equal. equal ≡ excused_spec.without_bang (position is_equals_sign text.now) text.now) }
{
    let bytes = text.bytes();
    let Some(at) = equals_sign(bytes) else {
        return text.share();
    };
    if !bytes[..at].ends_with(b"!") {
        return text.share();
    }
    let mut kept = Vec::from_slice(alloc, &bytes[..at - 1])?;
    kept.extend_from_slice(&bytes[at..])?;
    Text::from_vec(kept)
}

/// `property:NAME!=VALUE` read as `property:NAME=VALUE`.
fn as_equal(alloc: Global, word: &Text) -> Result<Text, NoMemory>
    ensures { IfOk result (λ equal. equal ≡ excused_spec.as_equal word.now) }
{
    if word.bytes().starts_with(ON_PROPERTY) {
        without_bang(alloc, word)
    } else {
        word.share()
    }
}

/// `on`, and behind it the words with each `!=` read as `=`.
fn equal_words(alloc: Global, words: &[Text]) -> Result<List<Text>, NoMemory>
    ensures { IfOk result (λ equal. equal ≡ (111 ∷ 110 ∷ []) ∷ map excused_spec.as_equal words.now) }
{
    let mut equal = List::with_capacity(alloc, words.len())?;
    equal.push(Text::of(alloc, b"on")?)?;
    for word in words {
        equal.push(as_equal(alloc, word)?)?;
    }
    Ok(equal)
}

/// Whether a word has a `!`, as each test with `!=` does.
fn has_bang(word: &Text) -> bool
    ensures { result ≡ excused_spec.has_bang word.now }
{
    word.bytes().iter().any(|byte| *byte == b'!')
}

fn have_bang(words: &[Text]) -> bool
    ensures { result ≡ list_any excused_spec.has_bang words.now }
{
    words.iter().any(|word| has_bang(word))
}

/// Whether the words behind `on` have a `!`, and are well-formed triggers where each `!=` is read as `=`.
fn are_good_as_equal(alloc: Global, words: &[Text]) -> Result<bool, NoMemory>
    ensures { IfOk result (λ good. good ≡ excused_spec.are_good_as_equal words.now) }
{
    if have_bang(words) {
        are_triggers_as_equal(alloc, words)
    } else {
        Ok(false)
    }
}

/// Whether the words are well-formed triggers where each `!=` is read as `=`.
#[tactic(auto, using(crate::proofs::Headers::good_alone))]
fn are_triggers_as_equal(alloc: Global, words: &[Text]) -> Result<bool, NoMemory>
    ensures { IfOk result (λ good. good ≡ is_ok (triggers_of (map excused_spec.as_equal words.now))) }
{
    let tokens = Tokens::of_line(alloc, 1, equal_words(alloc, words)?)?;
    let parsed = parse(alloc, &Text::empty(), &tokens)?;
    Ok(parsed.diagnostics.is_empty())
}

/// Adds the number of a line that another init takes.
fn add_line(
    numbers: &mut List<u32>,
    part: Part,
    allowed: &List<Text>,
    line: &Line<'_>,
) -> Result<(), NoMemory>
    ensures { OnOk result (numbers.new ≡ numbers.old ++ number_if (steps_spec.is_excused_at part allowed.now) line.now) }
{
    if is_excused_at(part, allowed, line) {
        numbers.push(line.number())
    } else {
        Ok(())
    }
}

/// Adds the numbers of the lines that another init takes.
fn add_lines(
    numbers: &mut List<u32>,
    part: Part,
    allowed: &List<Text>,
    mut lines: LineSlice<'_>,
) -> Result<(), NoMemory>
    ensures { OnOk result (numbers.new ≡ numbers.old ++ numbers_of (steps_spec.is_excused_at part allowed.now) lines.entry) }
{
    while let Some(line) = lines.pop() {
        add_line(numbers, part, allowed, &line)?;
    }
    Ok(())
}

/// Adds the number of the header of an action, where another init takes its triggers.
fn add_header(alloc: Global, numbers: &mut List<u32>, header: &Line<'_>) -> Result<(), NoMemory>
    ensures { OnOk result (numbers.new ≡ numbers.old ++ good_header (record { header = header.now; body = [] })) }
{
    if are_good_as_equal(alloc, arguments(header.words()))? {
        numbers.push(header.number())
    } else {
        Ok(())
    }
}

/// Adds the numbers of the lines of a section that another init takes. Its body are the lines up to the next header.
fn add_section(
    alloc: Global,
    numbers: &mut List<u32>,
    allowed: &List<Text>,
    header: &Line<'_>,
    behind: &LineSlice<'_>,
) -> Result<(), NoMemory>
    ensures { OnOk result (numbers.new ≡ numbers.old
        ++ excused_spec.taken_elsewhere allowed.now (record { header = header.now; body = lines_before_header behind.now })) }
{
    if is_on(header) {
        add_header(alloc, numbers, header)?;
        add_lines(numbers, Part::Action, allowed, before_header(behind))
    } else if is_service(header) {
        add_lines(numbers, Part::Service, allowed, before_header(behind))
    } else {
        Ok(())
    }
}

/// Adds the numbers of the lines of a section that another init takes, where the first line is its header.
#[tactic(auto, using(crate::proofs::Bodies::section_more, crate::proofs::Bodies::section_same))]
fn add_first(
    alloc: Global,
    numbers: &mut List<u32>,
    allowed: &List<Text>,
    first: &Line<'_>,
    behind: &LineSlice<'_>,
) -> Result<(), NoMemory>
    ensures { OnOk result (numbers.new ++ all_taken_elsewhere allowed.now behind.now
        ≡ numbers.old ++ all_taken_elsewhere allowed.now (first.now ∷ behind.now)) }
{
    if is_header(first) {
        add_section(alloc, numbers, allowed, first, behind)
    } else {
        Ok(())
    }
}

/// The numbers of the lines that another init takes, in order.
fn lines_taken_elsewhere(
    alloc: Global,
    allowed: &List<Text>,
    lines: &LineSlice<'_>,
) -> Result<List<u32>, NoMemory>
    ensures { IfOk result (λ numbers. numbers ≡ all_taken_elsewhere allowed.now lines.now) }
{
    let mut numbers = List::new(alloc);
    let mut rest = lines.again();
    while let Some(first) = rest.pop() {
        add_first(alloc, &mut numbers, allowed, &first, &rest)?;
    }
    Ok(numbers)
}

fn set_of(alloc: Global, numbers: List<u32>) -> Result<HashSet<u32>, NoMemory>
    ensures { IfOk result (λ set. HasNumbers set.keys numbers) }
{
    Ok(numbers.into_vec().into_iter().collect(alloc)?)
}

/// The numbers of the lines that another init takes, as a set.
pub fn taken_elsewhere(
    alloc: Global,
    allowed: &List<Text>,
    lines: &LineSlice<'_>,
) -> Result<HashSet<u32>, NoMemory>
    ensures { IfOk result (λ numbers. HasNumbers numbers.keys (all_taken_elsewhere allowed.now lines.now)) }
{
    let numbers = lines_taken_elsewhere(alloc, allowed, lines)?;
    set_of(alloc, numbers)
}
