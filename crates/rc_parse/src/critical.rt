//! The option `critical`.

ghost use Rattle.std.specs.Prelude.{◌≡◌, ◌-◌, Some, None, if◌then◌else◌, nat_eq, codes, drop, take, length, IfOk, MatchOption};
ghost use Rattle.std.specs.List.{ends_with, starts_with};
ghost use Rattle.std.specs.Option.{option_copied};
ghost use Rattle.rc_parse.specs.internal.Parts.{mark_of, with_part};
ghost use Rattle.rc_parse.specs.Readings.{IsReading};
ghost use Rattle.rc_parse.specs.Values.{critical_of, part_of, parts_at_default, target_part, window_of};
ghost use Rattle.rc_parse.specs.Values as spec;

use crate::fault::Fault;
use crate::number::number_from;
use crate::words::{behind, is_legal_name};
use init_base::{Millis, NoMemory, Text};
use init_machine::{Critical, DiagKind};
use std::alloc::Global;

/// A window.
#[derive(Clone, Copy, Debug, PartialEq, Eq)]
pub enum WindowLength {
    /// The service isn't critical.
    Off,
    Minutes(u32),
}

/// An argument of `critical`.
#[derive(Debug, Drop)]
pub enum CriticalPart {
    Window(WindowLength),
    Target(Text),
}

const ON_WINDOW: &[u8] = b"window=";

const ON_TARGET: &[u8] = b"target=";

const NO_WINDOW: &[u8] = b"off";

const OPENING: &[u8] = b"${";

const CLOSING: &[u8] = b"}";

const ON_DEFAULT: &[u8] = b":-";

const DEFAULT_WINDOW: WindowLength = WindowLength::Minutes(4);

const DEFAULT_TARGET: &[u8] = b"bootloader";

const MILLIS_OF_MINUTE: u64 = 60_000;

/// A window as it is written.
fn plain_window(text: &[u8]) -> Option<WindowLength>
    ensures { result ≡ spec.plain_window text.now }
{
    if text == NO_WINDOW {
        return Some(WindowLength::Off);
    }
    match number_from(0, text) {
        Some(minutes) => Some(WindowLength::Minutes(minutes)),
        None => None,
    }
}

/// What stands before the first `:-`, and what stands behind it.
fn parts_at_default(text: &[u8]) -> Option<(&[u8], &[u8])>
    ensures { MatchOption result (parts_at_default text.entry.now ≡ None)
        (λ parts. parts_at_default text.entry.now ≡ Some (parts.0.now, parts.1.now)) }
{
    for place in 0..text.len() {
        let left = &text[place..];
        if left.starts_with(ON_DEFAULT) {
            return Some((&text[..place], &left[ON_DEFAULT.len()..]));
        }
    }
    None
}

/// M of `${NAME:-M}`, where NAME ends at the first `:-`.
#[tactic(auto, using(crate::proofs::Windows::no_opening))]
fn default_window(text: &[u8]) -> Option<&[u8]>
    ensures { option_copied result ≡ spec.default_window text.entry.now }
{
    let (front, back) = parts_at_default(text)?;
    let name = behind_opening(front)?;
    if !is_legal_name(name) {
        return None;
    }
    before_closing(back)
}

/// What stands behind `${`.
fn behind_opening(text: &[u8]) -> Option<&[u8]>
    ensures { option_copied result ≡ (if starts_with nat_eq text.entry.now (codes "${") then Some (drop 2 text.entry.now) else None) }
{
    if text.starts_with(OPENING) {
        Some(&text[OPENING.len()..])
    } else {
        None
    }
}

/// What stands before a `}` at the end.
fn before_closing(text: &[u8]) -> Option<&[u8]>
    ensures { option_copied result
        ≡ (if ends_with nat_eq text.entry.now (codes "}") then Some (take (length text.entry.now - 1) text.entry.now) else None) }
{
    if text.ends_with(CLOSING) {
        Some(&text[..text.len() - CLOSING.len()])
    } else {
        None
    }
}

/// A window as it is written, or as the default of a property, which isn't looked up.
fn window(text: &[u8]) -> Option<WindowLength>
    ensures { result ≡ window_of text.now }
{
    plain_window(default_window(text).unwrap_or(text))
}

/// A target, which isn't empty.
fn target(text: Text) -> Result<CriticalPart, Fault>
    ensures { IsReading result (target_part text) }
{
    if text.is_empty() {
        return Err(Fault::Bad(DiagKind::BadOption));
    }
    Ok(CriticalPart::Target(text))
}

/// `window=WINDOW` or `target=TARGET`.
#[tactic(auto, using(crate::proofs::Firsts::prefix_fits))]
fn part(word: &Text) -> Result<CriticalPart, Fault>
    ensures { IsReading result (part_of word.now) }
{
    if word.bytes().starts_with(ON_WINDOW) {
        return match window(&word.bytes()[ON_WINDOW.len()..]) {
            Some(window) => Ok(CriticalPart::Window(window)),
            None => Err(Fault::Bad(DiagKind::BadOption)),
        };
    }
    if !word.bytes().starts_with(ON_TARGET) {
        return Err(Fault::Bad(DiagKind::BadOption));
    }
    target(behind(word, ON_TARGET.len())?)
}

/// What the arguments of `critical` gave so far.
#[derive(Drop)]
struct Parts {
    window: Option<WindowLength>,
    target: Option<Text>,
}

impl Parts {
    /// These parts and one more. A second one of its key is bad.
    fn with(mut self, part: CriticalPart) -> Result<Parts, Fault>
        ensures { IsReading result (with_part self part) }
    {
        match part {
            CriticalPart::Window(window) if self.window.is_none() => self.window = Some(window),
            CriticalPart::Target(target) if self.target.is_none() => self.target = Some(target),
            _ => return Err(Fault::Bad(DiagKind::BadOption)),
        }
        Ok(self)
    }

    /// The mark. A window `off` takes it away.
    fn mark(self, alloc: Global) -> Result<Option<Critical>, NoMemory>
        ensures { IfOk result (λ mark. mark ≡ mark_of self) }
    {
        let window = self.window.unwrap_or(DEFAULT_WINDOW);
        let WindowLength::Minutes(minutes) = window else {
            return Ok(None);
        };
        let target = match self.target {
            Some(target) => target,
            None => Text::of(alloc, DEFAULT_TARGET)?,
        };
        Ok(Some(Critical {
            window: Millis(u64::from(minutes) * MILLIS_OF_MINUTE),
            target,
        }))
    }
}

/// What the arguments of `critical` mean.
pub fn critical(alloc: Global, args: &[Text]) -> Result<Option<Critical>, Fault>
    ensures { IsReading result (critical_of args.now) }
{
    let mut parts = Parts {
        window: None,
        target: None,
    };
    for arg in args {
        parts = parts.with(part(arg)?)?;
    }
    Ok(parts.mark(alloc)?)
}
