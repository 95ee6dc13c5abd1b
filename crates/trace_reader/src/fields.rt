//! The fields of a line, one after another.

ghost use Rattle.std.specs.Prelude.{◌≡◌, ◌≢◌, ◌<◌, [], ◌∷◌, ◌==◌, MatchOption, MatchResult, length};
ghost use Rattle.std.specs.List.{position, slice_split};
ghost use Rattle.trace_reader.specs.Split.{is_space};
ghost use Rattle.trace_reader.specs.Reading.{IsBad};

use script_lang::Fault;
use std::marker::Model;

/// A line that is read field by field. It is the list of the fields that are left to contracts.
#[derive(Drop)]
pub struct Fields<'a> {
    /// What stands behind the last space that was passed. None behind the last field.
    rest: Option<&'a [u8]>,
}

impl<'a> Model for Fields<'a> {
    ghost use Rattle.std.specs.Prelude.{ℕ, List};
    ghost use Rattle.std.specs.Option.{option_copied};
    ghost use Rattle.trace_reader.specs.Split.{fields_in};

    ghost Value = { List (List ℕ) };

    ghost view = { λ f. fields_in (option_copied f.rest) };
}

impl<'a> Fields<'a> {
    /// The fields of a line, which are parted by single spaces. A line has at least one, which may be empty.
    pub fn of(line: &'a [u8]) -> Fields<'a>
        ensures { result ≡ slice_split is_space line.entry.now }
    {
        Fields { rest: Some(line) }
    }

    /// Takes the next field. None exactly where no field is left.
    pub fn next(&mut self) -> Option<&'a [u8]>
        ensures { MatchOption result ((self.old ≡ []) × (self.new ≡ [])) (λ field. self.old ≡ field.now ∷ self.new) }
    {
        let rest = self.rest?;
        match cut(rest, b' ') {
            Some((field, behind)) => {
                self.rest = Some(behind);
                Some(field)
            }
            None => {
                self.rest = None;
                Some(rest)
            }
        }
    }

    /// Takes the next field, which must be there.
    pub fn field(&mut self) -> Result<&'a [u8], Fault>
        ensures { MatchResult result (λ field. self.old ≡ field.now ∷ self.new) (λ fault. IsBad fault × (self.old ≡ [])) }
    {
        self.next().ok_or(Fault::Bad)
    }

    /// Whether no field is left, as it must be.
    pub fn end(self) -> Result<(), Fault>
        ensures { MatchResult result (λ _. self.entry ≡ []) (λ fault. IsBad fault × (self.entry ≢ [])) }
    {
        match self.rest {
            Some(_) => Err(Fault::Bad),
            None => Ok(()),
        }
    }
}

/// What stands before the first byte of this value, and what stands behind it. None exactly where there is none.
pub fn cut(bytes: &[u8], at: u8) -> Option<(&[u8], &[u8])>
    ensures parts { MatchOption result (slice_split (λ byte. byte == at) bytes.entry.now ≡ bytes.entry.now ∷ [])
        (λ r. slice_split (λ byte. byte == at) bytes.entry.now ≡ r.0.now ∷ slice_split (λ byte. byte == at) r.1.now) }
    ensures shorter { MatchOption result (Unit {0}) (λ r. length r.1.now < length bytes.entry.now) }
{
    let place = place_of(bytes, at)?;
    Some((&bytes[..place], &bytes[place + 1..]))
}

fn place_of(bytes: &[u8], at: u8) -> Option<usize>
    ensures { result ≡ position (λ byte. byte == at) bytes.now }
{
    bytes.iter().position(|byte| *byte == at)
}
