//! Gathering what the lines of a text say.

ghost use Rattle.std.specs.Prelude.{◌≡◌, ◌≢◌, ◌^◌, ◌<◌, ◌≤◌, ◌-◌, ◌*◌, ◌+◌, [], ◌∷◌, OnOk, IfOk, length};
ghost use Rattle.script_lang.specs.Gathering.{gathered_from, nothing_gathered};
ghost use Rattle.script_lang.specs.Lines.{lines_of};
ghost use Rattle.script_lang.specs.Script.{steps_in};

use crate::fault::Fault;
use crate::reading::reading;
use crate::statement::{Said, Statement};
use init_base::{List, NoMemory};
use memchr::memchr;
use std::alloc::Global;

/// What the lines of a text say, so far.
#[derive(Drop)]
pub struct Gathered {
    /// What the lines before the first one out of form say.
    pub said: List<Said>,
    /// The first line out of form, from 1.
    pub unread: Option<u32>,
    /// The number of lines.
    pub lines: u32,
    /// The sum of the numbers of all `step` lines in form.
    pub steps: u64,
}

impl Gathered {
    ghost use Rattle.script_lang.specs.Gathering.{nothing_gathered, with_line, with_reading};

    fn new(alloc: Global) -> Gathered
        ensures { result ≡ nothing_gathered }
    {
        Gathered {
            said: List::new(alloc),
            unread: None,
            lines: 0,
            steps: 0,
        }
    }

    /// Takes the next line.
    fn take(&mut self, alloc: Global, line: &[u8]) -> Result<(), NoMemory>
        requires lines { self.old.lines < 2 ^ 31 }
        requires steps { self.old.steps ≤ 2 ^ 32 * self.old.lines }
        ensures line { OnOk result (self.new ≡ with_line self.old line.now) }
        ensures count { OnOk result (self.new.lines ≡ self.old.lines + 1) }
        ensures steps { OnOk result (self.new.steps ≤ 2 ^ 32 * self.new.lines) }
    {
        self.lines += 1;
        match reading(alloc, line) {
            Ok(Some(statement)) => self.say(statement),
            Ok(None) => Ok(()),
            Err(Fault::Bad) => {
                self.unread = self.unread.or(Some(self.lines));
                Ok(())
            }
            Err(Fault::NoMemory) => Err(NoMemory),
        }
    }

    /// Adds what the present line says.
    fn say(&mut self, statement: Statement) -> Result<(), NoMemory>
        requires { self.old.steps + 2 ^ 32 < 2 ^ 64 }
        ensures statement { OnOk result (self.new ≡ with_reading self.old (Some (Some statement))) }
        ensures lines { OnOk result (self.new.lines ≡ self.old.lines) }
        ensures steps { OnOk result (self.new.steps ≤ self.old.steps + 2 ^ 32) }
    {
        self.steps += steps_of(&statement);
        if self.unread.is_none() {
            self.said.push(Said {
                line: self.lines,
                statement,
            })?;
        }
        Ok(())
    }
}

/// The number of a `step` line, and 0 of another.
fn steps_of(statement: &Statement) -> u64
    ensures number { result ≡ steps_in (Some (Some statement.now)) }
    ensures small { result < 2 ^ 32 }
{
    match statement {
        Statement::Step(count) => u64::from(*count),
        _ => 0,
    }
}

/// What the lines of a text say.
pub fn gather(alloc: Global, bytes: &[u8]) -> Result<Gathered, NoMemory>
    requires { length bytes.now ≤ 16777216 }
    ensures { IfOk result (λ gathered. gathered ≡ gathered_from nothing_gathered (lines_of bytes.now)) }
{
    let mut gathered = Gathered::new(alloc);
    let mut rest = bytes;
    while !rest.is_empty() {
        let (line, behind) = first_line(rest);
        gathered.take(alloc, line)?;
        rest = behind;
    }
    Ok(gathered)
}

/// The first line, without its LF, and what stands behind it.
pub fn first_line(bytes: &[u8]) -> (&[u8], &[u8])
    requires { bytes.now ≢ [] }
    ensures lines { lines_of bytes.now ≡ result.0.now ∷ lines_of result.1.now }
    ensures shorter { length result.1.now < length bytes.now }
{
    match memchr(b'\n', bytes) {
        Some(end) => (&bytes[..end], &bytes[end + 1..]),
        None => (bytes, &[]),
    }
}
