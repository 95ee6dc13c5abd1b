//! The reader: it takes the bytes of a file run by run, and one by one where they mean something. Its steps are `step`,
//! `with_run` and `finished` of `specs/internal/Steps.antt`.

ghost use Rattle.std.specs.Prelude.{◌≡◌, ◌≢◌, ◌<◌, ◌≤◌, ◌^◌, ◌+◌, ◌-◌, ◌++◌, ◌∷◌, [], IsTrue, OnOk, IfOk, length};
ghost use Rattle.rc_tokens.specs.Grammar as spec;
ghost use Rattle.rc_tokens.specs.internal.Steps as steps;

use crate::run::{blanks, is_blank, is_space, is_token_next, line_feeds, run_len};
use crate::span::SpanTokens;
use crate::spelled::Spelled;
use init_base::NoMemory;
use std::alloc::Global;

/// What the bytes so far have begun.
#[derive(Clone, Copy)]
pub enum Mode {
    /// Nothing.
    Between,
    Comment,
    /// A token, outside quotes.
    Word,
    /// A quoted run.
    Quoted,
    /// A backslash in a token.
    Backslash,
    /// A backslash and a carriage return: a fold if a line feed comes, else an escape.
    BackslashReturn,
    /// A fold, whose line end has come.
    Folded,
}

/// A file, read up to some byte.
#[derive(Drop)]
pub struct Reader {
    spelled: Spelled,
    /// The number of the present line, if a token of it has begun.
    first: u32,
    /// The number of the physical line.
    number: u32,
    /// Whether the present token has a quoted run.
    has_quotes: bool,
    mode: Mode,
}

impl Reader {
    /// A reader of so many bytes, which has read none.
    pub fn new(alloc: Global, room: usize) -> Result<Reader, NoMemory>
        ensures { IfOk result (λ reader. reader ≡ steps.start) }
    {
        Ok(Reader {
            spelled: Spelled::new(alloc, room)?,
            first: 1,
            number: 1,
            has_quotes: false,
            mode: Mode::Between,
        })
    }

    /// Takes a run of bytes and the byte behind it, and answers those that are left.
    pub fn take_next<'a>(&mut self, bytes: &'a [u8]) -> Result<&'a [u8], NoMemory>
        requires some { bytes.now ≢ [] }
        requires number { self.old.number + length bytes.now < 2 ^ 32 }
        ensures same { IfOk result (λ rest. steps.run self.new rest.now ≡ steps.run self.old bytes.now) }
        ensures number { IfOk result (λ rest. self.new.number + length rest.now ≤ self.old.number + length bytes.now) }
        ensures fewer { IfOk result (λ rest. length rest.now < length bytes.now) }
    {
        let begun = self.begin(bytes);
        let (run, behind) = begun.split_at(run_len(self.mode, begun));
        self.take_run(run)?;
        let Some((byte, rest)) = behind.split_first() else {
            return Ok(behind);
        };
        self.take(*byte)?;
        Ok(rest)
    }

    /// Where no token has begun: passes the blanks at the front, and begins the token behind them, if one stands there.
    fn begin<'a>(&mut self, bytes: &'a [u8]) -> &'a [u8]
        ensures same { steps.run self.new result.now ≡ steps.run self.old bytes.now }
        ensures number { self.new.number ≡ self.old.number }
        ensures within { length result.now ≤ length bytes.now }
    {
        let Mode::Between = self.mode else {
            return bytes;
        };
        let (_, rest) = bytes.split_at(blanks(bytes));
        if is_token_next(rest) {
            self.begin_token();
        }
        rest
    }

    /// Takes bytes none of which ends a run.
    fn take_run(&mut self, run: &[u8]) -> Result<(), NoMemory>
        requires { self.old.number + length run.now < 2 ^ 32 }
        ensures { OnOk result (self.new ≡ steps.with_run self.old.mode self.old run.now) }
    {
        match self.mode {
            Mode::Word => self.spelled.extend(run),
            Mode::Quoted => {
                self.number += line_feeds(run) as u32;
                self.spelled.extend(run)
            }
            _ => Ok(()),
        }
    }

    /// Takes the next byte.
    fn take(&mut self, byte: u8) -> Result<(), NoMemory>
        requires { self.old.number < 2 ^ 32 - 1 }
        ensures { OnOk result (self.new ≡ steps.step self.old byte) }
    {
        let number = number_after(self.number, byte);
        self.move_on(byte)?;
        self.number = number;
        Ok(())
    }

    fn move_on(&mut self, byte: u8) -> Result<(), NoMemory>
        ensures { OnOk result (self.new ≡ steps.moved self.old.mode self.old byte) }
    {
        match self.mode {
            Mode::Between => self.between(byte),
            Mode::Comment => self.in_comment(byte),
            Mode::Word => self.in_word(byte),
            Mode::Quoted => self.in_quotes(byte),
            Mode::Backslash => self.after_backslash(byte),
            Mode::BackslashReturn => self.after_return(byte),
            Mode::Folded => self.in_fold(byte),
        }
    }

    fn between(&mut self, byte: u8) -> Result<(), NoMemory>
        ensures { OnOk result (self.new ≡ steps.between self.old byte) }
    {
        if is_blank(byte) {
            return Ok(());
        }
        match byte {
            b'\n' => self.end_line(),
            b'#' => {
                self.mode = Mode::Comment;
                Ok(())
            }
            _ => {
                self.begin_token();
                self.in_word(byte)
            }
        }
    }

    fn in_comment(&mut self, byte: u8) -> Result<(), NoMemory>
        ensures { OnOk result (self.new ≡ steps.in_comment self.old byte) }
    {
        if byte == b'\n' {
            return self.end_line();
        }
        Ok(())
    }

    fn in_word(&mut self, byte: u8) -> Result<(), NoMemory>
        ensures { OnOk result (self.new ≡ steps.in_word self.old byte) }
    {
        if is_blank(byte) {
            return self.end_token();
        }
        match byte {
            b'\n' => {
                self.end_token()?;
                self.end_line()
            }
            b'"' => {
                self.has_quotes = true;
                self.mode = Mode::Quoted;
                Ok(())
            }
            b'\\' => {
                self.mode = Mode::Backslash;
                Ok(())
            }
            _ => self.spell(byte),
        }
    }

    fn in_quotes(&mut self, byte: u8) -> Result<(), NoMemory>
        ensures { OnOk result (self.new ≡ steps.in_quotes self.old byte) }
    {
        if byte == b'"' {
            self.mode = Mode::Word;
            return Ok(());
        }
        self.spelled.spell(byte)
    }

    fn after_backslash(&mut self, byte: u8) -> Result<(), NoMemory>
        ensures { OnOk result (self.new ≡ steps.after_backslash self.old byte) }
    {
        match byte {
            b'\n' => {
                self.mode = Mode::Folded;
                Ok(())
            }
            b'\r' => {
                self.mode = Mode::BackslashReturn;
                Ok(())
            }
            _ => self.spell(escaped(byte)),
        }
    }

    fn after_return(&mut self, byte: u8) -> Result<(), NoMemory>
        ensures { OnOk result (self.new ≡ steps.after_return self.old byte) }
    {
        if byte == b'\n' {
            self.mode = Mode::Folded;
            return Ok(());
        }
        self.spell(b'\r')?;
        self.in_word(byte)
    }

    fn in_fold(&mut self, byte: u8) -> Result<(), NoMemory>
        ensures { OnOk result (self.new ≡ steps.in_fold self.old byte) }
    {
        if is_space(byte) {
            return Ok(());
        }
        self.mode = Mode::Word;
        self.in_word(byte)
    }

    fn begin_token(&mut self)
        ensures { self.new ≡ steps.begun_token self.old }
    {
        if self.spelled.is_line_empty() {
            self.first = self.number;
        }
        self.has_quotes = false;
        self.mode = Mode::Word;
    }

    /// Adds a byte to the present token.
    fn spell(&mut self, byte: u8) -> Result<(), NoMemory>
        ensures { OnOk result (self.new ≡ steps.with_byte self.old byte) }
    {
        self.mode = Mode::Word;
        self.spelled.spell(byte)
    }

    /// A token that spells nothing is one only if it has a quoted run.
    fn end_token(&mut self) -> Result<(), NoMemory>
        ensures { OnOk result (self.new ≡ steps.ended_token self.old) }
    {
        self.mode = Mode::Between;
        if self.has_quotes || !self.spelled.is_token_empty() {
            self.spelled.end_word()?;
        }
        Ok(())
    }

    fn end_line(&mut self) -> Result<(), NoMemory>
        ensures { OnOk result (self.new ≡ steps.ended_line self.old) }
    {
        self.mode = Mode::Between;
        if !self.spelled.is_line_empty() {
            self.spelled.end_line(self.first)?;
        }
        Ok(())
    }

    /// What was read, at the end of the file.
    pub fn finish(mut self) -> Result<SpanTokens, NoMemory>
        ensures { IfOk result (λ tokens. tokens ≡ steps.finished self) }
    {
        let dropped = self.dropped();
        self.close()?;
        self.spelled.into_tokens(dropped)
    }

    /// The number of the present line, if it is left out.
    fn dropped(&self) -> Option<u32>
        ensures { result ≡ steps.dropped_number self.now.mode self.now.first }
    {
        match self.mode {
            Mode::Quoted | Mode::Backslash => Some(self.first),
            _ => None,
        }
    }

    fn close(&mut self) -> Result<(), NoMemory>
        ensures { OnOk result (self.new ≡ steps.closed self.old.mode self.old) }
    {
        match self.mode {
            Mode::Quoted | Mode::Backslash => Ok(()),
            Mode::Between | Mode::Comment => self.end_line(),
            Mode::Word | Mode::Folded => self.end_last_token(),
            Mode::BackslashReturn => {
                self.spell(b'\r')?;
                self.end_last_token()
            }
        }
    }

    fn end_last_token(&mut self) -> Result<(), NoMemory>
        ensures { OnOk result (self.new ≡ steps.ended_line (steps.ended_token self.old)) }
    {
        self.end_token()?;
        self.end_line()
    }
}

/// The number of the physical line of what follows the byte.
fn number_after(number: u32, byte: u8) -> u32
    requires { number < 2 ^ 32 - 1 }
    ensures { result ≡ steps.number_after number byte }
{
    if byte == b'\n' { number + 1 } else { number }
}

/// The byte that a backslash and this byte give.
fn escaped(byte: u8) -> u8
    ensures { result ≡ spec.escaped byte }
{
    match byte {
        b'n' => b'\n',
        b'r' => b'\r',
        b't' => b'\t',
        _ => byte,
    }
}
