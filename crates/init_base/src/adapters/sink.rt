//! A sink over standard output.

ghost use Rattle.std.specs.Prelude.{◌≡◌, None, ℕ, List};
ghost use Rattle.init_base.specs.Outside.{TakesSome};

use super::count::{count, has_write_failed};
use super::fault::{Fault, fault_at};
use super::machine::print_some;
use crate::outside::refusal::IoRefusal;
use crate::outside::sink::Sink;
use crate::text::Text;
use std::alloc::Global;
use std::io::{Error, ErrorKind, Print};
use std::marker::Model;

/// Standard output of the program.
#[derive(Drop)]
pub struct StdSink<'a, R: Print> {
    rt: &'a R,
    faults: u64,
    last_fault: Option<Fault>,
}

impl<'a, R: Print> Model for StdSink<'a, R> {
    ghost use Rattle.std.specs.Prelude.{ℕ};

    ghost Value = { ℕ };

    ghost view = { λ s. s.faults };
}

impl<'a, R: Print> StdSink<'a, R> {
    /// Standard output.
    pub fn stdout(rt: &'a R) -> StdSink<'a, R>
        ensures { result ≡ 0 }
    {
        StdSink {
            rt,
            faults: 0,
            last_fault: None,
        }
    }

    /// What the system said at the last write that failed.
    pub fn last_fault(&self) -> Option<&Fault> {
        self.last_fault.as_ref()
    }

    /// Writes without counting a fault.
    fn try_write(&mut self, alloc: Global, piece: &[u8]) -> Result<usize, IoRefusal>
        ensures bound { TakesSome result piece.now }
        ensures count { self.new ≡ self.old }
    {
        match write_some(self.rt, piece) {
            Ok(count) => Ok(count),
            Err(error) => {
                self.last_fault = fault_at(Text::of(alloc, b"standard output"), error);
                Err(IoRefusal::Failed)
            }
        }
    }
}

/// Writes some bytes. Taking nothing of a piece that isn't empty is an error.
fn write_some<R: Print>(rt: &R, piece: &[u8]) -> Result<usize, Error>
    ensures { TakesSome result piece.now }
{
    match print_some(rt, piece) {
        Ok(0) if !piece.is_empty() => Err(Error::from(ErrorKind::WriteZero)),
        outcome => outcome,
    }
}

impl<R: Print> Sink for StdSink<'_, R> {
    ghost taken = { λ _. None };

    ghost fault_count = { λ s. s };

    fn faults(&self) -> u64 {
        self.faults
    }

    fn write(&mut self, alloc: Global, piece: &[u8]) -> Result<usize, IoRefusal> {
        let outcome = self.try_write(alloc, piece);
        self.faults = count(self.faults, has_write_failed(&outcome));
        outcome
    }
}
