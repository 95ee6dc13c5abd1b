//! A source over a file of the machine.

ghost use Rattle.std.specs.Prelude.{◌≡◌, None, ℕ, List, IfOk};
ghost use Rattle.std.specs.Io.{ReadsAtMost};

use super::count::{count, has_source_failed};
use super::fault::{Fault, fault_at};
use super::machine::{open, read_some};
use crate::memory::NoMemory;
use crate::outside::refusal::Failed;
use crate::outside::source::Source;
use crate::text::Text;
use std::alloc::Global;
use std::fs;
use std::io::Error;
use std::marker::Model;

/// The bytes of a file of the machine. It is opened at the first read.
#[derive(Drop)]
pub struct StdSource<'a, R: fs::Files> {
    rt: &'a R,
    path: Text,
    file: Option<R::File>,
    faults: u64,
    last_fault: Option<Fault>,
}

impl<'a, R: fs::Files> Model for StdSource<'a, R> {
    ghost use Rattle.std.specs.Prelude.{ℕ};

    ghost Value = { ℕ };

    ghost view = { λ s. s.faults };
}

impl<'a, R: fs::Files> StdSource<'a, R> {
    /// The file with this path of the machine.
    pub fn at(rt: &'a R, _alloc: Global, path: &Text) -> Result<StdSource<'a, R>, NoMemory>
        ensures { IfOk result (λ source. source ≡ 0) }
    {
        Ok(StdSource {
            rt,
            path: path.share()?,
            file: None,
            faults: 0,
            last_fault: None,
        })
    }

    /// What the system said at the last read that failed.
    pub fn last_fault(&self) -> Option<&Fault> {
        self.last_fault.as_ref()
    }

    /// Reads without counting a fault.
    fn try_read(&mut self, buf: &mut [u8]) -> Result<usize, Failed>
        ensures bound { ReadsAtMost result buf.new }
        ensures count { self.new ≡ self.old }
    {
        match self.read_some(buf) {
            Ok(count) => Ok(count),
            Err(error) => {
                self.last_fault = fault_at(self.path.share(), error);
                Err(Failed)
            }
        }
    }

    fn read_some(&mut self, buf: &mut [u8]) -> Result<usize, Error>
        ensures bound { ReadsAtMost result buf.new }
        ensures count { self.new ≡ self.old }
    {
        let mut file = match self.file.take() {
            Some(file) => file,
            None => open(self.rt, &self.path)?,
        };
        let outcome = read_some(&mut file, buf);
        self.file = Some(file);
        outcome
    }
}

impl<R: fs::Files> Source for StdSource<'_, R> {
    ghost left = { λ _. None };

    ghost fault_count = { λ s. s };

    fn faults(&self) -> u64 {
        self.faults
    }

    fn read(&mut self, buf: &mut [u8]) -> Result<usize, Failed> {
        let outcome = self.try_read(buf);
        self.faults = count(self.faults, has_source_failed(&outcome));
        outcome
    }
}
