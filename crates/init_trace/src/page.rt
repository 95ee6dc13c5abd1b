//! A page: lines that wait to be written. It is written when it is full, behind a line or behind an entry that was told line by
//! line, so it holds such an entry whole.

ghost use Rattle.std.specs.Prelude.{◌≡◌, ◌≤◌, [], ◌++◌, OnOk, drop, length, map};
ghost use Rattle.init_base.specs.Faults.{Counted, write_failed};
ghost use Rattle.init_trace.specs.Line.{line_text, lines_text};
ghost use Rattle.init_trace.specs.Written.{Adds, Writes};

use crate::line::Line;
use crate::quote::put;
use init_base::{IoRefusal, NoMemory, Sink};
use std::alloc::Global;

/// A page of so many bytes is written.
const FULL: usize = 65536;

/// Writes all of the bytes.
pub fn send<K: Sink>(alloc: Global, out: &mut K, bytes: &[u8]) -> Result<(), IoRefusal>
    ensures written { Writes (K.taken out.old) (K.taken out.new) result bytes.now }
    ensures cause { Counted (write_failed result) (K.fault_count out.old) (K.fault_count out.new) }
{
    let mut at = 0;
    while at < bytes.len() {
        at += out.write(alloc, &bytes[at..])?;
    }
    Ok(())
}

/// Writes the page if it is full.
pub fn turn<K: Sink>(alloc: Global, out: &mut K, page: &mut Vec<u8>) -> Result<(), IoRefusal>
    ensures added { Adds (K.taken out.old) (K.taken out.new) result page.old.items page.new.items [] }
    ensures cause { Counted (write_failed result) (K.fault_count out.old) (K.fault_count out.new) }
{
    if page.len() < FULL {
        return Ok(());
    }
    send(alloc, out, page.as_slice())?;
    page.clear();
    Ok(())
}

/// Leaves out the bytes before this place.
pub fn cut_front(page: &mut Vec<u8>, at: usize) -> Result<(), NoMemory>
    requires { at ≤ length page.old.items }
    ensures { OnOk result (page.new.items ≡ drop at page.old.items) }
{
    let rest = page.split_off(at)?;
    page.clear();
    put(page, rest.as_slice())
}

/// Adds a line.
pub fn add_line<K: Sink, L: Line>(
    alloc: Global,
    out: &mut K,
    page: &mut Vec<u8>,
    item: &L,
) -> Result<(), IoRefusal>
    ensures added { Adds (K.taken out.old) (K.taken out.new) result page.old.items page.new.items
        (line_text (L.fields item.now)) }
    ensures cause { Counted (write_failed result) (K.fault_count out.old) (K.fault_count out.new) }
{
    item.add(page)?;
    turn(alloc, out, page)
}

/// Adds a line for each item.
pub fn add_lines<K: Sink, L: Line>(
    alloc: Global,
    out: &mut K,
    page: &mut Vec<u8>,
    items: &[L],
) -> Result<(), IoRefusal>
    ensures added { Adds (K.taken out.old) (K.taken out.new) result page.old.items page.new.items
        (lines_text (map L.fields items.now)) }
    ensures cause { Counted (write_failed result) (K.fault_count out.old) (K.fault_count out.new) }
{
    for item in items {
        add_line(alloc, out, page, item)?;
    }
    Ok(())
}
