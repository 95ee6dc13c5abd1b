//! Runs of one writer beside three readers, each on a thread of its own, in which every answer is held against the sets.
//!
//! `races cell N` is one at a value cell, and `races area N` one at an area, with N reads of each reader. `races all`, or no word, is
//! both, one after the other. It prints how many answers were wrong.
#![tactic(auto)]

mod area;
mod cell;
mod letters;

ghost use Rattle.std.specs.Prelude.{◌<◌, ◌^◌, IfSome};

use std::alloc::Global;
use std::process::ExitCode;
use std::thread::Threads;

/// More reads than any run asks for.
const MOST: u64 = 1 << 40;

/// The race at a cell. None where memory is short, or nothing can be printed.
fn tell_cell<R: Threads + Sync + Print>(rt: &R, alloc: Global, count: u64) -> Option<()>
    requires { count < 2 ^ 41 }
{
    let torn = cell::race(rt, alloc, count)?;
    println!(rt; "torn {torn}").ok()
}

/// The race at an area. None where memory is short, or nothing can be printed.
fn tell_area<R: Threads + Sync + Print>(rt: &R, alloc: Global, count: u64) -> Option<()>
    requires { count < 2 ^ 41 }
{
    let wrong = area::race(rt, alloc, count)?;
    println!(rt; "wrong {wrong}").ok()
}

/// Both races, with as many reads as the gate has time for.
fn tell_both<R: Threads + Sync + Print>(rt: &R, alloc: Global) -> Option<()> {
    tell_cell(rt, alloc, 340_000)?;
    tell_area(rt, alloc, 1_000_000)
}

/// None where the word is no count.
fn count_of(word: &str) -> Option<u64>
    ensures { IfSome result (λ count. count < 2 ^ 41) }
{
    let count: u64 = word.parse().ok()?;
    Some(count.min(MOST))
}

/// None where the words are no race, or one of them couldn't be done.
fn run<R: Threads + Sync + Print>(rt: &R, alloc: Global, words: &[String]) -> Option<()> {
    let Some(kind) = words.first() else {
        return tell_both(rt, alloc);
    };
    let count = words.get(1).map_or("", |word| word.as_str());
    match kind.as_str() {
        "all" => tell_both(rt, alloc),
        "cell" => tell_cell(rt, alloc, count_of(count)?),
        "area" => tell_area(rt, alloc, count_of(count)?),
        _ => None,
    }
}

/// The words behind the program's own name. None where memory is short, or one of them is no text.
fn words_of(rt: &HostRuntime) -> Option<Vec<String>> {
    std::env::args(rt).ok()?.skip(1).collect(rt.alloc()).ok()
}

fn main(rt: HostRuntime) -> ExitCode {
    let done = match words_of(&rt) {
        Some(words) => run(&rt, rt.alloc(), &words),
        None => None,
    };
    if done.is_some() {
        return ExitCode::SUCCESS;
    }
    let _ = eprintln!(&rt; "races: usage: cell N, area N, or all");
    ExitCode::from(2)
}
