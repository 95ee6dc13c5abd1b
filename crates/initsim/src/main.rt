//! `initsim`: Android's first process over a modelled kernel. It checks a tree of rc files, runs, races or dispatches a script over it,
//! answers the messages of a client, audits traces, and tells how much made-up services give to do.
//!
//! `init_forms` has the call that does all that the program does, with its promise. `main` makes the real files, script, trace,
//! store and output, makes that call, and says on standard error how it ended.
#![tactic(auto)]

mod arguments;
mod help;
mod noting;
mod standard;
mod telling;

use arguments::words_of;
use explanations::{Named, cause_line, image_line, message_line};
use help::{is_help, tell_help};
use init_base::{Fault, Keeper, List, NoMemory, Source, StdFiles, StdSink, StdSource, Text};
use init_forms::{OpenGate, Status, initsim};
use noting::{Noting, NotingSource};
use standard::hold_closed;
use std::fs;
use std::process::ExitCode;
use std::sync::Wait;
use std::thread::Threads;
use telling::{tell, tell_misuse};
use tree_store::{TreeStore, last_fault, store_below};

/// The objects of the machine that the words name.
#[derive(Drop)]
struct Outside<'a> {
    files: StdFiles<'a, HostRuntime>,
    script: NotingSource<StdSource<'a, HostRuntime>>,
    trace: StdSource<'a, HostRuntime>,
    keeper: TreeStore<'a, HostRuntime>,
}

/// Makes the objects. They are taken out of their answers together, so that only one end lets some of them go.
fn outside_of<'a>(rt: &'a HostRuntime, words: &List<Text>) -> Result<Outside<'a>, NoMemory> {
    let files = files_at(rt, words);
    let script = source_at(rt, words, 2);
    let trace = source_at(rt, words, 3);
    let keeper = store_at(rt, words);
    match (files, script, trace, keeper) {
        (Ok(files), Ok(script), Ok(trace), Ok(keeper)) => Ok(Outside {
            files,
            script: NotingSource::new(rt.alloc(), script),
            trace,
            keeper,
        }),
        _ => Err(NoMemory),
    }
}

/// A word by its place. The empty text where there is none.
fn word_at(words: &List<Text>, at: usize) -> Result<Text, NoMemory> {
    match words.at(at) {
        Some(word) => word.share(),
        None => Ok(Text::empty()),
    }
}

fn files_at<'a>(
    rt: &'a HostRuntime,
    words: &List<Text>,
) -> Result<StdFiles<'a, HostRuntime>, NoMemory> {
    let root = word_at(words, 1)?;
    StdFiles::at(rt, rt.alloc(), &root)
}

fn source_at<'a>(
    rt: &'a HostRuntime,
    words: &List<Text>,
    at: usize,
) -> Result<StdSource<'a, HostRuntime>, NoMemory> {
    let path = word_at(words, at)?;
    StdSource::at(rt, rt.alloc(), &path)
}

fn store_at<'a>(
    rt: &'a HostRuntime,
    words: &List<Text>,
) -> Result<TreeStore<'a, HostRuntime>, NoMemory> {
    let root = word_at(words, 1)?;
    store_below(rt, &root)
}

/// Makes the real objects, and the call. `threads` is the runtime once more: `main` alone may start threads by it.
fn run<R: Threads + Wait + Sync>(rt: &HostRuntime, threads: &R) -> Result<Status, NoMemory> {
    let words = words_of(rt, rt.alloc())?;
    let mut outside = outside_of(rt, &words)?;
    Ok(run_over(rt, threads, &words, &mut outside))
}

/// Makes the call over the real objects, and tells how it ended.
fn run_over<R: Threads + Wait + Sync>(
    rt: &HostRuntime,
    threads: &R,
    words: &List<Text>,
    outside: &mut Outside<'_>,
) -> Status {
    let alloc = rt.alloc();
    let mut out = Noting::new(alloc, StdSink::stdout(rt));
    let (status, _) = initsim(
        threads,
        alloc,
        words,
        &mut outside.files,
        &mut outside.script,
        &mut outside.trace,
        &mut outside.keeper,
        &mut out,
        &OpenGate,
    );
    tell_end(rt, status, words, outside, &out);
    status
}

/// Prints the line of the status, and what is known beside it.
fn tell_end(
    rt: &HostRuntime,
    status: Status,
    words: &List<Text>,
    outside: &Outside<'_>,
    out: &Noting<StdSink<'_, HostRuntime>>,
) {
    let fault = fault_behind(status, outside, &out.sink);
    let _ = tell(rt, status, fault);
    let is_image_bad = fault.is_none() && outside.keeper.faults() > 0;
    if is_image_bad || has_cause(status, out.first()) {
        tell_cause(rt, status, words, out.first(), is_image_bad);
    }
    if let Status::BadWire { at } = status {
        tell_line(rt, bad_message(rt, words, outside, at));
    }
    if status == Status::Usage {
        let _ = tell_usage(rt, words);
    }
}

/// Whether there may be more to say: after a refusal of what was read, and after a verdict that isn't yes.
fn has_cause(status: Status, wrote: &[u8]) -> bool {
    match status {
        Status::Done => wrote.starts_with(b"no "),
        Status::Usage
        | Status::ReadFault
        | Status::WriteFault
        | Status::NoMemory
        | Status::NoInit
        | Status::BadWire { .. } => false,
        _ => true,
    }
}

/// Prints what is wrong in what the words name. It is read once more.
fn tell_cause(
    rt: &HostRuntime,
    status: Status,
    words: &List<Text>,
    wrote: &[u8],
    is_image_bad: bool,
) {
    let Ok(
        Outside {
            files,
            script,
            trace,
            keeper,
        },
    ) = outside_of(rt, words)
    else {
        return;
    };
    let mut named = Named {
        words,
        files,
        script: only_if(is_plain_file(rt, words, 2), script),
        trace: only_if(is_plain_file(rt, words, 3), trace),
        store: keeper,
    };
    if is_image_bad {
        tell_line(rt, image_line(rt.alloc(), &mut named));
    }
    tell_line(rt, cause_line(rt.alloc(), &mut named, status, wrote));
}

/// What is wrong with the message at a place, by the bytes that were read from there on: they may have come from a pipe.
fn bad_message(
    rt: &HostRuntime,
    words: &List<Text>,
    outside: &Outside<'_>,
    at: u64,
) -> Option<String> {
    message_line(rt.alloc(), words.at(2)?, outside.script.bytes_from(at)?)
}

/// Whether a word is the path of a plain file.
fn is_plain_file(rt: &HostRuntime, words: &List<Text>, at: usize) -> bool {
    let Some(word) = words.at(at) else {
        return false;
    };
    let Ok(path) = std::str::from_utf8(word.bytes()) else {
        return false;
    };
    match fs::metadata(rt, path) {
        Ok(found) => found.is_file(),
        Err(_) => false,
    }
}

/// A value, where it is wanted. Else it ends here.
fn only_if<T: Drop>(is_wanted: bool, value: T) -> Option<T> {
    if is_wanted { Some(value) } else { None }
}

/// Prints a second line, where there is one.
fn tell_line(rt: &HostRuntime, line: Option<String>) {
    if let Some(line) = line {
        let _ = eprintln!(rt; "initsim: {line}");
    }
}

/// Prints what is wrong with the words, or help where they ask for it.
fn tell_usage(rt: &HostRuntime, words: &List<Text>) -> std::io::Result<()> {
    match words.at(0) {
        Some(word) if is_help(word) => tell_help(rt),
        Some(_) => tell_misuse(rt, words),
        None => {
            tell_misuse(rt, words)?;
            tell_help(rt)
        }
    }
}

/// What the system said where the status comes of it.
fn fault_behind<'a>(
    status: Status,
    outside: &'a Outside<'_>,
    out: &'a StdSink<'_, HostRuntime>,
) -> Option<&'a Fault> {
    let has_script_failed = outside.script.faults() > 0;
    let has_trace_failed = outside.trace.faults() > 0;
    let has_keeper_failed = outside.keeper.faults() > 0;
    match status {
        Status::ReadFault if has_script_failed => outside.script.source.last_fault(),
        Status::ReadFault if has_trace_failed => outside.trace.last_fault(),
        Status::ReadFault if has_keeper_failed => last_fault(&outside.keeper),
        Status::ReadFault | Status::NoInit => outside.files.last_fault(),
        Status::WriteFault => out.last_fault(),
        _ => None,
    }
}

fn main(rt: HostRuntime) -> ExitCode {
    let _held = hold_closed(&rt);
    let status = match run(&rt, &rt) {
        Ok(status) => status,
        Err(NoMemory) => {
            let _ = tell(&rt, Status::NoMemory, None);
            Status::NoMemory
        }
    };
    ExitCode::from(status.code())
}
