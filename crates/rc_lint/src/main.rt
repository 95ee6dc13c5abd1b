//! `rc-lint`: a checker of the rc files and build files of a device's tree, for builds and editors.
//!
//! `top` has the call that does all that the program does for a request, with its promise. `main` reads the words of the
//! command line, makes the real files and output, and makes that call.
#![tactic(auto)]

mod command_line;
mod judge;
mod request;
mod status;
mod telling;
mod top;

use command_line::{Asked, WordsRefusal, asked_by, words_of};
use init_base::{Fault, NoMemory, StdFiles, StdKeeper, StdSink, StdSource, Text};
use lint_findings::{Baseline, BaselineRefusal, load};
use lint_sources::Watched;
use rc_import::LoadRefusal;
use request::Request;
use status::Status;
use std::fs;
use std::process::ExitCode;
use telling::{
    print_told, tell, tell_baseline, tell_no_file, tell_unknown_format, tell_unknown_kind,
};
use top::{keep_known, lint};

/// The exit status where the words are wrong, or there is no report.
const REFUSED: u8 = 2;

/// What the system said where the status comes of it, by what it said last of the output and of the files.
fn fault_behind<'a>(
    status: &Status,
    files: &'a StdFiles<'_, HostRuntime>,
    out: Option<&'a Fault>,
) -> Option<&'a Fault> {
    match status {
        Status::WriteFault => out,
        Status::Refused(LoadRefusal::NoInit | LoadRefusal::ReadFault) => files.last_fault(),
        Status::Clean | Status::Faulty | Status::Refused(_) => None,
    }
}

/// Writes the report that is asked for.
fn report(rt: &HostRuntime, request: &Request, root: &Text) -> Result<u8, NoMemory> {
    let alloc = rt.alloc();
    let mut files = Watched::new(alloc, StdFiles::at(rt, alloc, root)?, request.warns);
    let mut out = StdSink::stdout(rt);
    let status = lint(alloc, request, &mut files, &mut out);
    let fault = fault_behind(&status, &files.files, out.last_fault());
    let _ = tell(rt, &status, fault);
    Ok(status.code())
}

/// Whether something stands at a path that isn't a plain file, as a folder or a device. A new file mustn't take its place.
fn is_no_file(rt: &HostRuntime, path: &Text) -> bool {
    let Ok(name) = std::str::from_utf8(path.bytes()) else {
        return false;
    };
    match fs::metadata(rt, name) {
        Ok(found) => !found.is_file(),
        Err(_) => false,
    }
}

/// Writes the findings to a file that knows them.
fn write_known(
    rt: &HostRuntime,
    request: &Request,
    root: &Text,
    path: &Text,
) -> Result<u8, NoMemory> {
    if is_no_file(rt, path) {
        let _ = tell_no_file(rt, path);
        return Ok(REFUSED);
    }
    let alloc = rt.alloc();
    match (
        StdFiles::at(rt, alloc, root),
        StdKeeper::at(rt, alloc, path),
    ) {
        (Ok(files), Ok(mut keeper)) => {
            let mut files = Watched::new(alloc, files, request.warns);
            Ok(put_known(rt, request, &mut files, &mut keeper))
        }
        _ => Err(NoMemory),
    }
}

fn put_known(
    rt: &HostRuntime,
    request: &Request,
    files: &mut Watched<StdFiles<'_, HostRuntime>>,
    keeper: &mut StdKeeper<'_, HostRuntime>,
) -> u8 {
    let status = keep_known(rt.alloc(), request, files, keeper);
    let fault = fault_behind(&status, &files.files, keeper.last_fault());
    let _ = tell(rt, &status, fault);
    status.code()
}

/// The findings that a file knows, where it is one. Else it is said why not.
fn known_by(rt: &HostRuntime, path: &Text) -> Result<Option<Baseline>, NoMemory> {
    let alloc = rt.alloc();
    let mut source = StdSource::at(rt, alloc, path)?;
    match load(alloc, &mut source) {
        Ok(baseline) => Ok(Some(baseline)),
        Err(BaselineRefusal::NoMemory) => Err(NoMemory),
        Err(refusal) => {
            let _ = tell_baseline(rt, path, refusal, source.last_fault());
            Ok(None)
        }
    }
}

/// Does what is asked for.
fn answer_asked(rt: &HostRuntime, asked: &mut Asked) -> Result<u8, NoMemory> {
    if let Some(path) = &asked.known {
        match known_by(rt, path)? {
            Some(baseline) => asked.request.baseline = baseline,
            None => return Ok(REFUSED),
        }
    }
    match &asked.kept {
        Some(path) => write_known(rt, &asked.request, &asked.root, path),
        None => report(rt, &asked.request, &asked.root),
    }
}

/// Says why there is no request, or writes help or the version.
fn answer(rt: &HostRuntime, refusal: WordsRefusal) -> Result<u8, NoMemory> {
    match refusal {
        WordsRefusal::Told(error) => {
            let is_told = print_told(rt, &error);
            Ok(if is_told && !error.use_stderr() {
                0
            } else {
                REFUSED
            })
        }
        WordsRefusal::EmptyRoot => {
            let _ = eprintln!(rt; "rc-lint: ROOT is empty");
            Ok(REFUSED)
        }
        WordsRefusal::EmptyFile => {
            let _ = eprintln!(rt; "rc-lint: FILE is empty");
            Ok(REFUSED)
        }
        WordsRefusal::UnknownKind(name) => {
            let _ = tell_unknown_kind(rt, &name);
            Ok(REFUSED)
        }
        WordsRefusal::UnknownFormat(name) => {
            let _ = tell_unknown_format(rt, &name);
            Ok(REFUSED)
        }
        WordsRefusal::NoMemory => Err(NoMemory),
    }
}

fn run(rt: &HostRuntime) -> Result<u8, NoMemory> {
    let alloc = rt.alloc();
    let Some(words) = words_of(rt, alloc)? else {
        let _ = eprintln!(rt; "rc-lint: a word isn't UTF-8");
        return Ok(REFUSED);
    };
    match asked_by(alloc, words.as_slice()) {
        Ok(mut asked) => answer_asked(rt, &mut asked),
        Err(refusal) => answer(rt, refusal),
    }
}

fn main(rt: HostRuntime) -> ExitCode {
    let code = match run(&rt) {
        Ok(code) => code,
        Err(NoMemory) => {
            let _ = eprintln!(rt; "rc-lint: no memory");
            REFUSED
        }
    };
    ExitCode::from(code)
}
