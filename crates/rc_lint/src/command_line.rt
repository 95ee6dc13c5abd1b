//! The words of the command line.

use crate::request::Request;
use clap::{Arg, ArgAction, ArgMatches, Command, Error, value_parser};
use init_base::{List, NoMemory, Text, both};
use lint_findings::{About, Baseline, Format, Promoted, Style, about_of};
use std::alloc::Global;
use std::env::{Env, FillError};

/// The bytes of the first buffer that is tried for a word.
const FIRST_BUFFER: usize = 256;

/// What stands for each kind of a warning or a hint.
const EVERY_KIND: &str = "all";

/// The words of the command line, or none where one of them is no text. The program's own name isn't read.
pub fn words_of<R: Env>(env: &R, alloc: Global) -> Result<Option<Vec<String>>, NoMemory> {
    let mut words = vec![in alloc; String::from_str(alloc, "rc-lint")?]?;
    for place in 1..usize::MAX {
        let Some(word) = word_at(env, alloc, place)? else {
            break;
        };
        match String::from_utf8(word) {
            Ok(word) => words.push(word)?,
            Err(_) => return Ok(None),
        }
    }
    Ok(Some(words))
}

/// The word at this place, if there is one. The buffer is doubled until it fits.
fn word_at<R: Env>(env: &R, alloc: Global, place: usize) -> Result<Option<Vec<u8>>, NoMemory> {
    let mut capacity = FIRST_BUFFER;
    for _ in 0..usize::BITS {
        let mut buffer = vec![in alloc; 0u8; capacity]?;
        match env.arg(place, buffer.as_mut_slice()) {
            Ok(count) => return Ok(Some(Vec::from_slice(alloc, &buffer[..count])?)),
            Err(FillError::NotPresent) => return Ok(None),
            Err(FillError::TooLong) => capacity = capacity.saturating_mul(2),
        }
    }
    Err(NoMemory)
}

/// The words that the program takes. Each is made where it is added: nothing but the command is kept over an early end.
fn command<'a>(alloc: Global) -> Result<Command<'a>, Error> {
    let most = Command::new(alloc, "rc-lint")
        .version("0.1.0")
        .about("Checks the rc files and build files of a device's tree")
        .after_help(
            "The status is 0 without errors, 1 with errors, and 2 where the words are wrong or a file can't be read or written.",
        )
        .arg(allow(alloc))?
        .arg(no_warn(alloc))?
        .arg(werror(alloc))?
        .arg(absolute(alloc))?
        .arg(format(alloc))?
        .arg(baseline(alloc))?;
    Ok(with_arg(most, write_baseline(alloc))?.arg(root(alloc))?)
}

/// Adds an argument, where there was memory for it.
fn with_arg<'a>(command: Command<'a>, arg: Result<Arg<'a>, Error>) -> Result<Command<'a>, Error> {
    Ok(command.arg(arg?)?)
}

fn allow<'a>(alloc: Global) -> Arg<'a> {
    Arg::new(alloc, "allow")
        .long("allow")
        .value_name("WORD")
        .action(ArgAction::Append)
        .value_parser(value_parser!(String))
        .help("Take a vendor's command or option as one that isn't modelled")
}

fn no_warn<'a>(alloc: Global) -> Arg<'a> {
    Arg::new(alloc, "no-warn")
        .long("no-warn")
        .action(ArgAction::SetTrue)
        .help("Write errors alone")
}

fn root<'a>(alloc: Global) -> Arg<'a> {
    Arg::new(alloc, "root")
        .value_name("ROOT")
        .required(true)
        .action(ArgAction::Set)
        .help("The folder in which the device's tree lies")
}

fn werror<'a>(alloc: Global) -> Arg<'a> {
    Arg::new(alloc, "werror")
        .long("werror")
        .value_name("KIND,..")
        .num_args(0..=1)
        .require_equals(true)
        .default_missing_value(EVERY_KIND)
        .action(ArgAction::Append)
        .value_parser(value_parser!(String))
        .help("Take warnings and hints as errors: those of these kinds, or all")
}

fn absolute<'a>(alloc: Global) -> Arg<'a> {
    Arg::new(alloc, "absolute")
        .long("absolute")
        .action(ArgAction::SetTrue)
        .help("Write ROOT before the paths of files, for editors")
}

fn format<'a>(alloc: Global) -> Arg<'a> {
    Arg::new(alloc, "format")
        .long("format")
        .value_name("FORMAT")
        .action(ArgAction::Set)
        .value_parser(value_parser!(String))
        .help("Write gcc (a line for each finding), json or sarif (2.1.0)")
}

fn baseline<'a>(alloc: Global) -> Arg<'a> {
    Arg::new(alloc, "baseline")
        .long("baseline")
        .value_name("FILE")
        .action(ArgAction::Set)
        .value_parser(value_parser!(String))
        .help("Tell nothing of the findings that this file knows")
}

fn write_baseline<'a>(alloc: Global) -> Result<Arg<'a>, Error> {
    let arg = Arg::new(alloc, "write-baseline")
        .long("write-baseline")
        .value_name("FILE")
        .action(ArgAction::Set)
        .value_parser(value_parser!(String))
        .conflicts_with("baseline")?
        .help("Write the findings to a file that knows them, and no report");
    Ok(arg)
}

/// Why the words ask for no report.
#[derive(Drop)]
pub enum WordsRefusal {
    /// They have no form, or ask for help or the version.
    Told(Error),
    EmptyRoot,
    /// A kind that is no warning's and no hint's.
    UnknownKind(Text),
    UnknownFormat(Text),
    /// An option's file has no name.
    EmptyFile,
    NoMemory,
}

impl From<Error> for WordsRefusal {
    fn from(error: Error) -> Self {
        WordsRefusal::Told(error)
    }
}

impl From<NoMemory> for WordsRefusal {
    fn from(_: NoMemory) -> Self {
        WordsRefusal::NoMemory
    }
}

/// What the words ask for.
#[derive(Drop)]
pub struct Asked {
    pub request: Request,
    /// ROOT as it is written.
    pub root: Text,
    /// The file that knows findings.
    pub known: Option<Text>,
    /// The file into which findings are written, so that it knows them.
    pub kept: Option<Text>,
}

/// What is asked for, by the words of the command line.
pub fn asked_by(alloc: Global, words: &[String]) -> Result<Asked, WordsRefusal> {
    let matches = command(alloc)?.try_get_matches_from(words)?;
    asked_of(alloc, &matches)
}

/// What is asked for, by the words as they were matched.
fn asked_of(alloc: Global, matches: &ArgMatches<'_>) -> Result<Asked, WordsRefusal> {
    let root = matches.get_str("root").unwrap_or("").as_bytes();
    if root.is_empty() {
        return Err(WordsRefusal::EmptyRoot);
    }
    let judged = both(style(alloc, matches, root)?, excuses(alloc, matches))?;
    let ((style, allowed), (root, (known, kept))) = both(judged, paths_of(alloc, matches, root))?;
    let request = Request {
        style,
        allowed,
        warns: !matches.get_flag("no-warn"),
        baseline: Baseline {
            rows: List::new(alloc),
        },
    };
    Ok(Asked {
        request,
        root,
        known,
        kept,
    })
}

/// The excuses, of which memory alone can lack.
fn excuses(alloc: Global, matches: &ArgMatches<'_>) -> Result<List<Text>, WordsRefusal> {
    Ok(allowed(alloc, matches)?)
}

/// The tree's path, and the files of the two options.
fn paths_of(
    alloc: Global,
    matches: &ArgMatches<'_>,
    root: &[u8],
) -> Result<(Text, (Option<Text>, Option<Text>)), WordsRefusal> {
    both(Text::of(alloc, root)?, files_of(alloc, matches))
}

/// The files of the two options.
fn files_of(
    alloc: Global,
    matches: &ArgMatches<'_>,
) -> Result<(Option<Text>, Option<Text>), WordsRefusal> {
    both(
        file_of(alloc, matches.get_str("baseline"))?,
        file_of(alloc, matches.get_str("write-baseline")),
    )
}

/// The file of an option.
fn file_of(alloc: Global, path: Option<&str>) -> Result<Option<Text>, WordsRefusal> {
    match path {
        Some(path) if path.is_empty() => Err(WordsRefusal::EmptyFile),
        Some(path) => Ok(Some(Text::of(alloc, path.as_bytes())?)),
        None => Ok(None),
    }
}

/// The form of the report.
fn format_of(alloc: Global, name: Option<&str>) -> Result<Format, WordsRefusal> {
    let Some(name) = name else {
        return Ok(Format::Gcc);
    };
    match name.as_bytes() {
        b"gcc" => Ok(Format::Gcc),
        b"json" => Ok(Format::Json),
        b"sarif" => Ok(Format::Sarif),
        name => Err(WordsRefusal::UnknownFormat(Text::of(alloc, name)?)),
    }
}

/// In which form findings are told.
fn style(alloc: Global, matches: &ArgMatches<'_>, root: &[u8]) -> Result<Style, WordsRefusal> {
    let before = if matches.get_flag("absolute") {
        without_last_slashes(root)
    } else {
        &[]
    };
    Ok(Style {
        root: Text::of(alloc, before)?,
        promoted: promoted(alloc, matches)?,
        format: format_of(alloc, matches.get_str("format"))?,
    })
}

/// The kinds that are told as errors.
fn promoted(alloc: Global, matches: &ArgMatches<'_>) -> Result<Promoted, WordsRefusal> {
    let lists = matches.get_strs("werror").unwrap_or(&[]);
    if lists.is_empty() {
        return Ok(Promoted::Nothing);
    }
    let mut kinds = List::new(alloc);
    let mut has_all = false;
    for list in lists {
        has_all = add_kinds(alloc, &mut kinds, list.as_bytes())? || has_all;
    }
    Ok(if has_all {
        Promoted::All
    } else {
        Promoted::Kinds(kinds)
    })
}

/// Adds the kinds of a list, whose names are parted by commas. Answers whether the word for all kinds is among them.
fn add_kinds(alloc: Global, kinds: &mut List<About>, list: &[u8]) -> Result<bool, WordsRefusal> {
    let mut has_all = false;
    for name in list.split(|byte| *byte == b',') {
        if name == EVERY_KIND.as_bytes() {
            has_all = true;
        } else {
            kinds.push(kind_of(alloc, name)?)?;
        }
    }
    Ok(has_all)
}

/// A kind that can be told as an error.
fn kind_of(alloc: Global, name: &[u8]) -> Result<About, WordsRefusal> {
    match about_of(name) {
        Some(About::Error(_)) | None => Err(WordsRefusal::UnknownKind(Text::of(alloc, name)?)),
        Some(kind) => Ok(kind),
    }
}

/// The words that are allowed.
fn allowed(alloc: Global, matches: &ArgMatches<'_>) -> Result<List<Text>, NoMemory> {
    let mut allowed = List::new(alloc);
    for word in matches.get_strs("allow").unwrap_or(&[]) {
        allowed.push(Text::of(alloc, word.as_bytes())?)?;
    }
    Ok(allowed)
}

/// The path without the slashes at its end, since the paths of files begin with one.
fn without_last_slashes(path: &[u8]) -> &[u8] {
    let mut rest = path;
    while let [before @ .., b'/'] = rest {
        rest = before;
    }
    rest
}
