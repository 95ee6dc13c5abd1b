//! What the causes of scripts print.

use super::count::Count;
use super::quoted::Quoted;
use crate::script::cause::ScriptCause;
use init_base::Text;
use std::fmt;

impl fmt::Display for ScriptCause {
    fn fmt<W: fmt::Write>(&self, f: &mut fmt::Formatter<W>) -> fmt::Result {
        match self {
            ScriptCause::BadByte { byte } => write!(
                f,
                "the byte {byte:02X} may not stand in a script"
            ),
            ScriptCause::UnknownWord { word } => say_word(f, word),
            ScriptCause::WrongCount {
                word,
                wanted,
                given,
            } => say_count(f, word, *wanted, *given),
            ScriptCause::BadNumber { given, least, most } => say_number(f, given, *least, *most),
            ScriptCause::NotQForm { given } => say(
                f,
                "a text in q form is expected, not ",
                given,
                "",
            ),
            ScriptCause::IllegalName { name } => say(f, "", name, " is no legal property name"),
            ScriptCause::NoRequest => f.write_str(
                "set, read, sync or catch is expected behind the client",
            ),
            ScriptCause::UnknownRequest { word } => say(
                f,
                "set, read, sync or catch is expected, not ",
                word,
                "",
            ),
            ScriptCause::Late { act } => write!(
                f,
                "declarations stand before all acts, and line {act} has an act"
            ),
            ScriptCause::Twice { word, name, first } => say_twice(f, word, name, *first),
            ScriptCause::TooManyClients => f.write_str("at most 64 clients may be declared"),
            ScriptCause::UnknownClient { name } => say(f, "client ", name, " is declared nowhere"),
        }
    }
}

/// Prints a word between two texts.
fn say<W: fmt::Write>(
    f: &mut fmt::Formatter<W>,
    front: &str,
    word: &Text,
    behind: &str,
) -> fmt::Result {
    write!(f, "{front}{}{behind}", Quoted(word.bytes()))
}

fn say_word<W: fmt::Write>(f: &mut fmt::Formatter<W>, word: &Text) -> fmt::Result {
    say(
        f,
        "a line begins with area, plan, client, step, tick, exit, file or @, not ",
        word,
        "",
    )
}

fn say_count<W: fmt::Write>(
    f: &mut fmt::Formatter<W>,
    word: &Text,
    wanted: usize,
    given: usize,
) -> fmt::Result {
    let count = Count { wanted, given };
    write!(f, "{} takes {count}", Quoted(word.bytes()))
}

fn say_number<W: fmt::Write>(
    f: &mut fmt::Formatter<W>,
    given: &Text,
    least: u64,
    most: u64,
) -> fmt::Result {
    write!(
        f,
        "a number from {least} to {most} without leading zeros is expected, not {}",
        Quoted(given.bytes())
    )
}

fn say_twice<W: fmt::Write>(
    f: &mut fmt::Formatter<W>,
    word: &Text,
    name: &Text,
    first: usize,
) -> fmt::Result {
    if word.is(b"area") {
        return write!(f, "the area is declared in line {first} too");
    }
    if word.is(b"plan") {
        f.write_str("the plan of ")?;
    } else {
        f.write_str("client ")?;
    }
    write!(
        f,
        "{} is declared in line {first} too",
        Quoted(name.bytes())
    )
}
