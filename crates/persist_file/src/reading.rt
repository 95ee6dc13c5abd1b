//! Reading a store's text.

ghost use Rattle.std.specs.Prelude.{◌≡◌, ◌≢◌, ◌+◌, ◌<◌, ◌≤◌, ◌&&◌, [], IfOk, IfErr, MatchResult, OnOk, length};
ghost use Rattle.init_base.specs.Name.{is_legal_name};
ghost use Rattle.init_base.specs.Value.{is_short_value};
ghost use Rattle.init_machine.specs.Pairs as pairs_spec;
ghost use Rattle.persist_file.specs.Causes.{last_name, line_reading, parts_at, with_value, IsRefused};
ghost use Rattle.persist_file.specs.Causes as causes_spec;
ghost use Rattle.persist_file.specs.internal.Readings.{reading, rest_reading, text_reading, Answers};
ghost use Rattle.persist_file.specs.Store.{IsStore};
ghost use Rattle.persist_file.specs.Store as store_spec;

use crate::kind::{SavedKind, kind_named, passes};
use crate::refusal::{StoreCause, StoreRefusal};
use crate::value::value_in;
use crate::version::{Version, version_of};
use crate::words::{Words, cut, words_in};
use init_base::{List, NoMemory, PropName, PropValue, Text};
use init_machine::Pair;
use std::alloc::Global;

/// How the names of properties begin that are saved.
const PERSISTENT: &[u8] = b"persist.";

/// The pairs of a store's text of either version, in ascending order of names.
#[tactic(auto, using(crate::proofs::Determined::store_of, crate::proofs::Determined::refusal_of))]
pub fn read(alloc: Global, bytes: &[u8]) -> Result<List<Pair>, StoreRefusal>
    requires { length bytes.now ≤ 33554432 }
    ensures store { IfOk result (IsStore bytes.now) }
    ensures refused { IfErr result (IsRefused bytes.now) }
{
    read_lines(alloc, bytes)
}

fn read_lines(alloc: Global, bytes: &[u8]) -> Result<List<Pair>, StoreRefusal>
    requires { length bytes.now ≤ 33554432 }
    ensures { Answers result (reading bytes.now) }
{
    let mut pairs = List::new(alloc);
    if bytes.is_empty() {
        return Ok(pairs);
    }
    let (version, mut rest) = read_head(bytes)?;
    while !rest.is_empty() {
        rest = take_line(alloc, version, &mut pairs, rest)?;
    }
    Ok(pairs)
}

/// The version of a text, and what stands behind its first line.
#[tactic(auto, using(crate::proofs::Determined::head_read))]
fn read_head(bytes: &[u8]) -> Result<(Version, &[u8]), StoreRefusal>
    ensures version { MatchResult result
        (λ read. text_reading bytes.entry.now ≡ rest_reading read.0 [] (parts_at 10 read.1.now))
        (λ refusal. Answers (Err refusal) (text_reading bytes.entry.now)) }
    ensures shorter { IfOk result (λ read. length read.1.now < length bytes.entry.now) }
{
    match cut(bytes, b'\n') {
        Some((line, rest)) => match version_of(line) {
            Some(version) => Ok((version, rest)),
            None => Err(unfit(1, StoreCause::Head)),
        },
        None if version_of(bytes).is_some() => Err(unfit(1, StoreCause::Shape)),
        None => Err(unfit(1, StoreCause::Head)),
    }
}

fn unfit(line: u32, cause: StoreCause) -> StoreRefusal
    ensures { result ≡ StoreRefusal.BadLine line cause }
{
    StoreRefusal::BadLine { line, cause }
}

/// Takes the pair of the first line, and answers what stands behind the line.
#[tactic(auto, using(crate::proofs::Whole::line_taken, crate::proofs::Whole::line_refused))]
fn take_line<'a>(
    alloc: Global,
    version: Version,
    pairs: &mut List<Pair>,
    bytes: &'a [u8],
) -> Result<&'a [u8], StoreRefusal>
    requires some { bytes.now ≢ [] }
    requires few { length pairs.old ≤ 33554432 }
    ensures taken { MatchResult result
        (λ behind. rest_reading version pairs.old (parts_at 10 bytes.entry.now)
        ≡ rest_reading version pairs.new (parts_at 10 behind.now))
        (λ refusal. Answers (Err refusal) (rest_reading version pairs.old (parts_at 10 bytes.entry.now))) }
    ensures shorter { IfOk result (λ behind. length behind.now < length bytes.entry.now) }
    ensures more { OnOk result (length pairs.new ≡ length pairs.old + 1) }
{
    let number = pairs.len() as u32 + 2;
    let Some((line, behind)) = cut(bytes, b'\n') else {
        return Err(unfit(number, StoreCause::Shape));
    };
    match read_line(alloc, version, pairs, line)? {
        Ok(pair) => {
            pairs.push(pair)?;
            Ok(behind)
        }
        Err(cause) => Err(unfit(number, cause)),
    }
}

/// The pair of a line behind those of these pairs, or why it has none.
fn read_line(
    alloc: Global,
    version: Version,
    pairs: &List<Pair>,
    line: &[u8],
) -> Result<Result<Pair, StoreCause>, NoMemory>
    ensures { IfOk result (λ read. read ≡ line_reading version (last_name pairs.now) line.now) }
{
    let Some(words) = words_in(version, line) else {
        return Ok(Err(StoreCause::Shape));
    };
    if !is_saved_name(words.name) {
        return Ok(Err(StoreCause::Name));
    }
    if !is_above(pairs, words.name) {
        return Ok(Err(StoreCause::Order));
    }
    match kind_named(words.kind) {
        Some(kind) => read_value(alloc, version, words, kind),
        None => Ok(Err(StoreCause::Kind)),
    }
}

/// The pair of the words of a line, whose name and type fit.
fn read_value(
    alloc: Global,
    version: Version,
    words: Words<'_>,
    kind: SavedKind,
) -> Result<Result<Pair, StoreCause>, NoMemory>
    ensures { IfOk result (λ read. read ≡ with_value words.entry.name.now kind (causes_spec.value_in version words.entry.value.now)) }
{
    let Some(value) = value_in(alloc, version, words.value)? else {
        return Ok(Err(StoreCause::Value));
    };
    if !is_fit(kind, value.bytes()) {
        return Ok(Err(StoreCause::Value));
    }
    Ok(Ok(Pair {
        name: Text::of(alloc, words.name)?,
        value,
    }))
}

fn is_saved_name(name: &[u8]) -> bool
    ensures { result ≡ store_spec.is_saved_name name.now }
{
    is_legal(name) && name.starts_with(PERSISTENT)
}

/// Whether a name is legal.
pub fn is_legal(name: &[u8]) -> bool
    ensures { result ≡ is_legal_name name.now }
{
    PropName::of(name).is_some()
}

/// Whether a value is legal and passes its type.
fn is_fit(kind: SavedKind, value: &[u8]) -> bool
    ensures { result ≡ (is_short_value value.now && store_spec.passes kind value.now) }
{
    PropValue::short(value).is_ok() && passes(kind, value)
}

/// Whether a name is above that of the last pair.
fn is_above(pairs: &List<Pair>, name: &[u8]) -> bool
    ensures { result ≡ causes_spec.is_above (last_name pairs.now) name.now }
{
    match pairs.items().last() {
        Some(last) => is_before(last.name.bytes(), name),
        None => true,
    }
}

/// Whether one text is before another in the order of bytes.
fn is_before(text: &[u8], other: &[u8]) -> bool
    ensures { result ≡ pairs_spec.is_before text.now other.now }
{
    text < other
}
