//! What one word tells: a text, the kind of a diagnostic, a command, a refusal of the tree.

ghost use Rattle.std.specs.Prelude.{◌≡◌};
ghost use Rattle.init_base.specs.Quoted as spec;
ghost use Rattle.init_machine.specs.Commands.{word_of};
ghost use Rattle.trace_reader.specs.Reading.{IsReading, only, pair_of};
ghost use Rattle.trace_reader.specs.Words.{kind_in, large_in, texts_in, tree_in};

use crate::fields::Fields;
use crate::number::large;
use crate::table::named;
use init_base::{List, Text, unquoted};
use init_machine::{DiagKind, FsRefusal, Word};
use script_lang::Fault;
use std::alloc::Global;

const KINDS: [(&[u8], DiagKind); 16] = [
    (b"Cut", DiagKind::Cut),
    (b"Orphan", DiagKind::Orphan),
    (b"NoTrigger", DiagKind::NoTrigger),
    (b"BadTrigger", DiagKind::BadTrigger),
    (b"TwiceProp", DiagKind::TwiceProp),
    (b"BadWord", DiagKind::BadWord),
    (b"BadArity", DiagKind::BadArity),
    (b"BadOption", DiagKind::BadOption),
    (b"BadService", DiagKind::BadService),
    (b"ServiceAgain", DiagKind::ServiceAgain),
    (b"BadImport", DiagKind::BadImport),
    (b"NoFile", DiagKind::NoFile),
    (b"Loop", DiagKind::Loop),
    (b"TooDeep", DiagKind::TooDeep),
    (b"BadExpand", DiagKind::BadExpand),
    (b"BadProp", DiagKind::BadProp),
];

/// Want of memory is no answer of the tree that a trace has.
const TREE_REFUSALS: [(&[u8], FsRefusal); 7] = [
    (b"BadPath", FsRefusal::BadPath),
    (b"Absent", FsRefusal::Absent),
    (b"IsDir", FsRefusal::IsDir),
    (b"NotDir", FsRefusal::NotDir),
    (b"Exists", FsRefusal::Exists),
    (b"NotEmpty", FsRefusal::NotEmpty),
    (b"Insecure", FsRefusal::Insecure),
];

/// The kind of a diagnostic.
pub fn kind(word: &[u8]) -> Result<DiagKind, Fault>
    ensures { IsReading result (kind_in word.now) }
{
    named(&KINDS, word)
}

/// A refusal of the tree.
pub fn tree_refusal(word: &[u8]) -> Result<FsRefusal, Fault>
    ensures { IsReading result (tree_in word.now) }
{
    named(&TREE_REFUSALS, word)
}

/// The word of a command.
pub fn command_word(word: &[u8]) -> Result<Word, Fault>
    ensures { IsReading result (word_of word.now) }
{
    Word::of(word).ok_or(Fault::Bad)
}

/// The text that a word is in q form.
pub fn text(alloc: Global, word: &[u8]) -> Result<Text, Fault>
    ensures { IsReading result (spec.unquoted word.now) }
{
    unquoted(alloc, word)?.ok_or(Fault::Bad)
}

/// The texts that the fields are that are left.
pub fn texts(alloc: Global, mut fields: Fields<'_>) -> Result<List<Text>, Fault>
    ensures { IsReading result (texts_in fields.entry) }
{
    let mut texts = List::new(alloc);
    while let Some(word) = fields.next() {
        texts.push(text(alloc, word)?)?;
    }
    Ok(texts)
}

/// The text that the one field is that is left.
pub fn only_text(alloc: Global, mut fields: Fields<'_>) -> Result<Text, Fault>
    ensures { IsReading result (only spec.unquoted fields.entry) }
{
    let word = fields.field()?;
    fields.end()?;
    text(alloc, word)
}

/// The two texts that the fields are that are left.
pub fn two_texts(alloc: Global, mut fields: Fields<'_>) -> Result<(Text, Text), Fault>
    ensures { IsReading result (pair_of spec.unquoted spec.unquoted fields.entry) }
{
    let first = fields.field()?;
    let second = fields.field()?;
    fields.end()?;
    Ok((text(alloc, first)?, text(alloc, second)?))
}

/// The number that the one field is that is left.
pub fn only_number(mut fields: Fields<'_>) -> Result<u64, Fault>
    ensures { IsReading result (only large_in fields.entry) }
{
    let word = fields.field()?;
    fields.end()?;
    large(word)
}
