//! Reading a file, whole.

ghost use Rattle.std.specs.Prelude.{◌≡◌, ◌<◌, ◌≤◌, ◌↔◌, ℕ, List as Items, Option, Err, length, IfOk};
ghost use Rattle.rc_tokens.specs.Grammar.{Item, Ending, IsReading};
ghost use Rattle.rc_tokens.specs.Lines.{Line, Ascend, Lines, numbers};
ghost use Rattle.rc_tokens.specs.internal.Steps as steps;

use crate::reader::Reader;
use crate::span::SpanTokens;
use crate::tokens::{TokenRefusal, Tokens};
use init_base::NoMemory;
use std::alloc::Global;

/// The most bytes of a file.
const MOST_BYTES: usize = 1_048_576;

/// The lines that the bytes of a file spell. `TooLarge` comes exactly past 1,048,576 bytes.
pub fn lines(alloc: Global, bytes: &[u8]) -> Result<Tokens, TokenRefusal>
    // What is answered is what the text spells.
    ensures spelled { IfOk result (λ tokens. Lines bytes.now tokens.lines tokens.dropped) }
    // What the text spells is answered, unless memory runs out.
    ensures only { IfOk result (λ tokens. (lines : Items Line) (dropped : Option ℕ) →
        Lines bytes.now lines dropped → (tokens.lines ≡ lines) × (tokens.dropped ≡ dropped)) }
    ensures too_large { (result ≡ Err TokenRefusal.TooLarge) ↔ (1048576 < length bytes.now) }
{
    let spans = span_lines(alloc, bytes)?;
    Ok(spans.into_tokens(alloc)?)
}

/// The same lines, whose words are ranges of one buffer.
#[tactic(auto, using(crate::proofs::Answer::outcome_spelled))]
pub fn span_lines(alloc: Global, bytes: &[u8]) -> Result<SpanTokens, TokenRefusal>
    // What is answered is what the text spells.
    ensures spelled { IfOk result (λ tokens. Lines bytes.now tokens.lines tokens.dropped) }
    // What the text spells is answered, unless memory runs out.
    ensures only { IfOk result (λ tokens. (lines : Items Line) (dropped : Option ℕ) →
        Lines bytes.now lines dropped → (tokens.lines ≡ lines) × (tokens.dropped ≡ dropped)) }
    ensures too_large { (result ≡ Err TokenRefusal.TooLarge) ↔ (1048576 < length bytes.now) }
{
    if bytes.len() > MOST_BYTES {
        return Err(TokenRefusal::TooLarge);
    }
    Ok(read(alloc, bytes)?)
}

/// Each text has exactly one reading, and so spells exactly one list of lines.
#[tactic(auto, using(crate::proofs::Answer::some_reading, crate::proofs::Answer::one_reading, crate::proofs::Answer::some_lines, crate::proofs::Answer::one_answer))]
pub fn one_reading()
    ensures some { (bytes : Items ℕ) → (items : Items Item) × (ending : Ending) × IsReading bytes items ending }
    ensures one { (bytes : Items ℕ) (items others : Items Item) (ending other : Ending) →
        IsReading bytes items ending → IsReading bytes others other → (items ≡ others) × (ending ≡ other) }
    ensures some_lines { (bytes : Items ℕ) → (lines : Items Line) × (dropped : Option ℕ) × Lines bytes lines dropped }
    ensures one_list { (bytes : Items ℕ) (lines others : Items Line) (dropped other : Option ℕ) →
        Lines bytes lines dropped → Lines bytes others other → (lines ≡ others) × (dropped ≡ other) }
{}

/// The numbers of the lines of a text ascend, and that of the line that is left out is the greatest.
pub fn lines_ascend()
    ensures { (bytes : Items ℕ) (lines : Items Line) (dropped : Option ℕ) → Lines bytes lines dropped
        → Ascend (numbers lines dropped) }
{}

fn read(alloc: Global, bytes: &[u8]) -> Result<SpanTokens, NoMemory>
    requires { length bytes.now ≤ 1048576 }
    ensures { IfOk result (λ tokens. tokens ≡ steps.finished (steps.run steps.start bytes.now)) }
{
    let mut reader = Reader::new(alloc, bytes.len())?;
    let mut rest = bytes;
    while !rest.is_empty() {
        rest = reader.take_next(rest)?;
    }
    reader.finish()
}
