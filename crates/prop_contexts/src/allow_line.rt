//! A line of the allow text: `allow DOMAIN LABEL`. The rules are in `specs/Allows.antt`.

ghost use Rattle.std.specs.Prelude.{◌≡◌, IfOk};
ghost use Rattle.prop_contexts.specs.Lines.{words_of};
ghost use Rattle.prop_contexts.specs.Allows.{allow_of, pair_of};

use crate::line::{Reading, first_word, is_comment};
use init_base::{NoMemory, Text};
use init_machine::AllowLine;
use std::alloc::Global;

const ALLOW: &[u8] = b"allow";

/// What a line says.
pub fn read_line(alloc: Global, line: &[u8]) -> Result<Reading<AllowLine>, NoMemory>
    ensures { IfOk result (λ reading. reading ≡ allow_of line.now) }
{
    let Some((word, rest)) = first_word(line) else {
        return Ok(Reading::Skipped);
    };
    if is_comment(word) {
        return Ok(Reading::Skipped);
    }
    if word != ALLOW {
        return Ok(Reading::Bad);
    }
    read_pair(alloc, rest)
}

/// The domain and the label, behind which nothing stands.
fn read_pair(alloc: Global, words: &[u8]) -> Result<Reading<AllowLine>, NoMemory>
    ensures { IfOk result (λ reading. reading ≡ pair_of (words_of words.now)) }
{
    let Some((domain, rest)) = first_word(words) else {
        return Ok(Reading::Bad);
    };
    let Some((label, rest)) = first_word(rest) else {
        return Ok(Reading::Bad);
    };
    if first_word(rest).is_some() {
        return Ok(Reading::Bad);
    }
    Ok(Reading::Read(AllowLine {
        domain: Text::of(alloc, domain)?,
        label: Text::of(alloc, label)?,
    }))
}
