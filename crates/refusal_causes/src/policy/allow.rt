//! What is wrong with a line of the allow text.

ghost use Rattle.std.specs.Prelude.{◌≡◌, IfOk};
ghost use Rattle.refusal_causes.specs.Allows as spec;

use super::cause::AllowCause;
use init_base::NoMemory;
use prop_contexts::{all_words, is_comment};
use std::alloc::Global;

/// Why a line is bad.
pub fn allow_line_cause(alloc: Global, line: &[u8]) -> Result<Option<AllowCause>, NoMemory>
    ensures { IfOk result (λ cause. cause ≡ spec.allow_line_cause line.now) }
{
    let words = all_words(alloc, line)?;
    let Some((word, args)) = words.items().split_first() else {
        return Ok(None);
    };
    if is_comment(word.bytes()) {
        return Ok(None);
    }
    if !word.is(b"allow") {
        return Ok(Some(AllowCause::NotAllow {
            word: word.share()?,
        }));
    }
    if args.len() == 2 {
        return Ok(None);
    }
    Ok(Some(AllowCause::WrongCount { given: args.len() }))
}
