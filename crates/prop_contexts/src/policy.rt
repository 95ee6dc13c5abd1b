//! The policy that two texts spell, and the look-ups in it.

ghost use Rattle.std.specs.Prelude.{◌≡◌, ◌≤◌, Some, None, IfOk, IfErr, IfSome, IfNone, length};
ghost use Rattle.init_machine.specs.Policy.{context_of, is_allowed};
ghost use Rattle.prop_contexts.specs.Allowed.{AreAllowed, IsAllowRefusal};
ghost use Rattle.prop_contexts.specs.Grammar.{IsPolicy, IsRefused};

use crate::allowances::Allowances;
use crate::allows::read_allows;
use crate::contexts::{Contexts, read_contexts};
use crate::names::Names;
use crate::refusal::PolicyRefusal;
use init_base::{PropName, both};
use init_machine::{Context, PolicyView};
use std::alloc::Global;
use std::marker::Model;

/// A value and another one beside it, where there is the first; else the other one ends here, so that the proof of a caller
/// has nothing to do with it.
fn beside<A: Drop, B: Drop>(one: Option<A>, other: B) -> Option<(A, B)>
    ensures pair { IfSome result (λ pair. (one ≡ Some pair.0) × (pair.1 ≡ other)) }
    ensures none { IfNone result (one ≡ None) }
{
    Some((one?, other))
}

/// The allowances that an allow text spells.
fn read_allowances(alloc: Global, text: &[u8]) -> Result<Allowances, PolicyRefusal>
    requires { length text.now ≤ 1048576 }
    ensures read { IfOk result (AreAllowed text.now) }
    ensures refused { IfErr result (IsAllowRefusal text.now) }
{
    let lines = read_allows(alloc, text)?;
    Ok(Allowances::of(alloc, lines)?)
}

/// The policy of property sets.
#[derive(Drop)]
pub struct Policy {
    default: Context,
    exact: Names,
    prefixes: Names,
    allows: Allowances,
}

impl Model for Policy {
    ghost use Rattle.init_machine.specs.Policy.{PolicyLines};

    ghost Value = { PolicyLines };

    ghost view = { λ p. record { default = p.default; exact = p.exact; prefixes = p.prefixes; allows = p.allows } };
}

impl PolicyView for Policy {
    ghost lines = { λ policy. policy };
}

impl Policy {
    /// The policy of a contexts text and an allow text. The contexts are judged first; the first bad line decides.
    pub fn read(alloc: Global, contexts: &[u8], allow: &[u8]) -> Result<Policy, PolicyRefusal>
        requires contexts { length contexts.now ≤ 1048576 }
        requires allow { length allow.now ≤ 1048576 }
        ensures policy { IfOk result (IsPolicy contexts.now allow.now) }
        ensures refused { IfErr result (IsRefused contexts.now allow.now) }
    {
        let Contexts {
            lines,
            default,
            exact,
            prefixes,
        } = read_contexts(alloc, contexts)?;
        let Some(named) = beside(default, (exact, prefixes)) else {
            return Err(PolicyRefusal::NoDefault { line: lines + 1 });
        };
        let ((default, (exact, prefixes)), allows) = both(named, read_allowances(alloc, allow))?;
        Ok(Policy {
            default,
            exact,
            prefixes,
            allows,
        })
    }

    /// The context of a property: that of the exact line for its name, else of the longest prefix line for it, else of
    /// the line `*`. It takes no memory.
    #[tactic(auto, unfolding(init_machine::specs::Policy::context_of))]
    pub fn context_of(&self, name: PropName<'_>) -> &Context
        ensures { result.now ≡ context_of self.now name.entry.bytes.now }
    {
        let walked = self.prefixes.walk(name.bytes());
        if let Some(context) = self.exact.get(walked.name, walked.digest, walked.rest) {
            return context;
        }
        match self.prefixes.longest(&walked) {
            Some(context) => context,
            None => &self.default,
        }
    }

    /// Whether the allow text has this domain with this label. It takes no memory, and time of the two words.
    #[tactic(auto, unfolding(init_machine::specs::Policy::is_allowed))]
    pub fn allows(&self, domain: &[u8], label: &[u8]) -> bool
        ensures { result ≡ is_allowed self.now domain.now label.now }
    {
        self.allows.has(domain, label)
    }
}
