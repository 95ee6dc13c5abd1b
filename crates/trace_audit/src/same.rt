//! `Same`: whether two values are equal, and the first place where two lists of them aren't.

ghost use Rattle.std.specs.Prelude.{◌≡◌, ◌↔◌, IsTrue, MatchOption};
ghost use Rattle.trace_audit.specs.Differences.{DifferFirst};

use init_base::{List, SharedList, Text};
use init_machine::Diagnostic;
use script_lang::Client;

/// What can be compared with another value of its type.
pub trait Same {
    /// Whether the two are equal.
    fn same(&self, other: &Self) -> bool
        ensures { IsTrue result ↔ (self.now ≡ other.now) };
}

impl Same for Text {
    fn same(&self, other: &Self) -> bool {
        self.is(other.bytes())
    }
}

impl Same for Diagnostic {
    fn same(&self, other: &Self) -> bool {
        self.line == other.line && self.kind == other.kind && self.file.same(&other.file)
    }
}

impl Same for Client {
    fn same(&self, other: &Self) -> bool {
        self.name.same(&other.name) && self.domain.same(&other.domain)
    }
}

impl<T: Same> Same for List<T> {
    fn same(&self, other: &Self) -> bool {
        first_difference(self.items(), other.items()).is_none()
    }
}

impl<T: Same> Same for SharedList<T> {
    fn same(&self, other: &Self) -> bool {
        first_difference(self.items(), other.items()).is_none()
    }
}

/// The first place, from 1, where two lists differ. None exactly where they are equal.
pub fn first_difference<T: Same>(one: &[T], other: &[T]) -> Option<u64>
    ensures { MatchOption result (one.now ≡ other.now) (DifferFirst one.now other.now) }
{
    let common = one.len().min(other.len());
    for place in 0..common {
        if !one[place].same(&other[place]) {
            return Some(place as u64 + 1);
        }
    }
    if one.len() == other.len() {
        return None;
    }
    Some(common as u64 + 1)
}
