//! What the options of a service say of its times and exits.

ghost use Rattle.std.specs.Prelude.{◌≡◌, ◌+◌, Some};
ghost use Rattle.std.specs.Option.{option_map};
ghost use Rattle.restart_policy.specs.Times.{number_of};
ghost use Rattle.services.specs.Times.{kept_restart, kept_timeout, within_reach};

use init_base::Millis;
use init_machine::{Marks, ServiceDef};

/// When a restarting service is due. None where it isn't restarting, or no clock reaches that time.
pub(crate) fn restart_time(def: &ServiceDef, marks: Marks) -> Option<Millis>
    ensures { number_of result ≡ kept_restart def.now marks }
{
    if !marks.restarting {
        return None;
    }
    later(marks.started, def.period)
}

/// When the process of a service has run for its timeout. None where it has no process or no timeout, or no clock reaches
/// that time.
pub(crate) fn timeout_time(def: &ServiceDef, marks: Marks) -> Option<Millis>
    ensures { number_of result ≡ kept_timeout def.now marks }
{
    if marks.pid.is_none() {
        return None;
    }
    match def.timeout {
        Some(timeout) => later(marks.started, timeout),
        None => None,
    }
}

/// A time so long after another one. None exactly where no clock reaches it, since no `u64` holds it.
fn later(time: Millis, span: Millis) -> Option<Millis>
    ensures { number_of result ≡ within_reach (Some (time.0 + span.0)) }
{
    let sum = time.0.checked_add(span.0)?;
    Some(Millis(sum))
}

/// The window in which the exits of a critical service are counted. None where it isn't critical.
pub(crate) fn window(def: &ServiceDef) -> Option<Millis>
    ensures { result ≡ option_map (λ critical. critical.window) def.now.critical }
{
    match &def.critical {
        Some(critical) => Some(critical.window),
        None => None,
    }
}
