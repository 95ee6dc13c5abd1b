//! The options of a service, and how many arguments each takes.

use init_machine::Arity::{self, AtLeast, Between, Exactly};

/// The options that this machine knows.
pub const OPTIONS: [(&[u8], Arity); 25] = [
    (b"capabilities", AtLeast(0)),
    (b"class", AtLeast(1)),
    (b"console", AtLeast(0)),
    (b"critical", Between(0, 2)),
    (b"disabled", Exactly(0)),
    (b"file", AtLeast(0)),
    (b"group", AtLeast(0)),
    (b"interface", AtLeast(0)),
    (b"ioprio", AtLeast(0)),
    (b"namespace", AtLeast(0)),
    (b"oneshot", Exactly(0)),
    (b"onrestart", AtLeast(1)),
    (b"oom_score_adjust", AtLeast(0)),
    (b"override", Exactly(0)),
    (b"priority", AtLeast(0)),
    (b"restart_period", Exactly(1)),
    (b"rlimit", AtLeast(0)),
    (b"seclabel", AtLeast(0)),
    (b"setenv", AtLeast(0)),
    (b"shutdown", AtLeast(0)),
    (b"socket", AtLeast(0)),
    (b"task_profiles", AtLeast(0)),
    (b"timeout_period", Exactly(1)),
    (b"user", AtLeast(0)),
    (b"writepid", AtLeast(0)),
];

/// How many arguments an option takes, where it is one.
pub fn option_arity(word: &[u8]) -> Option<Arity> {
    for (name, arity) in &OPTIONS {
        if *name == word {
            return Some(*arity);
        }
    }
    None
}
