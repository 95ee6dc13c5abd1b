//! The options of a service, and how many arguments they take (AOSP, init's README, "Services"; the inert ones are this
//! project's profile).

use crate::option_word::{InertOption, OptionWord};
use init_machine::Arity::{self, AtLeast, Between, Exactly};

/// The options of a service.
pub const OPTIONS: [(OptionWord, Arity); 25] = [
    (OptionWord::Class, AtLeast(1)),
    (OptionWord::Disabled, Exactly(0)),
    (OptionWord::Oneshot, Exactly(0)),
    (OptionWord::Override, Exactly(0)),
    (OptionWord::Critical, Between(0, 2)),
    (OptionWord::Onrestart, AtLeast(1)),
    (OptionWord::RestartPeriod, Exactly(1)),
    (OptionWord::TimeoutPeriod, Exactly(1)),
    (OptionWord::Inert(InertOption::User), AtLeast(0)),
    (OptionWord::Inert(InertOption::Group), AtLeast(0)),
    (OptionWord::Inert(InertOption::Capabilities), AtLeast(0)),
    (OptionWord::Inert(InertOption::Seclabel), AtLeast(0)),
    (OptionWord::Inert(InertOption::Socket), AtLeast(0)),
    (OptionWord::Inert(InertOption::File), AtLeast(0)),
    (OptionWord::Inert(InertOption::Setenv), AtLeast(0)),
    (OptionWord::Inert(InertOption::Ioprio), AtLeast(0)),
    (OptionWord::Inert(InertOption::Priority), AtLeast(0)),
    (OptionWord::Inert(InertOption::Writepid), AtLeast(0)),
    (OptionWord::Inert(InertOption::TaskProfiles), AtLeast(0)),
    (OptionWord::Inert(InertOption::Namespace), AtLeast(0)),
    (OptionWord::Inert(InertOption::Shutdown), AtLeast(0)),
    (OptionWord::Inert(InertOption::Interface), AtLeast(0)),
    (OptionWord::Inert(InertOption::Console), AtLeast(0)),
    (OptionWord::Inert(InertOption::Rlimit), AtLeast(0)),
    (OptionWord::Inert(InertOption::OomScoreAdjust), AtLeast(0)),
];
