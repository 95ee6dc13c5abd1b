//! The words of a service's options (AOSP, init's README, "Services").

ghost use Rattle.std.specs.Prelude.{◌≡◌};
ghost use Rattle.rc_parse.specs.Options.{inert_option_text, option_text};

/// An option's word.
#[derive(Clone, Copy, Debug, PartialEq, Eq)]
pub enum OptionWord {
    Class,
    Disabled,
    Oneshot,
    Override,
    Critical,
    Onrestart,
    RestartPeriod,
    TimeoutPeriod,
    /// An option that is read and has no effect.
    Inert(InertOption),
}

/// An option that is read and has no effect.
#[derive(Clone, Copy, Debug, PartialEq, Eq)]
pub enum InertOption {
    User,
    Group,
    Capabilities,
    Seclabel,
    Socket,
    File,
    Setenv,
    Ioprio,
    Priority,
    Writepid,
    TaskProfiles,
    Namespace,
    Shutdown,
    Interface,
    Console,
    Rlimit,
    OomScoreAdjust,
}

impl OptionWord {
    /// The word, as it is written.
    #[tactic(auto, unfolding(crate::specs::Options::option_text))]
    pub fn name(self) -> &'static [u8]
        ensures { result.now ≡ option_text self }
    {
        match self {
            OptionWord::Class => b"class",
            OptionWord::Disabled => b"disabled",
            OptionWord::Oneshot => b"oneshot",
            OptionWord::Override => b"override",
            OptionWord::Critical => b"critical",
            OptionWord::Onrestart => b"onrestart",
            OptionWord::RestartPeriod => b"restart_period",
            OptionWord::TimeoutPeriod => b"timeout_period",
            OptionWord::Inert(inert) => inert.name(),
        }
    }
}

impl InertOption {
    /// The word, as it is written.
    #[tactic(auto, unfolding(crate::specs::Options::inert_option_text))]
    pub fn name(self) -> &'static [u8]
        ensures { result.now ≡ inert_option_text self }
    {
        match self {
            InertOption::User => b"user",
            InertOption::Group => b"group",
            InertOption::Capabilities => b"capabilities",
            InertOption::Seclabel => b"seclabel",
            InertOption::Socket => b"socket",
            InertOption::File => b"file",
            InertOption::Setenv => b"setenv",
            InertOption::Ioprio => b"ioprio",
            InertOption::Priority => b"priority",
            InertOption::Writepid => b"writepid",
            InertOption::TaskProfiles => b"task_profiles",
            InertOption::Namespace => b"namespace",
            InertOption::Shutdown => b"shutdown",
            InertOption::Interface => b"interface",
            InertOption::Console => b"console",
            InertOption::Rlimit => b"rlimit",
            InertOption::OomScoreAdjust => b"oom_score_adjust",
        }
    }
}
