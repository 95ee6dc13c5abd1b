//! The words of commands (AOSP, init's README, "Commands").

ghost use Rattle.std.specs.Prelude.{◌≡◌};
ghost use Rattle.init_machine.specs.Commands.{word_of};
ghost use Rattle.init_machine.specs.WordTexts.{inert_text, word_text};

/// A command's word.
#[derive(Clone, Copy, Debug, PartialEq, Eq)]
pub enum Word {
    ClassStart,
    ClassStop,
    ClassReset,
    ClassRestart,
    Start,
    Stop,
    Enable,
    Restart,
    ExecStart,
    Exec,
    Setprop,
    Trigger,
    WaitForProp,
    Wait,
    LoadPersistProps,
    Export,
    Write,
    Copy,
    Rm,
    Rmdir,
    Symlink,
    Chmod,
    Mkdir,
    /// A command that is noted and has no effect.
    Inert(InertWord),
}

/// A command that is noted and has no effect.
#[derive(Clone, Copy, Debug, PartialEq, Eq)]
pub enum InertWord {
    Mount,
    Umount,
    Restorecon,
    RestoreconRecursive,
    Chown,
    Insmod,
    Ifup,
    Sysclktz,
    Setrlimit,
    SwaponAll,
    VerityUpdateState,
    Installkey,
    InitUser0,
    MarkPostData,
    ExecBackground,
    Loglevel,
    Hostname,
    Domainname,
    Bootchart,
}

/// The words of all commands, those first that the files of devices have most.
pub const WORDS: [Word; 42] = [
    Word::Write,
    Word::Setprop,
    Word::Inert(InertWord::Chown),
    Word::Chmod,
    Word::Mkdir,
    Word::Start,
    Word::Stop,
    Word::Inert(InertWord::Restorecon),
    Word::ClassStart,
    Word::Trigger,
    Word::Exec,
    Word::Symlink,
    Word::Inert(InertWord::Mount),
    Word::Copy,
    Word::Rm,
    Word::Wait,
    Word::Export,
    Word::Restart,
    Word::Enable,
    Word::ExecStart,
    Word::Inert(InertWord::ExecBackground),
    Word::WaitForProp,
    Word::ClassStop,
    Word::ClassReset,
    Word::ClassRestart,
    Word::LoadPersistProps,
    Word::Rmdir,
    Word::Inert(InertWord::RestoreconRecursive),
    Word::Inert(InertWord::Umount),
    Word::Inert(InertWord::Insmod),
    Word::Inert(InertWord::Ifup),
    Word::Inert(InertWord::Sysclktz),
    Word::Inert(InertWord::Setrlimit),
    Word::Inert(InertWord::SwaponAll),
    Word::Inert(InertWord::VerityUpdateState),
    Word::Inert(InertWord::Installkey),
    Word::Inert(InertWord::InitUser0),
    Word::Inert(InertWord::MarkPostData),
    Word::Inert(InertWord::Loglevel),
    Word::Inert(InertWord::Hostname),
    Word::Inert(InertWord::Domainname),
    Word::Inert(InertWord::Bootchart),
];

impl Word {
    /// The command with this text. None exactly where no command has it.
    pub fn of(text: &[u8]) -> Option<Word>
        ensures { result ≡ word_of text.now }
    {
        WORDS.iter().copied().find(|word| word.name() == text)
    }

    /// The word, as it is written in an rc file.
    #[tactic(auto, unfolding(crate::specs::WordTexts::word_text))]
    pub fn name(self) -> &'static [u8]
        ensures { result.now ≡ word_text self }
    {
        match self {
            Word::ClassStart => b"class_start",
            Word::ClassStop => b"class_stop",
            Word::ClassReset => b"class_reset",
            Word::ClassRestart => b"class_restart",
            Word::Start => b"start",
            Word::Stop => b"stop",
            Word::Enable => b"enable",
            Word::Restart => b"restart",
            Word::ExecStart => b"exec_start",
            Word::Exec => b"exec",
            Word::Setprop => b"setprop",
            Word::Trigger => b"trigger",
            Word::WaitForProp => b"wait_for_prop",
            Word::Wait => b"wait",
            Word::LoadPersistProps => b"load_persist_props",
            Word::Export => b"export",
            Word::Write => b"write",
            Word::Copy => b"copy",
            Word::Rm => b"rm",
            Word::Rmdir => b"rmdir",
            Word::Symlink => b"symlink",
            Word::Chmod => b"chmod",
            Word::Mkdir => b"mkdir",
            Word::Inert(noted) => noted.name(),
        }
    }
}

impl InertWord {
    /// The word, as it is written in an rc file.
    #[tactic(auto, unfolding(crate::specs::WordTexts::inert_text))]
    pub fn name(self) -> &'static [u8]
        ensures { result.now ≡ inert_text self }
    {
        match self {
            InertWord::Mount => b"mount",
            InertWord::Umount => b"umount",
            InertWord::Restorecon => b"restorecon",
            InertWord::RestoreconRecursive => b"restorecon_recursive",
            InertWord::Chown => b"chown",
            InertWord::Insmod => b"insmod",
            InertWord::Ifup => b"ifup",
            InertWord::Sysclktz => b"sysclktz",
            InertWord::Setrlimit => b"setrlimit",
            InertWord::SwaponAll => b"swapon_all",
            InertWord::VerityUpdateState => b"verity_update_state",
            InertWord::Installkey => b"installkey",
            InertWord::InitUser0 => b"init_user0",
            InertWord::MarkPostData => b"mark_post_data",
            InertWord::ExecBackground => b"exec_background",
            InertWord::Loglevel => b"loglevel",
            InertWord::Hostname => b"hostname",
            InertWord::Domainname => b"domainname",
            InertWord::Bootchart => b"bootchart",
        }
    }
}
