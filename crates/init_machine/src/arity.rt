//! How many arguments a word takes (AOSP, init's README, "Commands"; the inert ones are this project's profile).

ghost use Rattle.std.specs.Prelude.{◌≡◌};
ghost use Rattle.init_machine.specs.Arity.{arity_of, is_within};

use crate::word::Word;

/// How many arguments a word takes.
#[derive(Clone, Copy, Debug, PartialEq, Eq)]
pub enum Arity {
    Exactly(usize),
    /// From the first number to the second.
    Between(usize, usize),
    AtLeast(usize),
}

impl Arity {
    /// Whether a word takes so many arguments.
    pub fn permits(self, count: usize) -> bool
        ensures { result ≡ is_within self count }
    {
        match self {
            Arity::Exactly(number) => count == number,
            Arity::Between(least, most) => least <= count && count <= most,
            Arity::AtLeast(least) => least <= count,
        }
    }
}

impl Word {
    /// How many arguments the command takes.
    #[tactic(auto, unfolding(crate::specs::Arity::arity_of))]
    pub fn arity(self) -> Arity
        ensures { result ≡ arity_of self }
    {
        match self {
            Word::LoadPersistProps => Arity::Exactly(0),
            Word::ClassStart
            | Word::ClassStop
            | Word::ClassReset
            | Word::Start
            | Word::Stop
            | Word::Enable
            | Word::ExecStart
            | Word::Trigger
            | Word::Rm
            | Word::Rmdir => Arity::Exactly(1),
            Word::Setprop
            | Word::WaitForProp
            | Word::Export
            | Word::Write
            | Word::Copy
            | Word::Symlink
            | Word::Chmod => Arity::Exactly(2),
            Word::ClassRestart | Word::Restart | Word::Wait => Arity::Between(1, 2),
            Word::Mkdir => Arity::Between(1, 6),
            Word::Exec => Arity::AtLeast(1),
            Word::Inert(_) => Arity::AtLeast(0),
        }
    }
}
