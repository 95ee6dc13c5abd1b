//! The contexts that lines give, by name.

ghost use Rattle.std.specs.Prelude.{◌≡◌, ◌++◌, ◌∷◌, [], not, is_some, Some, IsTrue, IfOk, IfErr, OnOk, ◌≤◌, ◌<◌, ◌+◌, ◌-◌, ◌^◌, length};
ghost use Rattle.prop_contexts.specs.Given.{given, has_line, nothing_given, with_line, AreGiven, IsLineRefusal, IsTextRefusal, Takes};
ghost use Rattle.prop_contexts.specs.Contexts.{reading_of};
ghost use Rattle.prop_contexts.specs.declared.line.Reading.TheVariants.{Read};
ghost use Rattle.prop_contexts.specs.Named.{scoped};

use crate::context_line::{NamedLine, Scope, read_line};
use crate::line::Reading;
use crate::names::Names;
use crate::refusal::PolicyRefusal;
use init_base::{NoMemory, first_line};
use init_machine::Context;
use std::alloc::Global;

/// What the lines so far give.
#[derive(Drop)]
pub struct Contexts {
    /// How many lines were taken.
    pub lines: u32,
    pub default: Option<Context>,
    pub exact: Names,
    pub prefixes: Names,
}

impl Contexts {
    pub fn new(alloc: Global) -> Contexts
        ensures lines { result.lines ≡ 0 }
        ensures nothing { given result ≡ nothing_given }
    {
        Contexts {
            lines: 0,
            default: None,
            exact: Names::new(alloc),
            prefixes: Names::new(alloc),
        }
    }

    /// Takes the next line.
    fn take(&mut self, alloc: Global, line: &[u8]) -> Result<(), PolicyRefusal>
        requires { self.old.lines < 2 ^ 32 - 1 }
        ensures lines { OnOk result (self.new.lines ≡ self.old.lines + 1) }
        ensures taken { OnOk result (Takes (given self.old) (reading_of line.now) (given self.new)) }
        ensures refused { IfErr result (IsLineRefusal (given self.old) (reading_of line.now) (self.old.lines + 1)) }
    {
        self.lines += 1;
        match read_line(alloc, line)? {
            Reading::Skipped => Ok(()),
            Reading::Bad => Err(PolicyRefusal::BadLine {
                allow: false,
                line: self.lines,
            }),
            Reading::Read(line) => self.add_new(line),
        }
    }

    /// Adds a line, which is refused where a line of its name and kind is there.
    fn add_new(&mut self, line: NamedLine) -> Result<(), PolicyRefusal>
        ensures lines { self.new.lines ≡ self.old.lines }
        ensures added { OnOk result (Takes (given self.old) (Read (scoped line)) (given self.new)) }
        ensures refused { IfErr result (IsLineRefusal (given self.old) (Read (scoped line)) self.old.lines) }
    {
        if self.add(line)? {
            Ok(())
        } else {
            Err(PolicyRefusal::Twice { line: self.lines })
        }
    }

    /// Adds a line. False where a line of its name and kind is there; the contexts aren't used then.
    fn add(&mut self, line: NamedLine) -> Result<bool, NoMemory>
        ensures lines { self.new.lines ≡ self.old.lines }
        ensures fresh { IfOk result (λ fresh. fresh ≡ not (has_line (given self.old) (scoped line))) }
        ensures added { IfOk result (λ fresh. IsTrue fresh → given self.new ≡ with_line (given self.old) (scoped line)) }
    {
        match line.scope {
            Scope::Default => Ok(self.add_default(line.context)),
            Scope::Exact => self.exact.put(line.name, line.context),
            Scope::Prefix => self.prefixes.put(line.name, line.context),
        }
    }

    fn add_default(&mut self, context: Context) -> bool
        ensures lines { self.new.lines ≡ self.old.lines }
        ensures fresh { result ≡ not (is_some self.old.default) }
        ensures added { IsTrue result → self.new ≡ record self.old { default = Some context } }
    {
        if self.default.is_some() {
            return false;
        }
        self.default = Some(context);
        true
    }
}

/// The contexts that the lines of a text give.
pub fn read_contexts(alloc: Global, text: &[u8]) -> Result<Contexts, PolicyRefusal>
    requires { length text.now ≤ 1048576 }
    ensures read { IfOk result (AreGiven text.now) }
    ensures refused { IfErr result (IsTextRefusal text.now) }
{
    let mut contexts = Contexts::new(alloc);
    let mut rest = text;
    while !rest.is_empty() {
        let (line, behind) = first_line(rest);
        contexts.take(alloc, line)?;
        rest = behind;
    }
    Ok(contexts)
}
