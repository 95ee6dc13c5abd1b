//! Tasks: what words ask for with their arguments (AOSP, init's README, "Commands").

ghost use Rattle.std.specs.Prelude.{◌≡◌, ℕ, List as Items, IfOk, IsTrue, codes};
ghost use Rattle.init_machine.specs.Tasks.{by_mode, run_once};
ghost use Rattle.init_machine.specs.Tasks as spec;
ghost use Rattle.init_machine.specs.declared.word.Word.{Word as WordLem};
ghost use Rattle.builtins.specs.Brief.{is_brief};

use crate::arguments::{first, optional, program, second};
use crate::forms::{mode, seconds};
use init_base::{Millis, NoMemory, Text};
use init_machine::{Op, Task, TreeCall, Word};

/// How long a file is waited for.
const WAIT: Millis = Millis(5000);

/// The mode of a directory.
const DIRECTORY_MODE: u16 = 0o755;

const ONLY_ENABLED: &[u8] = b"--only-enabled";

const ONLY_IF_RUNNING: &[u8] = b"--only-if-running";

/// What a command asks for.
#[inline(never)]
#[tactic(auto, unfolding(init_machine::specs::Tasks::task_of))]
pub fn task_of(word: Word, args: &[Text]) -> Result<Task, NoMemory>
    ensures { IfOk result (λ task. task ≡ spec.task_of word args.now) }
{
    match word {
        Word::ClassStart => on_class(Op::ClassStart, args),
        Word::ClassStop => on_class(Op::Stop, args),
        Word::ClassReset => on_class(Op::Reset, args),
        Word::ClassRestart => restart_class(args),
        Word::Start => on_service(Op::Start, args),
        Word::Stop => on_service(Op::Stop, args),
        Word::Enable => on_service(Op::Enable, args),
        Word::Restart => restart_service(args),
        Word::ExecStart => exec_start(args),
        Word::Exec => exec(args),
        Word::Setprop => set_property(args),
        Word::Trigger => trigger(args),
        Word::WaitForProp => wait_for_property(args),
        Word::Wait => wait_for(args),
        Word::LoadPersistProps => Ok(Task::LoadSaved),
        Word::Export => export(args),
        Word::Write => write(args),
        Word::Copy => copy(args),
        Word::Rm => remove(args),
        Word::Rmdir => remove_directory(args),
        Word::Symlink => link(args),
        Word::Chmod => change_mode(args),
        Word::Mkdir => make_directory(args),
        Word::Inert(_) => Ok(Task::Note),
    }
}

/// No command waits for a file longer than 1,000,000,000 milliseconds.
#[tactic(auto, using(crate::proofs::Brief::brief))]
pub fn no_long_wait()
    ensures { (word : WordLem) (args : Items (Items ℕ)) → IsTrue (is_brief (spec.task_of word args)) }
{}

fn on_class(op: Op, args: &[Text]) -> Result<Task, NoMemory>
    ensures { IfOk result (λ task. task ≡ Task.OnClass op (spec.first args.now)) }
{
    let class = first(args)?;
    Ok(Task::OnClass { op, class })
}

fn on_service(op: Op, args: &[Text]) -> Result<Task, NoMemory>
    ensures { IfOk result (λ task. task ≡ Task.OnService op (spec.first args.now)) }
{
    let name = first(args)?;
    Ok(Task::OnService { op, name })
}

fn restart_class(args: &[Text]) -> Result<Task, NoMemory>
    ensures { IfOk result (λ task. task
        ≡ spec.optional (codes "--only-enabled") (λ only class. Task.OnClass (Op.ClassRestart only) class) args.now) }
{
    match optional(ONLY_ENABLED, args)? {
        None => Ok(Task::BadArgument { number: 1 }),
        Some((only_enabled, class)) => {
            let op = Op::ClassRestart { only_enabled };
            Ok(Task::OnClass { op, class })
        }
    }
}

fn restart_service(args: &[Text]) -> Result<Task, NoMemory>
    ensures { IfOk result (λ task. task
        ≡ spec.optional (codes "--only-if-running") (λ only name. Task.OnService (Op.Restart only) name) args.now) }
{
    match optional(ONLY_IF_RUNNING, args)? {
        None => Ok(Task::BadArgument { number: 1 }),
        Some((only_running, name)) => {
            let op = Op::Restart { only_running };
            Ok(Task::OnService { op, name })
        }
    }
}

fn exec_start(args: &[Text]) -> Result<Task, NoMemory>
    ensures { IfOk result (λ task. task ≡ Task.ExecStart (spec.first args.now)) }
{
    let name = first(args)?;
    Ok(Task::ExecStart { name })
}

fn exec(args: &[Text]) -> Result<Task, NoMemory>
    ensures { IfOk result (λ task. task ≡ run_once args.now) }
{
    match program(args)? {
        Some(path) => Ok(Task::Exec { path }),
        None => Ok(Task::BadArgument { number: 1 }),
    }
}

fn set_property(args: &[Text]) -> Result<Task, NoMemory>
    ensures { IfOk result (λ task. task ≡ Task.SetProperty (spec.first args.now) (spec.second args.now)) }
{
    let name = first(args)?;
    let value = second(args)?;
    Ok(Task::SetProperty { name, value })
}

fn trigger(args: &[Text]) -> Result<Task, NoMemory>
    ensures { IfOk result (λ task. task ≡ spec.trigger (spec.first args.now)) }
{
    let event = first(args)?;
    if event.is_empty() {
        Ok(Task::BadArgument { number: 1 })
    } else {
        Ok(Task::Trigger { event })
    }
}

fn wait_for_property(args: &[Text]) -> Result<Task, NoMemory>
    ensures { IfOk result (λ task. task ≡ Task.WaitForProperty (spec.first args.now) (spec.second args.now)) }
{
    let name = first(args)?;
    let value = second(args)?;
    Ok(Task::WaitForProperty { name, value })
}

fn wait_for(args: &[Text]) -> Result<Task, NoMemory>
    ensures { IfOk result (λ task. task ≡ spec.wait_for args.now) }
{
    let path = first(args)?;
    let [_, within, ..] = args else {
        return Ok(Task::WaitForFile { path, within: WAIT });
    };
    match seconds(within.bytes()) {
        Some(within) => Ok(Task::WaitForFile { path, within }),
        None => Ok(Task::BadArgument { number: 2 }),
    }
}

fn export(args: &[Text]) -> Result<Task, NoMemory>
    ensures { IfOk result (λ task. task ≡ Task.Export (spec.first args.now) (spec.second args.now)) }
{
    let name = first(args)?;
    let value = second(args)?;
    Ok(Task::Export { name, value })
}

fn write(args: &[Text]) -> Result<Task, NoMemory>
    ensures { IfOk result (λ task. task ≡ Task.Tree (TreeCall.Write (spec.first args.now) (spec.second args.now))) }
{
    let path = first(args)?;
    let content = second(args)?;
    Ok(Task::Tree(TreeCall::Write { path, content }))
}

fn copy(args: &[Text]) -> Result<Task, NoMemory>
    ensures { IfOk result (λ task. task ≡ Task.Tree (TreeCall.Copy (spec.first args.now) (spec.second args.now))) }
{
    let from = first(args)?;
    let to = second(args)?;
    Ok(Task::Tree(TreeCall::Copy { from, to }))
}

fn remove(args: &[Text]) -> Result<Task, NoMemory>
    ensures { IfOk result (λ task. task ≡ Task.Tree (TreeCall.Remove (spec.first args.now))) }
{
    let path = first(args)?;
    Ok(Task::Tree(TreeCall::Remove { path }))
}

fn remove_directory(args: &[Text]) -> Result<Task, NoMemory>
    ensures { IfOk result (λ task. task ≡ Task.Tree (TreeCall.RemoveDirectory (spec.first args.now))) }
{
    let path = first(args)?;
    Ok(Task::Tree(TreeCall::RemoveDirectory { path }))
}

fn link(args: &[Text]) -> Result<Task, NoMemory>
    ensures { IfOk result (λ task. task ≡ Task.Tree (TreeCall.Link (spec.first args.now) (spec.second args.now))) }
{
    let target = first(args)?;
    let path = second(args)?;
    Ok(Task::Tree(TreeCall::Link { target, path }))
}

fn change_mode(args: &[Text]) -> Result<Task, NoMemory>
    ensures { IfOk result (λ task. task ≡ by_mode 1 (spec.first args.now) (λ m. TreeCall.ChangeMode m (spec.second args.now))) }
{
    let text = first(args)?;
    let path = second(args)?;
    match mode(text.bytes()) {
        Some(mode) => Ok(Task::Tree(TreeCall::ChangeMode { mode, path })),
        None => Ok(Task::BadArgument { number: 1 }),
    }
}

fn make_directory(args: &[Text]) -> Result<Task, NoMemory>
    ensures { IfOk result (λ task. task ≡ spec.make_directory args.now) }
{
    let path = first(args)?;
    let [_, text, ..] = args else {
        let mode = DIRECTORY_MODE;
        return Ok(Task::Tree(TreeCall::MakeDirectory { path, mode }));
    };
    match mode(text.bytes()) {
        Some(mode) => Ok(Task::Tree(TreeCall::MakeDirectory { path, mode })),
        None => Ok(Task::BadArgument { number: 2 }),
    }
}
