//! Equality of outputs: each kind with its own, part by part.

ghost use Rattle.std.specs.Prelude.{◌≡◌, ◌↔◌, IsTrue};

use crate::same::Same;
use init_machine::{Cause, Output, SetRefusal};

impl Same for SetRefusal {
    fn same(&self, other: &Self) -> bool {
        match (self, other) {
            (SetRefusal::Down { target: one }, SetRefusal::Down { target: other })
            | (SetRefusal::Denied { context: one }, SetRefusal::Denied { context: other }) => {
                one.same(other)
            }
            (SetRefusal::ValueTooLong { len: one }, SetRefusal::ValueTooLong { len: other })
            | (SetRefusal::ReadOnly { number: one }, SetRefusal::ReadOnly { number: other })
            | (SetRefusal::NumberSpent { last: one }, SetRefusal::NumberSpent { last: other }) => {
                *one == *other
            }
            (
                SetRefusal::AreaFull { used, need },
                SetRefusal::AreaFull {
                    used: other_used,
                    need: other_need,
                },
            ) => *used == *other_used && *need == *other_need,
            (SetRefusal::Spent, SetRefusal::Spent)
            | (SetRefusal::InvalidName, SetRefusal::InvalidName)
            | (SetRefusal::UnknownControl, SetRefusal::UnknownControl)
            | (SetRefusal::NoSuchService, SetRefusal::NoSuchService)
            | (SetRefusal::InvalidType, SetRefusal::InvalidType)
            | (SetRefusal::NotUtf8, SetRefusal::NotUtf8)
            | (SetRefusal::NoMemory, SetRefusal::NoMemory) => true,
            _ => false,
        }
    }
}

impl Same for Cause {
    fn same(&self, other: &Self) -> bool {
        match (self, other) {
            (Cause::Absent { name: one }, Cause::Absent { name: other })
            | (Cause::NoSuchService { name: one }, Cause::NoSuchService { name: other })
            | (Cause::AlreadyRunning { name: one }, Cause::AlreadyRunning { name: other }) => {
                one.same(other)
            }
            (Cause::BadForm { place: one }, Cause::BadForm { place: other })
            | (Cause::BadArgument { number: one }, Cause::BadArgument { number: other }) => {
                *one == *other
            }
            (Cause::Tree { kind: one }, Cause::Tree { kind: other }) => *one == *other,
            (Cause::Set { refusal: one }, Cause::Set { refusal: other }) => one.same(other),
            (Cause::TooLong, Cause::TooLong) | (Cause::NoPid, Cause::NoPid) => true,
            _ => false,
        }
    }
}

// One arm for each kind of output: it is as long as their list.
impl Same for Output {
    fn same(&self, other: &Self) -> bool {
        match (self, other) {
            (Output::Event { name: one }, Output::Event { name: other })
            | (Output::Stored { name: one }, Output::Stored { name: other })
            | (Output::NoPid { name: one }, Output::NoPid { name: other })
            | (Output::Tree { path: one }, Output::Tree { path: other })
            | (Output::Reboot { target: one }, Output::Reboot { target: other }) => one.same(other),
            (Output::AllProperties, Output::AllProperties)
            | (Output::Noted, Output::Noted)
            | (Output::Ok, Output::Ok)
            | (Output::Released, Output::Released)
            | (Output::Timeout, Output::Timeout)
            | (Output::Blocked, Output::Blocked)
            | (Output::Idle, Output::Idle)
            | (Output::Down, Output::Down)
            | (Output::TooFar, Output::TooFar)
            | (Output::NoProcess, Output::NoProcess) => true,
            (Output::Accepted { number: one }, Output::Accepted { number: other })
            | (Output::Control { number: one }, Output::Control { number: other }) => *one
                == *other,
            (Output::Refused { refusal: one }, Output::Refused { refusal: other }) => one.same(
                other,
            ),
            (Output::Failed { cause: one }, Output::Failed { cause: other }) => one.same(other),
            (Output::WaitChild { pid: one }, Output::WaitChild { pid: other }) => *one == *other,
            (
                Output::Change { name, value },
                Output::Change {
                    name: other_name,
                    value: other_value,
                },
            )
            | (
                Output::Env { name, value },
                Output::Env {
                    name: other_name,
                    value: other_value,
                },
            )
            | (
                Output::WaitProp { name, value },
                Output::WaitProp {
                    name: other_name,
                    value: other_value,
                },
            ) => name.same(other_name) && value.same(other_value),
            (
                Output::Action { file, line },
                Output::Action {
                    file: other_file,
                    line: other_line,
                },
            ) => *line == *other_line && file.same(other_file),
            (
                Output::Command {
                    file,
                    line,
                    word,
                    args,
                },
                Output::Command {
                    file: other_file,
                    line: other_line,
                    word: other_word,
                    args: other_args,
                },
            ) => {
                *line == *other_line
                    && *word == *other_word
                    && file.same(other_file)
                    && args.same(other_args)
            }
            (
                Output::Put {
                    number,
                    name,
                    value,
                },
                Output::Put {
                    number: other_number,
                    name: other_name,
                    value: other_value,
                },
            ) => *number == *other_number && name.same(other_name) && value.same(other_value),
            (
                Output::Unset { name, refusal },
                Output::Unset {
                    name: other_name,
                    refusal: other_refusal,
                },
            ) => name.same(other_name) && refusal.same(other_refusal),
            (
                Output::Spawn { pid, name, path },
                Output::Spawn {
                    pid: other_pid,
                    name: other_name,
                    path: other_path,
                },
            ) => *pid == *other_pid && name.same(other_name) && path.same(other_path),
            (
                Output::Kill { pid, name },
                Output::Kill {
                    pid: other_pid,
                    name: other_name,
                },
            ) => *pid == *other_pid && name.same(other_name),
            (
                Output::Reap { pid, name, how },
                Output::Reap {
                    pid: other_pid,
                    name: other_name,
                    how: other_how,
                },
            ) => *pid == *other_pid && *how == *other_how && name.same(other_name),
            (
                Output::WaitFile { path, until },
                Output::WaitFile {
                    path: other_path,
                    until: other_until,
                },
            ) => *until == *other_until && path.same(other_path),
            _ => false,
        }
    }
}
