//! The table of service marks: what becomes of the marks at an operation, and what is to be done then. A service with
//! a process and one without have a cell each.

ghost use Rattle.std.specs.Prelude.{◌≡◌, Some, None};
ghost use Rattle.init_machine.specs.Marks.{service_step, kill as kill_cell, start as start_cell, class_start as class_start_cell, stop as stop_cell, with_reset as marks_with_reset, reset as reset_cell, restart as restart_cell, class_restart as class_restart_cell, enable as enable_cell, exec_start as exec_start_cell, timeout as timeout_cell, ended as ended_cell, reaped as reaped_cell};
ghost use Rattle.service_table.specs.internal.End.{end_cell};

use init_base::Pid;
use init_machine::{Marks, Move, Op};

/// What an operation does to the marks, and what follows.
#[tactic(auto, unfolding(init_machine::specs::Marks::service_step))]
pub fn step(marks: &mut Marks, op: Op) -> Move
    ensures marks { marks.new ≡ (service_step op marks.old).marks }
    ensures todo { result ≡ (service_step op marks.old).todo }
{
    match op {
        Op::Start => start(marks),
        Op::ClassStart => class_start(marks),
        Op::Stop => stop(marks),
        Op::Reset => reset(marks),
        Op::Restart { only_running } => restart(marks, only_running),
        Op::ClassRestart { only_enabled } => class_restart(marks, only_enabled),
        Op::Enable => enable(marks),
        Op::ExecStart => exec_start(marks),
        Op::Timeout => timeout(marks),
        Op::Spawned { pid, now } => {
            marks.pid = Some(pid);
            marks.killed = false;
            marks.started = now;
            Move::Nothing
        }
        Op::NoPid => {
            marks.restarting = false;
            Move::Stopped
        }
        Op::Reaped => reaped(marks),
    }
}

/// A process is killed once.
fn kill(marks: &mut Marks, pid: Pid) -> Move
    ensures marks { marks.new ≡ (kill_cell pid marks.old).marks }
    ensures todo { result ≡ (kill_cell pid marks.old).todo }
{
    if marks.killed {
        return Move::Nothing;
    }
    marks.killed = true;
    Move::Kill { pid }
}

/// A oneshot service that is to stop, or was reset, starts again when its process has ended.
fn start(marks: &mut Marks) -> Move
    ensures marks { marks.new ≡ (start_cell marks.old.pid marks.old).marks }
    ensures todo { result ≡ (start_cell marks.old.pid marks.old).todo }
{
    let is_running = marks.pid.is_some();
    let is_stopping = marks.oneshot && (marks.disabled || marks.reset);
    marks.again = is_running && (marks.again || is_stopping);
    marks.disabled = false;
    marks.reset = false;
    marks.restarting = false;
    marks.wanted = false;
    if is_running {
        Move::Nothing
    } else {
        Move::Spawn
    }
}

/// A disabled service is only wanted, until it is enabled.
fn class_start(marks: &mut Marks) -> Move
    ensures marks { marks.new ≡ (class_start_cell marks.old.pid marks.old).marks }
    ensures todo { result ≡ (class_start_cell marks.old.pid marks.old).todo }
{
    if marks.disabled {
        marks.wanted = true;
        return Move::Nothing;
    }
    start(marks)
}

/// Kills the process, where there is one.
fn end(marks: &mut Marks) -> Move
    ensures marks { marks.new ≡ (end_cell marks.old.pid marks.old).marks }
    ensures todo { result ≡ (end_cell marks.old.pid marks.old).todo }
{
    match marks.pid {
        Some(pid) => kill(marks, pid),
        None => Move::Stopped,
    }
}

fn stop(marks: &mut Marks) -> Move
    ensures marks { marks.new ≡ (stop_cell marks.old.pid marks.old).marks }
    ensures todo { result ≡ (stop_cell marks.old.pid marks.old).todo }
{
    marks.restarting = false;
    marks.wanted = false;
    marks.again = false;
    marks.disabled = true;
    end(marks)
}

/// A service that is declared disabled stays disabled; another one may be started by its class again.
fn reset(marks: &mut Marks) -> Move
    ensures marks { marks.new ≡ (reset_cell marks.old.pid marks.old).marks }
    ensures todo { result ≡ (reset_cell marks.old.pid marks.old).todo }
{
    marks.restarting = false;
    marks.wanted = false;
    marks.again = false;
    marks.disabled = marks.disabled || marks.declared;
    marks.reset = marks.reset || !marks.declared;
    end(marks)
}

fn restart(marks: &mut Marks, only_running: bool) -> Move
    ensures marks { marks.new ≡ (restart_cell only_running marks.old.pid marks.old).marks }
    ensures todo { result ≡ (restart_cell only_running marks.old.pid marks.old).todo }
{
    let Some(pid) = marks.pid else {
        return if marks.restarting || only_running {
            Move::Nothing
        } else {
            start(marks)
        };
    };
    marks.disabled = false;
    marks.reset = false;
    marks.wanted = false;
    marks.again = true;
    kill(marks, pid)
}

fn class_restart(marks: &mut Marks, only_enabled: bool) -> Move
    ensures marks { marks.new ≡ (class_restart_cell only_enabled marks.old.pid marks.old).marks }
    ensures todo { result ≡ (class_restart_cell only_enabled marks.old.pid marks.old).todo }
{
    if only_enabled && marks.disabled {
        return Move::Nothing;
    }
    restart(marks, false)
}

fn enable(marks: &mut Marks) -> Move
    ensures marks { marks.new ≡ (enable_cell marks.old.pid marks.old).marks }
    ensures todo { result ≡ (enable_cell marks.old.pid marks.old).todo }
{
    marks.disabled = false;
    marks.declared = false;
    if marks.wanted {
        start(marks)
    } else {
        Move::Nothing
    }
}

fn exec_start(marks: &mut Marks) -> Move
    ensures marks { marks.new ≡ (exec_start_cell marks.old.pid marks.old).marks }
    ensures todo { result ≡ (exec_start_cell marks.old.pid marks.old).todo }
{
    if marks.pid.is_some() {
        return Move::Nothing;
    }
    marks.oneshot = true;
    start(marks)
}

fn timeout(marks: &mut Marks) -> Move
    ensures marks { marks.new ≡ (timeout_cell marks.old.pid marks.old).marks }
    ensures todo { result ≡ (timeout_cell marks.old.pid marks.old).todo }
{
    match marks.pid {
        Some(pid) => kill(marks, pid),
        None => Move::Nothing,
    }
}

/// The process has ended. A oneshot service is disabled then, unless it is to start again or was reset. A disabled or
/// reset service is stopped, and another one is to be restarted.
fn reaped(marks: &mut Marks) -> Move
    ensures marks { marks.new ≡ (reaped_cell marks.old).marks }
    ensures todo { result ≡ (reaped_cell marks.old).todo }
{
    let is_done = marks.oneshot && !marks.again && !marks.reset;
    let is_stopped = marks.disabled || is_done || marks.reset;
    marks.pid = None;
    marks.killed = false;
    marks.disabled = marks.disabled || is_done;
    marks.again = false;
    marks.restarting = marks.restarting || !is_stopped;
    if is_stopped {
        Move::Stopped
    } else {
        Move::Exited
    }
}
