//! Actors that run beside each other: the gate holds each until another got on.
//!
//! Were the actors run one after another, the first of them would be held for all of `MOST_SECONDS`, and the test would fail with
//! "an actor waits for one that doesn't run beside it". So it does where the system gives too few threads. No proof says that
//! actors run beside each other.

ghost use Rattle.std.specs.Prelude.{◌≡◌, IfOk, length};
ghost use Rattle.init_machine.specs.WellFormed.{IsWellFormed};
ghost use Rattle.script_lang.specs.Laws.{MeetsConditions};

use init_base::{ClientId, List, MemSink, SteadyKeeper, Text};
use init_driver::Setup;
use init_machine::Config;
use init_race::{Gate, Point, race};
use init_trace::print;
use prop_contexts::Policy;
use script_lang::{Script, domains_of};
use std::alloc::Global;
use std::sync::{Condvar, Mutex, Wait};
use std::test::Fail;
use std::thread::Threads;
use std::time::{Clock, Duration};

/// How long an actor is held at most, before it goes on anyway.
const MOST_SECONDS: u64 = 20;

/// How far the actors got.
#[derive(Drop)]
struct Progress {
    /// 1 once the main actor's first input is answered, and 2 once the first request of client 1 is.
    stage: u32,
    /// Whether some actor went on before it was let go.
    late: bool,
}

/// Holds the first request of client 1 until the main actor's first input is answered, and the main actor's second input and the
/// first request of client 2 until that request is.
#[derive(Drop)]
struct HoldingGate<'r, R: Wait + Clock> {
    rt: &'r R,
    progress: Mutex<Progress>,
    changed: Condvar,
}

impl<'r, R: Wait + Clock> HoldingGate<'r, R> {
    fn new(rt: &'r R) -> HoldingGate<'r, R> {
        HoldingGate {
            rt,
            progress: Mutex::new(Progress {
                stage: 0,
                late: false,
            }),
            changed: Condvar::new(),
        }
    }

    /// Lets those go that wait for this stage.
    fn reach(&self, stage: u32) {
        self.progress.lock(self.rt).stage = stage;
        self.changed.notify_all();
    }

    /// Holds an actor until this stage is reached, or some actor is late.
    fn hold(&self, stage: u32) {
        let (mut progress, waited) = self.changed.wait_timeout_while(
            self.rt,
            self.progress.lock(self.rt),
            Duration::from_secs(MOST_SECONDS),
            |progress| progress.stage < stage && !progress.late,
        );
        if waited.timed_out() {
            progress.late = true;
        }
    }

    /// Whether some actor went on before it was let go.
    fn was_late(&self) -> bool {
        self.progress.lock(self.rt).late
    }
}

impl<R: Wait + Clock + Sync> Gate for HoldingGate<'_, R> {
    fn pass(&self, point: Point) {
        match point {
            Point::After {
                who: ClientId(0),
                at: 0,
            } => self.reach(1),
            Point::After {
                who: ClientId(1),
                at: 0,
            } => self.reach(2),
            Point::Before {
                who: ClientId(1),
                at: 0,
            } => self.hold(1),
            Point::Before {
                who: ClientId(0),
                at: 1,
            }
            | Point::Before {
                who: ClientId(2),
                at: 0,
            } => self.hold(2),
            _ => {}
        }
    }
}

/// A script that is read.
fn script_of(alloc: Global, text: &[u8]) -> Result<Script, Fail>
    ensures { IfOk result MeetsConditions }
{
    match script_lang::read(alloc, text) {
        Ok(script) => Ok(script),
        Err(_) => Err(Fail::from("no script")),
    }
}

/// A policy by which the shell sets any property.
fn policy(alloc: Global) -> Result<Policy, Fail> {
    match Policy::read(alloc, b"* default_prop\n", b"allow shell default_prop\n") {
        Ok(policy) => Ok(policy),
        Err(_) => Err(Fail::from("no policy")),
    }
}

/// What is raced, of a tree without actions and services.
fn setup_of(alloc: Global, script: &Script) -> Result<Setup, Fail>
    requires { MeetsConditions script.now }
    ensures config { IfOk result (λ setup. IsWellFormed setup.config) }
    ensures domains { IfOk result (λ setup. length script.now.clients ≡ length setup.config.domains) }
{
    let domains = domains_of(alloc, script.clients.items())?;
    let policy = policy(alloc)?;
    Ok(Setup {
        config: Config {
            actions: List::new(alloc),
            services: List::new(alloc),
            pairs: List::new(alloc),
            saved: List::new(alloc),
            plans: List::new(alloc),
            domains,
        },
        policy,
        diagnostics: List::new(alloc),
    })
}

/// The trace of a race, in which no actor was late.
fn trace_of<R: Threads + Wait + Clock + Sync>(
    rt: &R,
    alloc: Global,
    text: &[u8],
) -> Result<MemSink, Fail> {
    let script = script_of(alloc, text)?;
    let setup = setup_of(alloc, &script)?;
    let mut keeper = SteadyKeeper::new(Text::empty());
    let gate = HoldingGate::new(rt);
    let Ok(raced) = race(rt, alloc, setup, &script, &mut keeper, &gate) else {
        return Err(Fail::from("no race"));
    };
    if gate.was_late() {
        return Err(Fail::from("an actor waits for one that doesn't run beside it"));
    }
    let mut out = MemSink::new(alloc, List::new(alloc));
    if print(alloc, &raced.report, &mut out).is_err() {
        return Err(Fail::from("no trace"));
    }
    Ok(out)
}

/// What begins each trace here: two steps of the main actor with the set of `w` between them.
const FRONT: &[u8] = b"initsim 1
boot
next
 event early-init
 event init
 event late-init
 all-properties
 idle
set 1 a 1
 put 1 a 1
 accepted 1
next
 change a 1
 idle
client 1 w shell
client 2 r shell
";

/// A client's set comes between two steps of the main actor, and another client's requests behind it.
#[test]
fn a_set_between_two_steps(rt: HostRuntime) -> Result<(), Fail> {
    let script = b"client w shell
client r shell
step 1
step 1
@w set a 1
@r sync
@r read a
";
    let trace = trace_of(&rt, rt.alloc(), script)?;
    assert_eq!(rt;
        trace.taken().strip_prefix(FRONT).ok_or("another front")?,
        b" synced 1\n found a 1 1\nend\n".as_slice()
    );
    Ok(())
}

/// A client that never met the service reads what another has set.
#[test]
fn a_read_without_a_request(rt: HostRuntime) -> Result<(), Fail> {
    let script = b"client w shell
client r shell
step 1
step 1
@w set a 1
@r read a
";
    let trace = trace_of(&rt, rt.alloc(), script)?;
    assert_eq!(rt;
        trace.taken().strip_prefix(FRONT).ok_or("another front")?,
        b" found a 1 1\nend\n".as_slice()
    );
    Ok(())
}
