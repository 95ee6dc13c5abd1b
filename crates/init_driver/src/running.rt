//! `run`: a script on one thread.

ghost use Rattle.std.specs.Prelude.{◌≡◌, ◌≤◌, ◌∷◌, ℕ, [], IfOk, OnOk, length};
ghost use Rattle.init_base.specs.Faults.{Counted};
ghost use Rattle.init_core.specs.Core.{opening_of};
ghost use Rattle.init_driver.specs.Course.{HasDone, IsReached, Prints, Takes, place_of, view_of};
ghost use Rattle.init_driver.specs.Keeper.{seen_by};
ghost use Rattle.init_driver.specs.Machine.{told_to};
ghost use Rattle.init_driver.specs.Readings.{empty_parts, parts_from};
ghost use Rattle.init_driver.specs.Run.{AsksAreMet, Leaves, due_from, due_of, keeper_failed, report_from, report_of, sink_failed};
ghost use Rattle.init_driver.specs.Seat.{AreTold, HasRecorded};
ghost use Rattle.init_machine.specs.History.{after_from};
ghost use Rattle.init_machine.specs.WellFormed.{IsWellFormed};
ghost use Rattle.init_machine.specs.declared.input.Input.TheVariants as Input;
ghost use Rattle.init_trace.specs.Report.{TailText};
ghost use Rattle.property_area.specs.Area.{begins};
ghost use Rattle.script_lang.specs.Inputs.{InOrder};

use crate::acts::{take, take_acts};
use crate::machine::Machine;
use crate::refusal::DriveRefusal;
use crate::traced::Traced;
use init_base::{Keeper, List, NoMemory, Sink};
use init_machine::{ClientPart, Config, Diagnostic, Input};
use init_trace::Printer;
use prop_contexts::Policy;
use property_area::{Area, AreaRefusal, WriterSeat};
use property_service::AreaName;
use script_lang::{Client, Script};
use std::alloc::Global;
use std::marker::Brand;

/// What a machine is opened with, and the mistakes that were found in its files.
#[derive(Drop)]
pub struct Setup {
    pub config: Config,
    pub policy: Policy,
    pub diagnostics: List<Diagnostic>,
}

/// Runs a script over an area of its words: takes the boot and then all acts in the order of the file, and writes the text of the
/// report as it goes. It keeps no history.
///
/// A `step` is so many times the next event or command. A read finds the present value with the present count of accepted
/// sets, or tells with that count that the property is absent; `sync` and `catch` tell the count. Each is what a reader of the area
/// answers. At each entry with a `stored` output the keeper is given the text of the saved pairs before the entry is written.
///
/// The answer is the seat of the area's writer. It has recorded the opening and the history of the report, and each client was told by
/// the area what its part of the report has, each look-up behind a count of the sets that is its own number.
///
/// `Keeper` comes only where the keeper's count of faults rose: then exactly the head and the entries before one that stores a
/// property are written; that the keeper refused its text is said where the keeper tells what a crash leaves. `Write` comes only
/// where the sink's count rose. After it, and after `NoMemory`, a front of the text is written.
///
/// At each refusal so many entries are written whole. The keeper then stands as at the last of them, or at the next entry:
/// after `Write` it took each text up to there. Where it tells what a crash leaves, a crash now leaves the text that was given
/// last up to there, at any refusal; and a crash at a moment since the call began left one of the texts that were given, or
/// what it could leave before.
pub fn run<P: Keeper, K: Sink>(
    alloc: Global,
    setup: Setup,
    script: &Script,
    keeper: &mut P,
    out: &mut K,
) -> Result<WriterSeat, DriveRefusal>
    requires config { IsWellFormed setup.config }
    requires domains { length script.now.clients ≤ length setup.config.domains }
    requires words { (64 ≤ script.now.words) × (script.now.words ≤ 1048576) }
    requires asks { AsksAreMet script.now }
    ensures leaves { let seen = seen_by P.held P.TellsCrash P.moment P.MayLeave in
        Leaves result (K.taken out.old) (K.taken out.new) (seen keeper.old) (seen keeper.new)
        (due_of (opening_of setup.config setup.policy script.now.words) setup.diagnostics script.now) }
    ensures seat { IfOk result (λ seat. let o = opening_of setup.config setup.policy script.now.words in
        HasRecorded o (report_of o setup.diagnostics script.now) seat.view) }
    ensures keeper { Counted (keeper_failed result) (P.fault_count keeper.old) (P.fault_count keeper.new) }
    ensures sink { Counted (sink_failed result) (K.fault_count out.old) (K.fault_count out.new) }
{
    let (area, seat, printers) = open_room(alloc, script.words)?;
    run_over::<Brand, P, K>(alloc, &area, seat, printers, setup, script, keeper, out)
}

/// An area of so many words and its writer's seat, and two printers, of which the first is empty.
fn open_room(alloc: Global, words: u64) -> Result<(Area, WriterSeat, (Printer, Printer)), NoMemory>
    requires { (64 ≤ words) × (words ≤ 1048576) }
    ensures seat { IfOk result (λ made. (made.1.table ≡ made.0) × (made.1.view ≡ begins words)) }
    ensures empty { IfOk result (λ made. made.2.0.bytes ≡ []) }
{
    let printers = (Printer::new(alloc)?, Printer::new(alloc)?);
    let (area, seat) = open_area(alloc, words)?;
    Ok((area, seat, printers))
}

/// An area of so many words, and its writer's seat.
pub fn open_area(alloc: Global, words: u64) -> Result<(Area, WriterSeat), NoMemory>
    requires { (64 ≤ words) × (words ≤ 1048576) }
    ensures { IfOk result (λ made. (made.1.table ≡ made.0) × (made.1.view ≡ begins words)) }
{
    match Area::new(alloc, words) {
        Ok(made) => Ok(made),
        Err(AreaRefusal::NoMemory) => Err(NoMemory),
        Err(_) => unreachable!(),
    }
}

/// Runs a script over an area in which nothing was set.
fn run_over<N: AreaName, P: Keeper, K: Sink>(
    alloc: Global,
    area: &Area,
    seat: WriterSeat,
    printers: (Printer, Printer),
    setup: Setup,
    script: &Script,
    keeper: &mut P,
    out: &mut K,
) -> Result<WriterSeat, DriveRefusal>
    requires config { IsWellFormed setup.config }
    requires domains { length script.now.clients ≤ length setup.config.domains }
    requires empty { printers.0.bytes ≡ [] }
    requires named { area.now ≡ N.area }
    requires seat { (seat.table ≡ area.now) × (seat.view ≡ begins script.now.words) }
    requires asks { AsksAreMet script.now }
    ensures leaves { let seen = seen_by P.held P.TellsCrash P.moment P.MayLeave in
        Leaves result (K.taken out.old) (K.taken out.new) (seen keeper.old) (seen keeper.new)
        (due_of (opening_of setup.config setup.policy script.now.words) setup.diagnostics script.now) }
    ensures seat { IfOk result (λ seat. let o = opening_of setup.config setup.policy script.now.words in
        HasRecorded o (report_of o setup.diagnostics script.now) seat.view) }
    ensures keeper { Counted (keeper_failed result) (P.fault_count keeper.old) (P.fault_count keeper.new) }
    ensures sink { Counted (sink_failed result) (K.fault_count out.old) (K.fault_count out.new) }
{
    let Setup {
        config,
        policy,
        diagnostics,
    } = setup;
    let (printer, told) = printers;
    let core = Machine::<N, Printer>::new(alloc, config, policy, area, seat, told)?;
    let traced = Traced { core, printer };
    drive_whole(alloc, traced, &diagnostics, script, keeper, out)
}

/// Writes the whole report of a script, and ends the machine.
fn drive_whole<N: AreaName, P: Keeper, K: Sink>(
    alloc: Global,
    mut traced: Traced<'_, N>,
    diagnostics: &List<Diagnostic>,
    script: &Script,
    keeper: &mut P,
    out: &mut K,
) -> Result<WriterSeat, DriveRefusal>
    requires reached { IsReached traced.core.config traced.core.policy traced.core.state }
    requires empty { traced.printer.bytes ≡ [] }
    requires domains { length script.now.clients ≤ length traced.core.config.domains }
    requires asks { AsksAreMet script.now }
    requires fresh { (who : ℕ) → told_to traced.core.readers who ≡ [] }
    requires begun { traced.core.desk.history ≡ [] }
    ensures leaves { let seen = seen_by P.held P.TellsCrash P.moment P.MayLeave in
        Leaves result (K.taken out.old) (K.taken out.new) (seen keeper.old) (seen keeper.new)
        (due_from traced.entry.core.config traced.entry.core.policy traced.entry.core.state diagnostics.now script.now) }
    ensures seat { IfOk result (λ seat. HasRecorded traced.entry.core.desk.opening
        (report_from traced.entry.core.config traced.entry.core.policy traced.entry.core.state diagnostics.now script.now) seat.view) }
    ensures keeper { Counted (keeper_failed result) (P.fault_count keeper.old) (P.fault_count keeper.new) }
    ensures sink { Counted (sink_failed result) (K.fault_count out.old) (K.fault_count out.new) }
{
    match drive(alloc, &mut traced, diagnostics, script, keeper, out) {
        Ok(()) => Ok(traced.into_core().finish(alloc)?),
        Err(refusal) => {
            drop(traced);
            Err(refusal)
        }
    }
}

/// Writes the whole report of a script, from the state of the machine on.
fn drive<N: AreaName, P: Keeper, K: Sink>(
    alloc: Global,
    traced: &mut Traced<'_, N>,
    diagnostics: &List<Diagnostic>,
    script: &Script,
    keeper: &mut P,
    out: &mut K,
) -> Result<(), DriveRefusal>
    requires reached { IsReached traced.old.core.config traced.old.core.policy traced.old.core.state }
    requires empty { traced.old.printer.bytes ≡ [] }
    requires domains { length script.now.clients ≤ length traced.old.core.config.domains }
    requires asks { AsksAreMet script.now }
    requires fresh { (who : ℕ) → told_to traced.old.core.readers who ≡ [] }
    ensures leaves { let seen = seen_by P.held P.TellsCrash P.moment P.MayLeave in
        Leaves result (K.taken out.old) (K.taken out.new) (seen keeper.old) (seen keeper.new)
        (due_from traced.old.core.config traced.old.core.policy traced.old.core.state diagnostics.now script.now) }
    ensures done { OnOk result (HasDone traced.old.core traced.new.core
        (report_from traced.old.core.config traced.old.core.policy traced.old.core.state diagnostics.now script.now)) }
    ensures keeper { Counted (keeper_failed result) (P.fault_count keeper.old) (P.fault_count keeper.new) }
    ensures sink { Counted (sink_failed result) (K.fault_count out.old) (K.fault_count out.new) }
{
    traced.print_head(diagnostics, out)?;
    let parts = take_script(alloc, traced, script, keeper, out)?;
    finish(traced, &parts, out)
}

/// Takes the boot and the acts of a script, and answers what the clients learn.
fn take_script<N: AreaName, P: Keeper, K: Sink>(
    alloc: Global,
    traced: &mut Traced<'_, N>,
    script: &Script,
    keeper: &mut P,
    out: &mut K,
) -> Result<List<ClientPart>, DriveRefusal>
    requires reached { IsReached traced.old.core.config traced.old.core.policy traced.old.core.state }
    requires domains { length script.now.clients ≤ length traced.old.core.config.domains }
    requires asks { AsksAreMet script.now }
    requires fresh { (who : ℕ) → told_to traced.old.core.readers who ≡ [] }
    ensures takes { let seen = seen_by P.held P.TellsCrash P.moment P.MayLeave in
        Takes (InOrder script.now) (place_of (view_of traced.old) (K.taken out.old) (seen keeper.old))
        (place_of (view_of traced.new) (K.taken out.new) (seen keeper.new)) result }
    ensures parts { IfOk result (λ parts. parts ≡ parts_from traced.old.core.config traced.old.core.policy
        (after_from traced.old.core.config traced.old.core.policy traced.old.core.state (Input.Boot ∷ []))
        script.now.acts 1 script.now.clients) }
    ensures heard { IfOk result (λ parts. AreTold (told_to traced.new.core.readers) 1 parts) }
    ensures keeper { Counted (keeper_failed result) (P.fault_count keeper.old) (P.fault_count keeper.new) }
    ensures sink { Counted (sink_failed result) (K.fault_count out.old) (K.fault_count out.new) }
{
    let mut parts = open_parts(alloc, script.clients.items())?;
    take(alloc, traced, &Input::Boot, keeper, out)?;
    take_acts(alloc, traced, script.acts.items(), &mut parts, keeper, out)?;
    Ok(List::from_vec(parts))
}

/// The parts of clients that learned nothing yet.
pub fn open_parts(alloc: Global, clients: &[Client]) -> Result<Vec<ClientPart>, NoMemory>
    ensures { IfOk result (λ parts. parts.items ≡ empty_parts clients.now) }
{
    let mut parts = Vec::new(alloc);
    for client in clients {
        parts.push(ClientPart {
            name: client.name.share()?,
            domain: client.domain.share()?,
            readings: List::new(alloc),
        })?;
    }
    Ok(parts)
}

/// Prints the tail of the report, and writes all that waits.
fn finish<N: AreaName, K: Sink>(
    traced: &mut Traced<'_, N>,
    parts: &List<ClientPart>,
    out: &mut K,
) -> Result<(), DriveRefusal>
    ensures prints { Prints (K.taken out.old) (K.taken out.new) result traced.old.printer.bytes [] (TailText parts.now) }
    ensures core { traced.new.core ≡ traced.old.core }
    ensures sink { Counted (sink_failed result) (K.fault_count out.old) (K.fault_count out.new) }
{
    traced.print_tail(parts, out)?;
    traced.flush(out)
}
