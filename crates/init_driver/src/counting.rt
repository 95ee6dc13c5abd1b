//! `count`: a script on one thread, of which nothing is written and the report is counted.

ghost use Rattle.std.specs.Prelude.{◌≡◌, ◌≤◌, ◌∷◌, ℕ, [], List as Items, All, IfOk, OnOk, false, length, replicate};
ghost use Rattle.std.specs.List.{flat_map};
ghost use Rattle.init_core.specs.Core.{IsDeclared, opening_of, without_saved};
ghost use Rattle.init_driver.specs.internal.Counted.{CountsOn, inputs_in, is_step};
ghost use Rattle.init_driver.specs.Course.{HasDone, told_from};
ghost use Rattle.init_driver.specs.Machine.{told_to};
ghost use Rattle.init_driver.specs.Run.{AsksAreMet, report_from, report_of};
ghost use Rattle.init_driver.specs.Seat.{AreTold, HasRecorded};
ghost use Rattle.init_machine.specs.WellFormed.{IsWellFormed};
ghost use Rattle.init_machine.specs.declared.diagnostic.Diagnostic.{Diagnostic};
ghost use Rattle.init_machine.specs.declared.input.Input.TheVariants as Input;
ghost use Rattle.property_area.specs.Area.{begins};
ghost use Rattle.script_lang.specs.Inputs.{act_inputs, ask_inputs};
ghost use Rattle.script_lang.specs.Laws.{IsAskAmong};
ghost use Rattle.soak_summary.specs.Counting.{tally_of};
ghost use Rattle.soak_summary.specs.Counts.{counted_of};

use crate::machine::Machine;
use crate::running::{Setup, open_area, open_parts};
use crate::telling::tell;
use init_base::{ClientId, NoMemory};
use init_machine::{ClientPart, Input};
use property_area::{Area, WriterSeat};
use property_service::AreaName;
use script_lang::{Act, Ask, Script};
use soak_summary::{Counter, Tally};
use std::alloc::Global;
use std::marker::Brand;

/// Runs a script as `run` does, over an area of its words, and counts the entries in place of writing them. It keeps no history,
/// no keeper is given anything, and the diagnostics count for nothing.
///
/// The answer is the tally of the report that `run` would write, and the seat of the area's writer, which has recorded that report.
/// `NoMemory` comes also where a plain store of 65,536 words can't take the sets again.
pub fn count(alloc: Global, setup: Setup, script: &Script) -> Result<(Tally, WriterSeat), NoMemory>
    requires config { IsWellFormed setup.config }
    requires domains { length script.now.clients ≤ length setup.config.domains }
    requires words { (64 ≤ script.now.words) × (script.now.words ≤ 1048576) }
    requires asks { AsksAreMet script.now }
    ensures tally { IfOk result (λ made. let o = opening_of setup.config setup.policy script.now.words in
        made.0 ≡ tally_of (report_of o setup.diagnostics script.now)) }
    ensures seat { IfOk result (λ made. let o = opening_of setup.config setup.policy script.now.words in
        HasRecorded o (report_of o setup.diagnostics script.now) made.1.view) }
{
    let (area, seat) = open_area(alloc, script.words)?;
    count_over::<Brand>(alloc, &area, seat, setup, script)
}

/// Counts a run over an area in which nothing was set.
fn count_over<N: AreaName>(
    alloc: Global,
    area: &Area,
    seat: WriterSeat,
    setup: Setup,
    script: &Script,
) -> Result<(Tally, WriterSeat), NoMemory>
    requires config { IsWellFormed setup.config }
    requires domains { length script.now.clients ≤ length setup.config.domains }
    requires named { area.now ≡ N.area }
    requires seat { (seat.table ≡ area.now) × (seat.view ≡ begins script.now.words) }
    requires asks { AsksAreMet script.now }
    ensures tally { IfOk result (λ made. let o = opening_of setup.config setup.policy script.now.words in
        made.0 ≡ tally_of (report_of o setup.diagnostics script.now)) }
    ensures seat { IfOk result (λ made. let o = opening_of setup.config setup.policy script.now.words in
        HasRecorded o (report_of o setup.diagnostics script.now) made.1.view) }
{
    let Setup {
        config,
        policy,
        diagnostics: _found,
    } = setup;
    let core = Machine::<N, Counter>::new(alloc, config, policy, area, seat, Counter::new(alloc)?)?;
    count_whole(alloc, core, script)
}

/// Counts a script, from the state of the machine on, and ends the machine.
fn count_whole<N: AreaName>(
    alloc: Global,
    mut core: Machine<'_, N, Counter>,
    script: &Script,
) -> Result<(Tally, WriterSeat), NoMemory>
    requires domains { length script.now.clients ≤ length core.config.domains }
    requires asks { AsksAreMet script.now }
    requires fresh { (who : ℕ) → told_to core.readers who ≡ [] }
    requires begun { core.desk.history ≡ [] }
    requires same { core.config ≡ without_saved core.desk.opening.config }
    ensures tally { IfOk result (λ made. (found : Items Diagnostic) →
        made.0 ≡ tally_of (report_from core.entry.config core.entry.policy core.entry.state found script.now)) }
    ensures seat { IfOk result (λ made. (found : Items Diagnostic) →
        HasRecorded core.entry.desk.opening
        (report_from core.entry.config core.entry.policy core.entry.state found script.now) made.1.view) }
{
    match count_script(alloc, &mut core, script) {
        Ok(tally) => Ok((tally, core.finish(alloc)?)),
        Err(NoMemory) => {
            drop(core);
            Err(NoMemory)
        }
    }
}

/// Counts the boot and the acts of a script, from the state of the machine on, and what the clients find.
fn count_script<N: AreaName>(
    alloc: Global,
    core: &mut Machine<'_, N, Counter>,
    script: &Script,
) -> Result<Tally, NoMemory>
    requires domains { length script.now.clients ≤ length core.old.config.domains }
    requires asks { AsksAreMet script.now }
    requires fresh { (who : ℕ) → told_to core.old.readers who ≡ [] }
    ensures tally { IfOk result (λ tally. (found : Items Diagnostic) →
        tally ≡ tally_of (report_from core.old.config core.old.policy core.old.state found script.now)) }
    ensures done { OnOk result ((found : Items Diagnostic) →
        HasDone core.old core.new (report_from core.old.config core.old.policy core.old.state found script.now)) }
{
    let mut counts = Counter::new(alloc)?;
    count_all(alloc, core, &mut counts, script)
}

/// The same by a counter that has counted nothing.
fn count_all<N: AreaName>(
    alloc: Global,
    core: &mut Machine<'_, N, Counter>,
    counts: &mut Counter,
    script: &Script,
) -> Result<Tally, NoMemory>
    requires domains { length script.now.clients ≤ length core.old.config.domains }
    requires asks { AsksAreMet script.now }
    requires fresh { (who : ℕ) → told_to core.old.readers who ≡ [] }
    requires none { counts.old ≡ counted_of [] }
    ensures tally { IfOk result (λ tally. (found : Items Diagnostic) →
        tally ≡ tally_of (report_from core.old.config core.old.policy core.old.state found script.now)) }
    ensures done { OnOk result ((found : Items Diagnostic) →
        HasDone core.old core.new (report_from core.old.config core.old.policy core.old.state found script.now)) }
{
    let mut parts = open_parts(alloc, script.clients.items())?;
    count_input(core, counts, &Input::Boot)?;
    count_acts(alloc, core, counts, script.acts.items(), &mut parts)?;
    counts.tally(parts.as_slice())
}

/// Counts acts: their inputs one after another, and tells each client what its requests tell at their places.
fn count_acts<N: AreaName>(
    alloc: Global,
    core: &mut Machine<'_, N, Counter>,
    counts: &mut Counter,
    acts: &[Act],
    parts: &mut Vec<ClientPart>,
) -> Result<(), NoMemory>
    requires domains { length parts.old.items ≤ length core.old.config.domains }
    requires asks { All (IsAskAmong (length parts.old.items)) acts.now }
    requires heard { AreTold (told_to core.old.readers) 1 parts.old.items }
    ensures counts { OnOk result (CountsOn (flat_map act_inputs acts.now) core.old core.new counts.old counts.new) }
    ensures told { OnOk result (parts.new.items
        ≡ told_from core.old.config core.old.policy core.old.state acts.now 1 parts.old.items) }
    ensures heard { OnOk result (AreTold (told_to core.new.readers) 1 parts.new.items) }
{
    for act in acts {
        tell(alloc, core, act, parts)?;
        count_act(core, counts, act)?;
    }
    Ok(())
}

/// Counts the inputs of an act.
fn count_act<N: AreaName>(
    core: &mut Machine<'_, N, Counter>,
    counts: &mut Counter,
    act: &Act,
) -> Result<(), NoMemory>
    requires asked { IsAskAmong (length core.old.config.domains) act.now }
    ensures counts { OnOk result (CountsOn (act_inputs act.now) core.old core.new counts.old counts.new) }
    ensures still { OnOk result ((who : ℕ) → told_to core.new.readers who ≡ told_to core.old.readers who) }
{
    if let Act::Step(count) = act {
        return count_steps(core, counts, *count);
    }
    match input_of(act)? {
        Some(input) => count_input(core, counts, &input),
        None => Ok(()),
    }
}

/// Counts so many times the next event or command.
fn count_steps<N: AreaName>(
    core: &mut Machine<'_, N, Counter>,
    counts: &mut Counter,
    count: u32,
) -> Result<(), NoMemory>
    ensures counts { OnOk result (CountsOn (replicate count Input.Next) core.old core.new counts.old counts.new) }
    ensures still { OnOk result ((who : ℕ) → told_to core.new.readers who ≡ told_to core.old.readers who) }
{
    for _ in 0..count {
        count_input(core, counts, &Input::Next)?;
    }
    Ok(())
}

/// Takes an input, and counts its entry.
fn count_input<N: AreaName>(
    core: &mut Machine<'_, N, Counter>,
    counts: &mut Counter,
    input: &Input,
) -> Result<(), NoMemory>
    requires declared { IsDeclared core.old.config input.now }
    ensures counts { OnOk result (CountsOn (input.now ∷ []) core.old core.new counts.old counts.new) }
    ensures still { OnOk result ((who : ℕ) → told_to core.new.readers who ≡ told_to core.old.readers who) }
{
    counts.begin_entry()?;
    core.take(input, counts)
}

/// The input of an act that is no `step`, if it has one.
fn input_of(act: &Act) -> Result<Option<Input>, NoMemory>
    requires { is_step act.now ≡ false }
    ensures { IfOk result (λ input. inputs_in input ≡ act_inputs act.now) }
{
    Ok(match act {
        Act::Step(_) => unreachable!(),
        Act::Tick(ms) => Some(Input::Tick { ms: *ms }),
        Act::Exit { name, status } => Some(Input::Exit {
            name: name.share()?,
            status: *status,
        }),
        Act::File { path, content } => Some(Input::File {
            path: path.share()?,
            content: content.share()?,
        }),
        Act::Ask { who, ask } => input_of_ask(*who, ask)?,
    })
}

/// The input of a request, if it has one.
fn input_of_ask(who: ClientId, ask: &Ask) -> Result<Option<Input>, NoMemory>
    ensures { IfOk result (λ input. inputs_in input ≡ ask_inputs who ask.now) }
{
    Ok(match ask {
        Ask::Set(pair) => Some(Input::Set {
            who,
            name: pair.name.share()?,
            value: pair.value.share()?,
        }),
        Ask::Read(_) | Ask::Sync | Ask::Catch => None,
    })
}
