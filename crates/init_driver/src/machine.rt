//! The machine of a run: it serves an area, and has the readers of its main actor and of its clients.

ghost use Rattle.std.specs.Prelude.{◌≡◌, ◌≤◌, ◌<◌, ◌∷◌, ◌++◌, ◌+◌, ◌==◌, ℕ, [], Some, None, false, length, map, IfOk, OnOk, slice_set, if◌then◌else◌};
ghost use Rattle.std.specs.List.{flat_map, slice_index_or};
ghost use Rattle.init_core.specs.Core.{IsDeclared, opening_of, without_saved};
ghost use Rattle.init_machine.specs.State.{first_state};
ghost use Rattle.init_machine.specs.WellFormed.{IsWellFormed};
ghost use Rattle.property_area.specs.Area.{begins};
ghost use Rattle.property_area.specs.Readers.{asker_of};
ghost use Rattle.property_service.specs.Back.{ComesBackFrom};
ghost use Rattle.property_service.specs.Record.{log_of, recorded};
ghost use Rattle.property_service.specs.Service.{MayAsk, has_seat, next_entry};
ghost use Rattle.script_lang.specs.Laws.{ReadsLegal};
ghost use Rattle.init_driver.specs.Learning.{HasSameHistory};
ghost use Rattle.init_driver.specs.Machine.{AllSeated, EachSeated, StaysSo, entry_of, machine_of, step_of, told_to};
ghost use Rattle.init_driver.specs.Readings.{readings_in as readings_told, told_now};
ghost use Rattle.init_driver.specs.Seat.{readings_at, told_with};

use crate::learning::learn;
use init_base::{ClientId, List, NoMemory};
use init_machine::{Config, Input, Pair, Reading};
use outputs::Outputs;
use prop_contexts::Policy;
use property_area::{Area, AreaWriter, Reader, WriterSeat};
use property_service::{AreaName, Closed, Desk, FinishRefusal};
use script_lang::Ask;
use std::alloc::Global;
use std::marker::Model;

/// The machine. After a call that answers `NoMemory` each later one does.
#[derive(Drop)]
pub struct Machine<'a, N: AreaName, O: Outputs> {
    desk: Desk<'a, N, O>,
    area: &'a Area,
    /// The readers of the main actor and of each client that the configuration declares.
    readers: Vec<Option<Reader>>,
    spent: bool,
}

impl<'a, N: AreaName, O: Outputs> Model for Machine<'a, N, O> {
    ghost use Rattle.std.specs.Prelude.{◌≡◌, false};
    ghost use Rattle.init_driver.specs.Machine.{AllSeated, MachineView, machine_of};

    ghost Value = { MachineView };

    ghost view = { λ m. machine_of m.desk m.readers.items m.spent };

    ghost invariant = { λ m. (m.area.now ≡ N.area) × (m.spent ≡ false → AllSeated N.area m.desk m.readers.items) };
}

impl<'a, N: AreaName, O: Outputs> Machine<'a, N, O> {
    /// The machine in its first state, over an area in which nothing was set. The main actor and each client enter. The outputs are
    /// what stands in while no input is taken.
    pub fn new(
        alloc: Global,
        config: Config,
        policy: Policy,
        area: &'a Area,
        seat: WriterSeat,
        outputs: O,
    ) -> Result<Machine<'a, N, O>, NoMemory>
        requires config { IsWellFormed config }
        requires named { area.now ≡ N.area }
        requires seat { seat.table ≡ area.now }
        requires begun { seat.view ≡ begins seat.view.words }
        ensures config { IfOk result (λ machine. machine.config ≡ without_saved config) }
        ensures policy { IfOk result (λ machine. machine.policy ≡ policy) }
        ensures state { IfOk result (λ machine. machine.state ≡ first_state (opening_of config policy seat.view.words)) }
        ensures opening { IfOk result (λ machine. machine.desk.opening ≡ opening_of config policy seat.view.words) }
        ensures history { IfOk result (λ machine. machine.desk.history ≡ []) }
        ensures told { IfOk result (λ machine. (who : ℕ) → told_to machine.readers who ≡ []) }
    {
        let clients = config.domains.len();
        let writer = AreaWriter::new(area, seat);
        let desk = Desk::new(alloc, config, policy, writer, outputs)?;
        Machine::open(alloc, area, desk, clients)
    }

    /// The machine over a desk at which nobody was yet.
    fn open(
        alloc: Global,
        area: &'a Area,
        mut desk: Desk<'a, N, O>,
        clients: usize,
    ) -> Result<Machine<'a, N, O>, NoMemory>
        requires named { area.now ≡ N.area }
        requires nobody { (who : ℕ) → has_seat desk.seat who ≡ false }
        requires few { clients ≤ 64 }
        requires known { clients ≡ length desk.opening.config.domains }
        requires ready { desk.spent ≡ false }
        ensures desk { IfOk result (λ machine. HasSameHistory desk.entry machine.desk) }
        ensures fits { IfOk result (λ machine. machine ≡ machine_of machine.desk machine.readers machine.spent) }
        ensures told { IfOk result (λ machine. (who : ℕ) → told_to machine.readers who ≡ []) }
    {
        let Ok(readers) = enter_all(alloc, &mut desk, clients + 1) else {
            drop(desk);
            return Err(NoMemory);
        };
        Ok(Machine {
            desk,
            area,
            readers,
            spent: false,
        })
    }

    /// Takes an input of its client: what the documented step does, and tells its outputs.
    pub fn take(&mut self, input: &Input, outputs: &mut O) -> Result<(), NoMemory>
        requires declared { IsDeclared self.old.config input.now }
        ensures config { OnOk result (self.new.config ≡ self.old.config) }
        ensures policy { OnOk result (self.new.policy ≡ self.old.policy) }
        ensures state { OnOk result (self.new.state ≡ (step_of self.old input.now).state) }
        ensures outputs { OnOk result (O.Adds outputs.old outputs.new (step_of self.old input.now).lines) }
        ensures opening { OnOk result (self.new.desk.opening ≡ self.old.desk.opening) }
        ensures history { OnOk result (self.new.desk.history
            ≡ self.old.desk.history ++ entry_of input.now (step_of self.old input.now).lines ∷ []) }
        ensures told { OnOk result ((who : ℕ) → told_to self.new.readers who ≡ told_to self.old.readers who) }
        ensures ready { OnOk result (self.new.spent ≡ false) }
    {
        if self.spent {
            return Err(NoMemory);
        }
        self.spent = true;
        let place = asker(input).0 as usize;
        let reader = lend(&mut self.readers, place)?;
        let reader = take_input(&mut self.desk, reader, input, outputs)?;
        self.readers[place] = Some(reader);
        self.spent = false;
        Ok(())
    }

    /// What a request tells its client now. A set tells nothing.
    pub fn learn(
        &mut self,
        alloc: Global,
        who: ClientId,
        ask: &Ask,
    ) -> Result<Option<Reading>, NoMemory>
        requires known { who.0 ≤ length self.old.config.domains }
        requires legal { ReadsLegal ask.now }
        ensures told { IfOk result (λ told. told ≡ told_now self.old.state ask.now) }
        ensures same { OnOk result (StaysSo self.old self.new) }
        ensures heard { IfOk result (λ told. (q : ℕ) → told_to self.new.readers q
            ≡ told_to self.old.readers q ++ (if who.0 == q then flat_map told_with (readings_told told) else [])) }
    {
        if self.spent {
            return Err(NoMemory);
        }
        self.spent = true;
        let place = who.0 as usize;
        let reader = lend(&mut self.readers, place)?;
        let (reader, told) = learn(alloc, &mut self.desk, self.area, reader, ask)?;
        self.readers[place] = Some(reader);
        self.spent = false;
        Ok(told)
    }

    /// The properties to be saved.
    pub fn saved(&self) -> &List<Pair>
        ensures { self.now.spent ≡ false → result.now ≡ self.now.state.saved }
    {
        self.desk.saved()
    }

    /// The policy by which sets are judged.
    pub fn policy(&self) -> &Policy
        ensures { self.now.spent ≡ false → result.now ≡ self.now.policy }
    {
        self.desk.policy()
    }

    /// Takes all readers in, and answers the seat of the area's writer. It has recorded the opening and the history, and the list
    /// of each client has what it was told.
    pub fn finish(self, alloc: Global) -> Result<WriterSeat, NoMemory>
        ensures opening { IfOk result (λ seat. seat.view.opening ≡ Some (recorded self.entry.desk.opening)) }
        ensures log { IfOk result (λ seat. seat.view.log ≡ log_of self.entry.desk.history) }
        ensures told { IfOk result (λ seat. (who : ℕ) → who ≤ length self.entry.config.domains
            → readings_at seat.view who ≡ told_to self.entry.readers who) }
    {
        let Machine {
            desk,
            area: _area,
            readers,
            spent,
        } = self;
        close(alloc, desk, readers, spent)
    }
}

/// Takes all readers in, unless memory ran out before.
fn close<N: AreaName, O: Outputs>(
    alloc: Global,
    desk: Desk<'_, N, O>,
    readers: Vec<Option<Reader>>,
    spent: bool,
) -> Result<WriterSeat, NoMemory>
    requires { spent ≡ false → AllSeated N.area desk readers.items }
    ensures opening { IfOk result (λ seat. seat.view.opening ≡ Some (recorded desk.entry.opening)) }
    ensures log { IfOk result (λ seat. seat.view.log ≡ log_of desk.entry.history) }
    ensures told { IfOk result (λ seat. (who : ℕ) → who ≤ length desk.entry.opening.config.domains
        → readings_at seat.view who ≡ told_to readers.items who) }
{
    if spent {
        drop(desk);
        return Err(NoMemory);
    }
    let Ok(readers) = all_of(alloc, readers) else {
        drop(desk);
        return Err(NoMemory);
    };
    match desk.finish(readers) {
        Ok(closed) => Ok(seat_of(closed)),
        Err(FinishRefusal::Spent) => Err(NoMemory),
        Err(FinishRefusal::Missing { .. }) => unreachable!(),
    }
}

/// The seat of the area's writer, of what a desk leaves.
fn seat_of(closed: Closed) -> WriterSeat
    ensures { result ≡ closed.seat }
{
    closed.seat
}

/// Whose input it is: the main actor's, 0, but for a set.
fn asker(input: &Input) -> ClientId
    ensures { result.0 ≡ asker_of input.now }
{
    match input {
        Input::Set { who, .. } => *who,
        _ => ClientId(0),
    }
}

/// Takes an input of the reader's client, and tells its outputs.
fn take_input<N: AreaName, O: Outputs>(
    desk: &mut Desk<'_, N, O>,
    reader: Reader,
    input: &Input,
    outputs: &mut O,
) -> Result<Reader, NoMemory>
    requires area { reader.table ≡ N.area }
    requires asker { reader.view.who ≡ asker_of input.now }
    requires declared { MayAsk reader.view.opening input.now }
    ensures outputs { OnOk result (O.Adds outputs.old outputs.new (next_entry desk.old input.now).outputs) }
    ensures reader { IfOk result (λ back. ComesBackFrom desk.old.history (next_entry desk.old input.now) reader back) }
    ensures history { OnOk result (desk.new.history ≡ desk.old.history ++ next_entry desk.old input.now ∷ []) }
    ensures opening { OnOk result (desk.new.opening ≡ desk.old.opening) }
    ensures ready { OnOk result (desk.new.spent ≡ false) }
{
    let (back, taken) = desk.take(reader, input, outputs);
    let Ok(()) = taken else {
        return Err(NoMemory);
    };
    back.ok_or(NoMemory)
}

/// Takes a client's reader out of its place. It isn't there where memory ran out while it was away.
fn lend(readers: &mut Vec<Option<Reader>>, place: usize) -> Result<Reader, NoMemory>
    requires { place < length readers.old.items }
    ensures reader { IfOk result (λ reader. Some reader ≡ slice_index_or readers.old.items place (Some reader)) }
    ensures rest { OnOk result (readers.new.items ≡ slice_set readers.old.items place None) }
{
    match readers[place].take() {
        Some(reader) => Ok(reader),
        None => Err(NoMemory),
    }
}

/// The readers of the main actor and of the clients, so many in all, which enter one after another.
fn enter_all<N: AreaName, O: Outputs>(
    alloc: Global,
    desk: &mut Desk<'_, N, O>,
    count: usize,
) -> Result<Vec<Option<Reader>>, NoMemory>
    requires nobody { (who : ℕ) → has_seat desk.old.seat who ≡ false }
    requires known { count ≤ length desk.old.opening.config.domains + 1 }
    requires few { count ≤ 65 }
    requires ready { desk.old.spent ≡ false }
    ensures seated { IfOk result (λ readers. EachSeated N.area desk.old.opening 0 readers.items) }
    ensures many { IfOk result (λ readers. length readers.items ≡ count) }
    ensures told { IfOk result (λ readers. (who : ℕ) → told_to readers.items who ≡ []) }
    ensures desk { OnOk result (HasSameHistory desk.old desk.new) }
{
    let mut readers = Vec::new(alloc);
    for place in 0..count {
        let reader = desk.enter(ClientId(place as u32))?;
        readers.push(Some(reader))?;
    }
    Ok(readers)
}

/// The readers, which are all there while memory lasts.
fn all_of(alloc: Global, readers: Vec<Option<Reader>>) -> Result<List<Reader>, NoMemory>
    ensures { IfOk result (λ all. map (λ reader. Some reader) all ≡ readers.items) }
{
    let mut all = Vec::new(alloc);
    for reader in readers {
        match reader {
            Some(reader) => all.push(reader)?,
            None => return Err(NoMemory),
        }
    }
    Ok(List::from_vec(all))
}
