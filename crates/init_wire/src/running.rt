//! `run_wire`: the boot, and then the messages.

ghost use Rattle.std.specs.Prelude.{◌≡◌, ◌≢◌, ◌≤◌, [], List as Items, ℕ, Some, Err, length};
ghost use Rattle.init_base.specs.Faults.{Counted};
ghost use Rattle.init_core.specs.Core.{opening_of};
ghost use Rattle.init_machine.specs.WellFormed.{IsWellFormed};
ghost use Rattle.init_wire.specs.Served.{IsAnswered};
ghost use Rattle.prop_wire.specs.Refusals.{is_read_fault, is_write_fault};
ghost use Rattle.prop_wire.specs.declared.refusal.WireRefusal.TheVariants as refusal;
ghost use Rattle.property_area.specs.Area.{begins};

use crate::booting::boot;
use init_base::{Sink, Source, both};
use init_driver::{Setup, open_area};
use init_machine::Config;
use prop_contexts::Policy;
use prop_wire::{LastReply, WireRefusal, serve};
use property_area::{Area, AreaWriter, WriterSeat};
use property_service::{AreaName, Desk};
use std::alloc::Global;
use std::marker::Brand;

/// Boots the machine at a desk, and serves the messages.
fn serve_at<N: AreaName, S: Source, K: Sink>(
    alloc: Global,
    desk: &mut Desk<'_, N, LastReply>,
    from: &mut S,
    to: &mut K,
) -> Result<u64, WireRefusal>
    requires begun { (desk.old.history ≡ []) × (desk.old.seat.out ≡ []) }
    requires domains { length desk.old.opening.config.domains ≡ 1 }
    ensures answered { (held : Items ℕ) → S.left from.old ≡ Some held
        → IsAnswered desk.old.opening held (K.taken to.old) (K.taken to.new) result }
    ensures source { Counted (is_read_fault result) (S.fault_count from.old) (S.fault_count from.new) }
    ensures sink { Counted (is_write_fault result) (K.fault_count to.old) (K.fault_count to.new) }
    ensures unspent { result ≢ Err refusal.Spent }
{
    let reader = boot(desk)?;
    let (reader, served) = serve(alloc, desk, reader, from, to);
    drop(reader);
    served
}

/// Serves the messages over an area that is new.
fn serve_over<N: AreaName, S: Source, K: Sink>(
    alloc: Global,
    area: &Area,
    seat: WriterSeat,
    machine: (Config, Policy),
    from: &mut S,
    to: &mut K,
) -> Result<u64, WireRefusal>
    requires config { IsWellFormed machine.0 }
    requires domains { length machine.0.domains ≡ 1 }
    requires area { (area.now ≡ N.area) × (seat.table ≡ area.now) × (seat.view ≡ begins seat.view.words) }
    ensures answered { (held : Items ℕ) → S.left from.old ≡ Some held
        → IsAnswered (opening_of machine.0 machine.1 seat.view.words) held (K.taken to.old) (K.taken to.new) result }
    ensures source { Counted (is_read_fault result) (S.fault_count from.old) (S.fault_count from.new) }
    ensures sink { Counted (is_write_fault result) (K.fault_count to.old) (K.fault_count to.new) }
    ensures unspent { result ≢ Err refusal.Spent }
{
    let (config, policy) = machine;
    let writer = AreaWriter::new(area, seat);
    let mut desk = Desk::<N, LastReply>::new(alloc, config, policy, writer, LastReply::new())?;
    let served = serve_at(alloc, &mut desk, from, to);
    drop(desk);
    served
}

/// Boots the machine of a setup with one client over an area of so many words, and serves the messages that the source
/// holds, as `prop_wire::serve` does. Returns the number of messages.
///
/// The bytes decide how it ends, and what is written. `ReadFault` and `WriteFault` come only if the count of faults of the source, or of
/// the sink, rose, and `NoMemory` may come at any time. `Spent` never comes.
pub fn run_wire<S: Source, K: Sink>(
    alloc: Global,
    setup: Setup,
    words: u64,
    from: &mut S,
    to: &mut K,
) -> Result<u64, WireRefusal>
    requires config { IsWellFormed setup.config }
    requires domains { length setup.config.domains ≡ 1 }
    requires words { (64 ≤ words) × (words ≤ 1048576) }
    // If the source's contents are known, they decide what is written.
    ensures answered { (held : Items ℕ) → S.left from.old ≡ Some held
        → IsAnswered (opening_of setup.config setup.policy words) held (K.taken to.old) (K.taken to.new) result }
    ensures source { Counted (is_read_fault result) (S.fault_count from.old) (S.fault_count from.new) }
    ensures sink { Counted (is_write_fault result) (K.fault_count to.old) (K.fault_count to.new) }
    ensures unspent { result ≢ Err refusal.Spent }
{
    let Setup {
        config,
        policy,
        diagnostics: _found,
    } = setup;
    let (machine, (area, seat)) = both((config, policy), open_area(alloc, words))?;
    let served = serve_over::<Brand, S, K>(alloc, &area, seat, machine, from, to);
    drop(area);
    served
}
