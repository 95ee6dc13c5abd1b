//! `serve`: serves a stream of a client's messages at a desk.

ghost use Rattle.std.specs.Prelude.{◌≡◌, ◌+◌, ◌≤◌, ◌↔◌, ℕ, List as Items, [], Some, Err, length, true, false};
ghost use Rattle.init_base.specs.Faults.{Counted};
ghost use Rattle.property_service.specs.Service.{DeclaredIn};
ghost use Rattle.wire_format.specs.Feeding.{tail};
ghost use Rattle.prop_wire.specs.Limit.{max_stream, stream_of};
ghost use Rattle.prop_wire.specs.Refusals.{is_read_fault, is_write_fault};
ghost use Rattle.prop_wire.specs.Serving.{GoesOn, Serves, TellsLimit, place_of};
ghost use Rattle.prop_wire.specs.internal.Course.{AnswersPiece, CanAsk, RemainsServing, ServesSource, who_in};
ghost use Rattle.prop_wire.specs.internal.Streams.{IsTail, tail_of};
ghost use Rattle.prop_wire.specs.declared.refusal.WireRefusal.TheVariants as refusal;

use crate::answering::answer_all;
use crate::desk::WireDesk;
use crate::refusal::WireRefusal;
use crate::replying::refuse;
use crate::stream::Stream;
use init_base::{Sink, Source};
use property_area::Reader;
use std::alloc::Global;

/// Serves the messages that a source holds, of which it reads at most 16,777,216 bytes. Each message is a set by the reader's client.
/// Its reply is written before more is read. Returns the number of messages.
///
/// `Spent` comes exactly if an earlier call on the desk ran out of memory. Then nothing is read or written. Else the bytes decide:
/// - `BadCommand` and `BadLength` come exactly if such a word follows the whole messages. An error word answers it, and nothing after
///   it is read.
/// - Else `TooLong` comes exactly if the source holds more bytes.
/// - Else `Torn` comes exactly if the source ends within a message.
///
/// `ReadFault` and `WriteFault` may come before the end is reached, but only if the count of faults of the source, or of the sink,
/// rose. `NoMemory` may come at any time. The reader comes back unless memory ran out.
pub fn serve<D: WireDesk, S: Source, K: Sink>(
    alloc: Global,
    desk: &mut D,
    reader: Reader,
    from: &mut S,
    to: &mut K,
) -> (Option<Reader>, Result<u64, WireRefusal>)
    requires table { reader.table ≡ D.area }
    requires client { DeclaredIn reader.view.opening reader.view.who }
    // If the source's contents are known, they decide what is set and written.
    ensures serves { (held : Items ℕ) → S.left from.old ≡ Some held → Serves reader.view.who 0 (stream_of held)
        (place_of (D.view desk.old) (K.taken to.old)) (place_of (D.view desk.new) (K.taken to.new)) result.1 }
    ensures limit { (held : Items ℕ) → S.left from.old ≡ Some held → TellsLimit held result.1 }
    ensures goes_on { GoesOn reader result.0 (D.view desk.new) result.1 }
    ensures spent { (result.1 ≡ Err refusal.Spent) ↔ ((D.view desk.old).spent ≡ true) }
    ensures unchanged { result.1 ≡ Err refusal.Spent → (D.view desk.new ≡ D.view desk.old) × (result.0 ≡ Some reader)
        × (S.left from.new ≡ S.left from.old) × (K.taken to.new ≡ K.taken to.old) }
    ensures source { Counted (is_read_fault result.1) (S.fault_count from.old) (S.fault_count from.new) }
    ensures sink { Counted (is_write_fault result.1) (K.fault_count to.old) (K.fault_count to.new) }
{
    if desk.is_spent() {
        return (Some(reader), Err(WireRefusal::Spent));
    }
    let mut reader = Some(reader);
    let served = serve_stream(alloc, desk, &mut reader, from, to);
    (reader, served)
}

/// Serves a stream at a desk that isn't spent.
fn serve_stream<D: WireDesk, S: Source, K: Sink>(
    alloc: Global,
    desk: &mut D,
    reader: &mut Option<Reader>,
    from: &mut S,
    to: &mut K,
) -> Result<u64, WireRefusal>
    requires ready { (D.view desk.old).spent ≡ false }
    requires reader { CanAsk D.area reader.old }
    ensures serves { ServesSource (S.left from.old) (S.left from.new) (who_in reader.old)
        (place_of (D.view desk.old) (K.taken to.old)) (place_of (D.view desk.new) (K.taken to.new)) result }
    ensures remains { RemainsServing result reader.old reader.new (D.view desk.new).spent }
    ensures source { Counted (is_read_fault result) (S.fault_count from.old) (S.fault_count from.new) }
    ensures sink { Counted (is_write_fault result) (K.fault_count to.old) (K.fault_count to.new) }
{
    let mut stream = Stream::new(alloc)?;
    serve_pieces(alloc, desk, reader, &mut stream, from, to)
}

/// Serves a stream piece by piece, from its first read.
fn serve_pieces<D: WireDesk, S: Source, K: Sink>(
    alloc: Global,
    desk: &mut D,
    reader: &mut Option<Reader>,
    stream: &mut Stream,
    from: &mut S,
    to: &mut K,
) -> Result<u64, WireRefusal>
    requires ready { (D.view desk.old).spent ≡ false }
    requires reader { CanAsk D.area reader.old }
    requires fresh { (stream.old.feeder ≡ tail []) × (stream.old.read ≡ 0) × (stream.old.messages ≡ 0) × (stream.old.whole ≡ 0) }
    ensures serves { ServesSource (S.left from.old) (S.left from.new) (who_in reader.old)
        (place_of (D.view desk.old) (K.taken to.old)) (place_of (D.view desk.new) (K.taken to.new)) result }
    ensures remains { RemainsServing result reader.old reader.new (D.view desk.new).spent }
    ensures source { Counted (is_read_fault result) (S.fault_count from.old) (S.fault_count from.new) }
    ensures sink { Counted (is_write_fault result) (K.fault_count to.old) (K.fault_count to.new) }
{
    while stream.read_on(from)? {
        answer_piece(alloc, desk, reader, stream, to)?;
    }
    stream.end()
}

/// Answers the messages that the piece completes, and then something bad, if it follows them.
fn answer_piece<D: WireDesk, K: Sink>(
    alloc: Global,
    desk: &mut D,
    reader: &mut Option<Reader>,
    stream: &mut Stream,
    to: &mut K,
) -> Result<(), WireRefusal>
    requires ready { (D.view desk.old).spent ≡ false }
    requires reader { CanAsk D.area reader.old }
    requires tail { IsTail stream.old.feeder }
    requires few { stream.old.messages ≤ stream.old.whole }
    requires read { stream.old.whole + length (tail_of stream.old.feeder) + length stream.old.piece ≡ stream.old.read }
    requires within { stream.old.read ≤ max_stream }
    ensures answers { AnswersPiece (who_in reader.old) stream.old stream.new
        (place_of (D.view desk.old) (K.taken to.old)) (place_of (D.view desk.new) (K.taken to.new)) result }
    ensures remains { RemainsServing result reader.old reader.new (D.view desk.new).spent }
    ensures cause { Counted (is_write_fault result) (K.fault_count to.old) (K.fault_count to.new) }
{
    let batch = stream.feed()?;
    answer_all(alloc, desk, reader, batch.messages.items(), to)?;
    stream.count_in(batch.messages.items());
    refuse(alloc, batch.bad, stream.whole, to)
}
