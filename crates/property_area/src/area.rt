//! The area, and the writer's seat at it.

ghost use Rattle.std.specs.Prelude.{◌≡◌};
ghost use Rattle.std.specs.Result.{result_err};
ghost use Rattle.property_area.specs.Seats.{size_refusal};

use crate::rule::WordArea;
use crate::view::AreaView;
use atomic_table::{Seat, Table};
use std::alloc::{AllocError, Global};
use std::marker::Model;

/// The least and the most words of an area.
const LEAST_WORDS: u64 = 64;

const MOST_WORDS: u64 = 1_048_576;

/// The words of the head, in front of the first node.
const HEAD_WORDS: usize = 16;

/// Why an area was not made.
#[derive(Clone, Copy, Debug, PartialEq, Eq)]
pub enum AreaRefusal {
    /// It has fewer than 64 words.
    TooSmall { words: u64 },
    /// It has more than 1,048,576 words.
    TooBig { words: u64 },
    NoMemory,
}

impl From<AllocError> for AreaRefusal {
    ghost use Rattle.std.specs.Prelude.{◌≡◌};
    ghost use Rattle.property_area.specs.declared.area.AreaRefusal.TheVariants.{NoMemory as area_no_memory};

    ghost from_gives = { λ _ refusal. refusal ≡ area_no_memory };

    fn from(_: AllocError) -> Self {
        AreaRefusal::NoMemory
    }
}

/// The words that the writer and the readers share. Any number of threads may hold a `&Area`.
#[derive(Drop)]
pub struct Area {
    pub(crate) table: Table<(), AreaView, u64, WordArea, Global>,
}

impl Model for Area {
    ghost use Rattle.atomic_table.specs.Seated.{TableId};
    ghost use Rattle.property_area.specs.Seats.{HasSize};

    ghost Value = { TableId };

    ghost view = { λ a. a.table.shared.table_id };

    ghost invariant = { λ a. HasSize a.table.shared.table_id };
}

/// The writer's seat. There is one for each area.
#[derive(Drop)]
pub struct WriterSeat {
    pub(crate) seat: Seat<(), AreaView>,
    pub(crate) used: usize,
    pub(crate) count: u64,
}

impl Model for WriterSeat {
    ghost use Rattle.std.specs.Prelude.{◌≡◌, [], length};
    ghost use Rattle.property_trie.specs.Additions.{mark_of};
    ghost use Rattle.property_area.specs.Seats.{Seated, sets_in, IsWriterView};

    ghost Value = { Seated };

    ghost view = { λ s. record { table = s.seat.table_id; id = s.seat.id; view = s.seat.me.0 } };

    ghost invariant = { λ s. (s.seat.me.1 ≡ []) × IsWriterView s.seat.table_id s.seat.me.0
        × (s.used ≡ mark_of (sets_in s.seat.me.0)) × (s.count ≡ length (sets_in s.seat.me.0)) };
}

/// Whether an area may have so many words.
fn check_size(words: u64) -> Result<(), AreaRefusal>
    ensures { result_err result ≡ size_refusal words }
{
    if words < LEAST_WORDS {
        return Err(AreaRefusal::TooSmall { words });
    }
    if words > MOST_WORDS {
        return Err(AreaRefusal::TooBig { words });
    }
    Ok(())
}

impl Area {
    ghost use Rattle.std.specs.Prelude.{◌≡◌, ◌⊎◌, IfOk, IfErr, Some, None};
    ghost use Rattle.property_area.specs.declared.area.AreaRefusal.TheVariants.{NoMemory as no_memory};
    ghost use Rattle.property_area.specs.Area.{begins};
    ghost use Rattle.property_area.specs.Seats.{size_refusal};

    /// An area of so many words, with no property, and the writer's seat.
    pub fn new(alloc: Global, words: u64) -> Result<(Area, WriterSeat), AreaRefusal>
        ensures made { IfOk result (λ made. (made.0.words ≡ words) × (made.1.table ≡ made.0) × (made.1.view ≡ begins words)) }
        ensures size { IfOk result (λ made. size_refusal words ≡ None) }
        ensures refused { IfErr result (λ refusal. (refusal ≡ no_memory) ⊎ (size_refusal words ≡ Some refusal)) }
    {
        check_size(words)?;
        let zeros = vec![in alloc; 0; words as usize]?;
        let (table, seat) = Table::of_words(alloc, &zeros, &words)?;
        Ok((
            Area { table },
            WriterSeat {
                seat,
                used: HEAD_WORDS,
                count: 0,
            },
        ))
    }

    /// The number of words.
    pub fn words(&self) -> usize
        ensures { result ≡ self.now.words }
    {
        self.table.word_count()
    }
}
