//! Where the parts of a store stand on its disk.

ghost use Rattle.std.specs.Prelude.{◌≡◌, ◌≤◌};
ghost use Rattle.persist_disk.specs.Image.{number_of, other_slot, place_of, slot_of};

/// How many bytes the length of a slot has.
pub(crate) const LENGTH: u64 = 8;

/// One of the two slots.
#[derive(Clone, Copy, Debug, PartialEq, Eq)]
pub(crate) enum Slot {
    Zero,
    One,
}

/// The slot that the gate chooses, and the length of its text.
#[derive(Clone, Copy, Debug, PartialEq, Eq)]
pub(crate) struct Chosen {
    pub(crate) slot: Slot,
    pub(crate) len: u64,
}

impl Slot {
    /// The slot that a gate chooses.
    pub(crate) fn chosen_by(gate: u8) -> Slot
        ensures { result ≡ slot_of gate }
    {
        if gate % 2 == 0 { Slot::Zero } else { Slot::One }
    }

    pub(crate) fn other(self) -> Slot
        ensures { result ≡ other_slot self }
    {
        match self {
            Slot::Zero => Slot::One,
            Slot::One => Slot::Zero,
        }
    }

    /// The slot's number, which as a gate chooses it.
    pub(crate) fn number(self) -> u8
        ensures { result ≡ number_of self }
    {
        match self {
            Slot::Zero => 0,
            Slot::One => 1,
        }
    }

    /// Where the slot begins, of slots of this size.
    pub(crate) fn place(self, size: u64) -> u64
        requires { size ≤ 33554440 }
        ensures { result ≡ place_of size self }
    {
        match self {
            Slot::Zero => 8,
            Slot::One => 8 + size,
        }
    }
}
