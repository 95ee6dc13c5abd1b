//! A piece of a stream.

ghost use Rattle.std.specs.Prelude.{◌≡◌, ◌<◌, ◌≤◌, [], length, IfOk, OnErr};
ghost use Rattle.std.specs.Io.KnownBytes.{Consumes, IsAtEnd, Keeps};
ghost use Rattle.init_base.specs.Faults.{Counted, source_failed};

use init_base::{Failed, Source};
use std::marker::Model;

/// The most bytes of a piece.
pub(crate) const MAX_PIECE: usize = 4096;

/// The bytes of one read.
#[derive(Drop)]
pub(crate) struct Piece {
    bytes: [u8; MAX_PIECE],
    len: usize,
}

impl Model for Piece {
    ghost use Rattle.std.specs.Prelude.{◌≤◌, ℕ, List, take};

    ghost Value = { List ℕ };

    ghost view = { λ p. take p.len p.bytes };

    ghost invariant = { λ p. p.len ≤ 4096 };
}

impl Piece {
    /// No bytes.
    pub fn new() -> Piece
        ensures { result ≡ [] }
    {
        Piece {
            bytes: [0; MAX_PIECE],
            len: 0,
        }
    }

    pub fn bytes(&self) -> &[u8]
        ensures { result.now ≡ self.now }
    {
        &self.bytes[..self.len]
    }

    /// Reads at most `room` bytes in place of those before. Returns how many; 0 means that the source is at its end.
    pub fn fill<S: Source>(&mut self, from: &mut S, room: usize) -> Result<usize, Failed>
        requires { (0 < room) × (room ≤ 4096) }
        ensures count { IfOk result (λ count. count ≡ length self.new) }
        ensures few { IfOk result (λ count. count ≤ room) }
        ensures bytes { IfOk result (λ count. Consumes (S.left from.old) (S.left from.new) self.new) }
        ensures end { IfOk result (λ count. count ≡ 0 → IsAtEnd (S.left from.new)) }
        ensures kept { OnErr result (Keeps (S.left from.old) (S.left from.new)) }
        ensures cause { Counted (source_failed result) (S.fault_count from.old) (S.fault_count from.new) }
    {
        let count = from.read(&mut self.bytes[..room])?;
        self.len = count;
        Ok(count)
    }
}
