//! A sink that keeps the first bytes that it took, and a source that keeps the last bytes that it gave.

ghost use Rattle.std.specs.Prelude.{◌≡◌};

use init_base::{Failed, IoRefusal, Sink, Source};
use std::alloc::Global;

/// How many bytes are kept at most: more than the text of a verdict has.
const MOST_KEPT: usize = 48;

/// How many bytes are kept at least of those before the last read: as many as a message may have before its last byte.
const LEAST_KEPT: usize = 9_227;

/// How many bytes are held before those that aren't needed go.
const MOST_HELD: usize = 36_864;

/// Another sink, and the first bytes that it took, as far as there was memory for them.
#[derive(Drop)]
pub struct Noting<K> {
    pub sink: K,
    first: Vec<u8>,
}

impl<K> Noting<K> {
    /// A sink that has taken nothing yet.
    pub fn new(alloc: Global, sink: K) -> Noting<K>
        ensures { result.sink ≡ sink }
    {
        Noting {
            sink,
            first: Vec::new(alloc),
        }
    }

    /// The first bytes that were taken.
    pub fn first(&self) -> &[u8] {
        self.first.as_slice()
    }
}

impl<K: Sink> Sink for Noting<K> {
    ghost taken = { λ s. K.taken s.sink };

    ghost fault_count = { λ s. K.fault_count s.sink };

    fn faults(&self) -> u64 {
        self.sink.faults()
    }

    fn write(&mut self, alloc: Global, piece: &[u8]) -> Result<usize, IoRefusal> {
        let answer = self.sink.write(alloc, piece);
        if let Ok(count) = answer {
            keep(&mut self.first, piece.get(..count).unwrap_or(piece));
        }
        answer
    }
}

/// Keeps bytes behind others, as far as they are among the first.
fn keep(first: &mut Vec<u8>, bytes: &[u8]) {
    for byte in bytes {
        if first.len() >= MOST_KEPT || first.push(*byte).is_err() {
            return;
        }
    }
}

/// Another source, and the last bytes that it gave.
#[derive(Drop)]
pub struct NotingSource<S> {
    pub source: S,
    last: Vec<u8>,
    given: u64,
}

impl<S> NotingSource<S> {
    /// A source that has given nothing yet.
    pub fn new(alloc: Global, source: S) -> NotingSource<S>
        ensures { result.source ≡ source }
    {
        NotingSource {
            source,
            last: Vec::new(alloc),
            given: 0,
        }
    }

    /// The bytes that were given from a place on, if they are kept. The last read, and what a message may have before it, are,
    /// unless memory ran out.
    pub fn bytes_from(&self, at: u64) -> Option<&[u8]> {
        let count = usize::try_from(self.given.checked_sub(at)?).ok()?;
        let first = self.last.len().checked_sub(count)?;
        self.last.as_slice().get(first..)
    }
}

impl<S: Source> Source for NotingSource<S> {
    ghost left = { λ s. S.left s.source };

    ghost fault_count = { λ s. S.fault_count s.source };

    fn faults(&self) -> u64 {
        self.source.faults()
    }

    fn read(&mut self, buf: &mut [u8]) -> Result<usize, Failed> {
        let answer = self.source.read(buf);
        if let Ok(count) = answer {
            keep_last(&mut self.last, buf.get(..count).unwrap_or(buf));
            self.given = self.given.saturating_add(count as u64);
        }
        answer
    }
}

/// Keeps bytes after others. If there is no memory for them, none are kept.
fn keep_last(last: &mut Vec<u8>, bytes: &[u8]) {
    if last.len() > MOST_HELD {
        let first = last.len() - LEAST_KEPT;
        last.as_mut_slice().copy_within(first.., 0);
        last.truncate(LEAST_KEPT);
    }
    if last.extend_from_slice(bytes).is_err() {
        last.clear();
    }
}
