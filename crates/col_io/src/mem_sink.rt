ghost use Rattle.std.specs.Prelude.{◌≡◌, Some, []};

use crate::writing::{Sink, SinkFault};
use std::alloc::{AllocError, Global};

/// A sink in memory, for tests: it keeps what it took, takes at most `most` bytes in a call, and fails at the
/// calls whose numbers it was given. The first call has the number 0.
#[derive(Debug, Drop)]
pub struct MemSink {
    bytes: Vec<u8>,
    most: usize,
    failing: Vec<u64>,
    calls: u64,
    faults: u64,
}

impl MemSink {
    /// A sink that has taken nothing. A call that fails has still taken a front, of up to `most` bytes. Where
    /// `most` is 0, each write of a piece that is not empty fails.
    pub fn new(alloc: Global, most: usize, failing: Vec<u64>) -> MemSink
        ensures taken { ⟦<MemSink as Sink>⟧.taken result ≡ Some [] }
        ensures faults { ⟦<MemSink as Sink>⟧.faults result ≡ 0 }
    {
        MemSink {
            bytes: Vec::new(alloc),
            most,
            failing,
            calls: 0,
            faults: 0,
        }
    }

    /// All bytes taken so far.
    pub fn bytes(&self) -> &[u8]
        ensures { ⟦<MemSink as Sink>⟧.taken self.now ≡ Some result.now }
    {
        self.bytes.as_slice()
    }

    /// How many writes have failed.
    pub fn faults(&self) -> u64
        ensures { result ≡ ⟦<MemSink as Sink>⟧.faults self.now }
    {
        self.faults
    }

    // Whether the next call is one that is to fail.
    fn fails_now(&self) -> bool {
        self.failing.as_slice().contains(&self.calls)
    }
}

impl Sink for MemSink {
    ghost taken = { λ s. Some s.bytes.items };

    ghost faults = { λ s. s.faults };

    fn write(&mut self, piece: &[u8]) -> Result<usize, SinkFault> {
        let fails = self.fails_now();
        self.calls = self.calls.saturating_add(1);
        let count = piece.len().min(self.most);
        match self.bytes.extend_from_slice(piece.split_at(count).0) {
            Ok(()) => {}
            Err(AllocError) => return Err(SinkFault::Memory),
        }
        if fails || (count == 0 && !piece.is_empty()) {
            self.faults = self.faults.saturating_add(1);
            return Err(SinkFault::Failed);
        }
        Ok(count)
    }
}
