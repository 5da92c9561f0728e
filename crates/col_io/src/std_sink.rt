ghost use Rattle.std.specs.Prelude.{◌≡◌, None, IfOk};

use crate::writing::{Sink, SinkFault};
use std::alloc::AllocError;
use std::io::{ErrorKind, Print};

/// The standard output of the machine. It tells no bytes.
#[derive(Drop)]
pub struct StdSink<R> {
    rt: R,
    faults: u64,
}

impl<R: Print + Clone + Drop> StdSink<R> {
    /// The output that the runtime prints to. It writes nothing yet.
    pub fn new(rt: &R) -> Result<StdSink<R>, AllocError>
        ensures taken { IfOk result (λ s. ⟦<StdSink<R> as Sink>⟧.taken s ≡ None) }
        ensures faults { IfOk result (λ s. ⟦<StdSink<R> as Sink>⟧.faults s ≡ 0) }
    {
        Ok(StdSink {
            rt: rt.clone()?,
            faults: 0,
        })
    }

    /// How many writes have failed.
    pub fn faults(&self) -> u64
        ensures { result ≡ ⟦<StdSink<R> as Sink>⟧.faults self.now }
    {
        self.faults
    }
}

impl<R: Print + Clone + Drop> Sink for StdSink<R> {
    ghost taken = { λ s. None };

    ghost faults = { λ s. s.faults };

    fn write(&mut self, piece: &[u8]) -> Result<usize, SinkFault> {
        if piece.is_empty() {
            return Ok(0);
        }
        let fault = match self.rt.write_some(piece) {
            Ok(0) => SinkFault::Failed,
            Ok(count) => return Ok(count),
            Err(error) if error.kind() == ErrorKind::OutOfMemory => SinkFault::Memory,
            Err(_) => SinkFault::Failed,
        };
        self.faults = self.faults.saturating_add(1);
        Err(fault)
    }
}
