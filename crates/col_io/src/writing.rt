ghost use Rattle.std.specs.Prelude.{IfOk, OnOk, OnErr};
ghost use Rattle.common_laws.specs.Causes.{HasCause};
ghost use Rattle.common_laws.specs.Told.{Appends, AppendsFront};
ghost use Rattle.col_io.specs.Sinks.{TakesFront};

use common_laws::rest_of;
use thiserror::Error;

/// Why a write was not done.
#[derive(Debug, Clone, Copy, PartialEq, Eq, Error)]
pub enum SinkFault {
    /// The sink took no more; the count of faults rose.
    #[error("the output could not be written")]
    Failed,
    /// The sink had no memory for the bytes.
    #[error("memory is short")]
    Memory,
}

/// Something that takes bytes in order.
pub trait Sink {
    ghost use Rattle.std.specs.Prelude.{ℕ, List, Option};

    // All bytes taken so far, where the sink tells them.
    ghost taken: { Self → Option (List ℕ) };

    // How many writes have failed.
    ghost faults: { Self → ℕ };

    /// Takes some bytes at the front of the piece and answers how many: at most all, and at least one where
    /// there are any. After a fault a front of the piece was taken, and nothing says how long it is.
    fn write(&mut self, piece: &[u8]) -> Result<usize, SinkFault>
        ensures taken { IfOk result (TakesFront (taken self.old) (taken self.new) piece.now) }
        ensures front { OnErr result (AppendsFront (taken self.old) (taken self.new) piece.now) }
        ensures cause { HasCause SinkFault.Failed (faults self.old) (faults self.new) result };
}

/// Writes the whole piece, in as many calls as the sink needs. After a fault a front of the piece was taken.
pub fn write_all<S: Sink>(out: &mut S, piece: &[u8]) -> Result<(), SinkFault>
    ensures whole { OnOk result (Appends (S.taken out.old) (S.taken out.new) piece.now) }
    ensures front { OnErr result (AppendsFront (S.taken out.old) (S.taken out.new) piece.now) }
    ensures cause { HasCause SinkFault.Failed (S.faults out.old) (S.faults out.new) result }
{
    let mut at = 0;
    while at < piece.len() {
        match out.write(rest_of(piece, at)) {
            Ok(count) => at += count,
            Err(fault) => return Err(fault),
        }
    }
    Ok(())
}
