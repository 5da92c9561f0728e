ghost use Rattle.std.specs.Prelude.{◌≡◌, IfOk, IfSome};
ghost use Rattle.common_laws.specs.Causes.{HasCause};
ghost use Rattle.col_io.specs.Files.{Finds, HasAtMost};

use std::alloc::Global;
use thiserror::Error;

/// What a read found under a name.
#[derive(Debug, Drop)]
pub enum Got {
    /// Nothing has that name.
    Absent,
    /// All bytes that are there.
    Whole(Vec<u8>),
    /// More bytes are there than were asked for.
    TooLong,
}

/// Why a read gave nothing.
#[derive(Debug, Clone, Copy, PartialEq, Eq, Error)]
pub enum FilesFault {
    /// The name may be there and could not be read; the count of faults rose.
    #[error("the file could not be read")]
    Failed,
    /// There was no memory for the bytes.
    #[error("memory is short")]
    Memory,
}

/// Files by name, which are read and never changed.
pub trait Files {
    ghost use Rattle.std.specs.Prelude.{ℕ, List, Option};

    // From the bytes of a name to the bytes there, where the files tell it.
    ghost content: { Self → Option (List ℕ → Option (List ℕ)) };

    // How many reads have failed.
    ghost faults: { Self → ℕ };

    /// All bytes of `name`, where they are at most `max`. Files that tell their content answer `Absent` exactly
    /// where nothing has the name, `TooLong` exactly where more than `max` bytes are there, and `Whole` with
    /// exactly the bytes there. No read changes what they tell.
    fn read(&mut self, alloc: Global, name: &str, max: usize) -> Result<Got, FilesFault>
        ensures found { IfOk result (λ got. IfSome (content self.old) (λ map. Finds (map name.now) max got)) }
        ensures within { IfOk result (HasAtMost max) }
        ensures same { content self.new ≡ content self.old }
        ensures cause { HasCause FilesFault.Failed (faults self.old) (faults self.new) result };
}
