//! How a catch-up ends.

ghost use Rattle.std.specs.Prelude.{◌≡◌};
ghost use Rattle.buddy_run.specs.Ends.{code_of};

/// How a catch-up ended.
#[derive(Debug, Drop)]
pub enum LinkStatus {
    /// The folder behind has caught up.
    Done,
    /// It can't be brought up to the one ahead, and the output says why.
    Refused,
    /// The words aren't the program's name and two folders.
    Usage,
    /// The output could not be written.
    SinkFault,
    /// One of the folders could not be read or written.
    DiskFault,
    /// This file of one of the folders isn't what it has to be.
    Damaged(u64),
    /// Memory is short.
    Memory,
}

impl LinkStatus {
    /// The exit status of the program.
    pub fn code(&self) -> u8
        ensures { result ≡ code_of self.now }
    {
        match self {
            LinkStatus::Done => 0,
            LinkStatus::Refused => 1,
            LinkStatus::Usage => 2,
            LinkStatus::SinkFault => 4,
            LinkStatus::DiskFault => 5,
            LinkStatus::Damaged(_) => 6,
            LinkStatus::Memory => 7,
        }
    }
}
