use col_value::{Name, Stamped};

/// The verdict on a folder: it passes, with the epoch and the mark to which it reopens; the first file that is absent or isn't its spelling;
/// the first stored row that doesn't fit, by its container and its position there; or the first two projections of a table that hold
/// different rows, with the least such row and how often it stands in both.
#[derive(Debug, Drop)]
pub enum Verdict {
    Yes {
        last: u64,
        ahm: u64,
    },
    File(u64),
    BadRow {
        table: Name,
        projection: Name,
        base: u64,
        pos: u64,
    },
    Differ {
        table: Name,
        first: Name,
        second: Name,
        first_count: u64,
        second_count: u64,
        row: Stamped,
    },
}

/// Why there is no verdict.
#[derive(Debug, Clone, Copy, PartialEq, Eq)]
pub enum AuditFault {
    /// The disk failed.
    Disk,
    /// There was no memory to go on.
    Memory,
}
