use crate::Blob;

/// What a disk in memory has had done to it.
#[derive(Debug, Drop)]
pub enum Did {
    /// The name held these bytes from the beginning.
    Placed(u64, Blob),
    /// A write, which may have failed: the name holds these bytes.
    Wrote(u64, Blob),
    Removed(u64),
    /// A removal that failed.
    Kept(u64),
    Synced,
}
