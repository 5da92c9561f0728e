/// The type of a column; a `Varchar` has the most bytes that its texts may have.
#[derive(Clone, Copy, Debug, PartialEq, Eq)]
pub enum ColType {
    Integer,
    Varchar(u32),
    Boolean,
    Date,
}

/// How the blocks of a column are written; `Auto` takes the shortest that there is.
#[derive(Clone, Copy, Debug, PartialEq, Eq)]
pub enum Encoding {
    Auto,
    Rle,
    DeltaVal,
    BlockDict,
    Plain,
}
