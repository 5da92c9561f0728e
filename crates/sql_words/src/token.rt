/// A reserved word. No table, column or alias can be called so.
#[derive(Clone, Copy, Debug, PartialEq, Eq)]
pub enum Key {
    Add,
    Alter,
    And,
    As,
    Asc,
    At,
    Auto,
    Between,
    Bigint,
    BlockDict,
    Boolean,
    By,
    Column,
    Commit,
    Copy,
    Count,
    Create,
    Date,
    Default,
    Delete,
    Deltaval,
    Desc,
    DoTmTask,
    Drop,
    Encoding,
    Epoch,
    Explain,
    False,
    From,
    GetAhmEpoch,
    GetCurrentEpoch,
    GetLastGoodEpoch,
    Group,
    Having,
    In,
    Inner,
    Insert,
    Int,
    Integer,
    Into,
    Is,
    Join,
    Latest,
    Limit,
    MakeAhmNow,
    Max,
    Min,
    Not,
    Null,
    On,
    Or,
    Order,
    Over,
    Partition,
    Plain,
    Projection,
    PurgeTable,
    Rank,
    Refresh,
    Rle,
    Rollback,
    RowNumber,
    Select,
    Set,
    SetAhmEpoch,
    StartRefresh,
    Sum,
    Table,
    True,
    Update,
    Values,
    Varchar,
    Where,
}

/// A sign. `<>` and `!=` are one.
#[derive(Clone, Copy, Debug, PartialEq, Eq)]
pub enum Sign {
    Open,
    Close,
    Comma,
    Dot,
    Star,
    Plus,
    Minus,
    Equal,
    NotEqual,
    Less,
    AtMost,
    Greater,
    AtLeast,
}

/// A command to the program itself: `\session` or `\step`.
#[derive(Clone, Copy, Debug, PartialEq, Eq)]
pub enum Back {
    Session,
    Step,
}

/// What a token is. What a name, a number or a text says is read from the bytes of the token's span.
#[derive(Clone, Copy, Debug)]
pub enum TokenKind {
    /// A keyword, or a name where it is none.
    Word(Option<Key>),
    /// A number without a sign, at most 2^127 - 1.
    Int,
    /// A text between quotes whose bytes are UTF-8.
    Text,
    Sign(Sign),
    Back(Back),
    /// What begins no token: the last token of its text.
    Bad,
}

/// A token and its place: the bytes from `start` up to below `end`.
#[derive(Clone, Copy, Debug)]
pub struct Token {
    pub kind: TokenKind,
    pub start: u32,
    pub end: u32,
}
