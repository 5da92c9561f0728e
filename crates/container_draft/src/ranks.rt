//! Ranks of values: where those of two differ, they stand as the values do.

ghost use Rattle.std.specs.Prelude.{◌≡◌, ◌<◌, ◌^◌, pos};
ghost use Rattle.block_codec.specs.Held.{number_value};
ghost use Rattle.col_value.specs.declared.value.Value.TheVariants.{Int, Text};
ghost use Rattle.container_draft.specs.Ranks.{after, digit, far_rank, head, is_far, is_near, near_rank, within};

use col_value::Value;

/// As far as this numbers of a first key are told.
const FAR: i64 = 2_305_843_009_213_693_952;
/// Those below it on the other side are told no more.
const FAR_LOW: i64 = -2_305_843_009_213_693_953;
/// The same of keys behind the first.
const NEAR: i32 = 1_073_741_824;

const NEAR_LOW: i32 = -1_073_741_825;
/// All days are less.
const DAYS: u32 = 4_194_303;

/// So many bytes of a text are told.
const BYTES: usize = 7;

/// The rank of a first key, and whether it tells what the key is.
#[derive(Clone, Copy)]
pub struct Far {
    pub at: i64,
    pub exact: bool,
}

/// The rank of a key behind the first, and whether it tells what the key is.
#[derive(Clone, Copy)]
pub struct Near {
    pub at: i32,
    pub exact: bool,
}

/// The first byte as a digit.
fn digit(text: &[u8]) -> u64
    ensures digit { result ≡ digit text.now }
    ensures few { result < 256 }
{
    match text {
        [byte, ..] if *byte < 254 => 1 + u64::from(*byte),
        [_, ..] => 255,
        [] => 0,
    }
}

/// What stands behind it.
fn after(text: &[u8]) -> &[u8]
    ensures { result.now ≡ after text.now }
{
    match text {
        [byte, later @ ..] if *byte < 254 => later,
        _ => text,
    }
}

/// The first bytes of a text as one number.
fn head(text: &[u8]) -> u64
    ensures head { result ≡ head text.now }
    ensures few { result < 2 ^ 56 }
{
    let mut head = 0;
    let mut rest = text;
    for i in 0..BYTES {
        head = head * 256 + digit(rest);
        rest = after(rest);
    }
    head
}

fn far_within(n: i64) -> i64
    ensures { result ≡ within (pos (2 ^ 61)) n }
{
    if n < FAR_LOW {
        FAR_LOW
    } else if FAR < n {
        FAR
    } else {
        n
    }
}

fn near_within(n: i64) -> i32
    ensures { result ≡ within (pos (2 ^ 30)) n }
{
    if n < i64::from(NEAR_LOW) {
        NEAR_LOW
    } else if i64::from(NEAR) < n {
        NEAR
    } else {
        n as i32
    }
}

fn far_int(n: i64) -> Far
    ensures at { result.at ≡ within (pos (2 ^ 61)) n }
    ensures exact { result.exact ≡ is_far (Int n) }
{
    Far {
        at: far_within(n),
        exact: FAR_LOW < n && n < FAR,
    }
}

fn near_int(n: i64) -> Near
    ensures at { result.at ≡ within (pos (2 ^ 30)) n }
    ensures exact { result.exact ≡ is_near (Int n) }
{
    Near {
        at: near_within(n),
        exact: i64::from(NEAR_LOW) < n && n < i64::from(NEAR),
    }
}

fn far_text(text: &[u8]) -> Far
    ensures at { result.at ≡ far_rank (Text text.now) }
    ensures exact { result.exact ≡ is_far (Text text.now) }
{
    let head = head(text);
    Far {
        at: FAR + 4_194_305 + head as i64,
        exact: head % 256 == 0,
    }
}

/// The rank of a first key.
pub fn far_rank(value: &Value) -> Far
    ensures at { result.at ≡ far_rank value.now }
    ensures exact { result.exact ≡ is_far value.now }
{
    let (at, exact) = match value {
        Value::Null => (FAR_LOW - 3, true),
        Value::Bool(false) => (FAR_LOW - 2, true),
        Value::Bool(true) => (FAR_LOW - 1, true),
        Value::Int(n) => return far_int(*n),
        Value::Date(d) => (FAR + 1 + i64::from((*d).min(DAYS)), *d < DAYS),
        Value::Text(text) => return far_text(text.as_bytes()),
    };
    Far { at, exact }
}

/// The rank of a key behind the first.
pub fn near_rank(value: &Value) -> Near
    ensures at { result.at ≡ near_rank value.now }
    ensures exact { result.exact ≡ is_near value.now }
{
    let (at, exact) = match value {
        Value::Null => (NEAR_LOW - 3, true),
        Value::Bool(false) => (NEAR_LOW - 2, true),
        Value::Bool(true) => (NEAR_LOW - 1, true),
        Value::Int(n) => return near_int(*n),
        Value::Date(d) => (NEAR + 1 + (*d).min(DAYS) as i32, *d < DAYS),
        Value::Text(_) => (NEAR + 4_194_305, false),
    };
    Near { at, exact }
}

/// The rank of a first key that a number of a lane stands for.
pub fn far_number(n: i64) -> Far
    ensures at { result.at ≡ far_rank (number_value n) }
    ensures exact { result.exact ≡ is_far (number_value n) }
{
    if n == i64::MIN {
        return Far {
            at: FAR_LOW - 3,
            exact: true,
        };
    }
    far_int(n)
}

/// The rank of a key behind the first that a number of a lane stands for.
pub fn near_number(n: i64) -> Near
    ensures at { result.at ≡ near_rank (number_value n) }
    ensures exact { result.exact ≡ is_near (number_value n) }
{
    if n == i64::MIN {
        return Near {
            at: NEAR_LOW - 3,
            exact: true,
        };
    }
    near_int(n)
}
