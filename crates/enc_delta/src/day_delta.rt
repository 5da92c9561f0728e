//! Writing days by how far they are behind a base, and counting their bytes.

ghost use Rattle.std.specs.Prelude.{◌≡◌, ◌≤◌, ◌*◌, ◌++◌, length, OnOk};
ghost use Rattle.std.specs.List.{All, flat_map};
ghost use Rattle.enc_delta.specs.DateDelta.{day_delta, day_delta_spelling, IsSince};

use crate::delta::put_delta;
use block_codec::vint_len;
use col_value::Value;
use std::alloc::AllocError;

/// 0 for NULL, else one more than how far the day is behind the base.
fn day_delta(base: u32, value: &Value) -> u64
    requires { IsSince base value.now }
    ensures { result ≡ day_delta base value.now }
{
    match value {
        Value::Date(d) => 1 + u64::from(*d - base),
        _ => 0,
    }
}

/// Appends the delta of each value.
pub fn put_day_deltas(out: &mut Vec<u8>, base: u32, values: &[Value]) -> Result<(), AllocError>
    requires { All (IsSince base) values.now }
    ensures { OnOk result (out.new.items ≡ out.old.items ++ flat_map (day_delta_spelling base) values.now) }
{
    for value in values {
        put_delta(out, day_delta(base, value))?;
    }
    Ok(())
}

/// How many bytes the deltas of the values take.
pub fn day_deltas_len(base: u32, values: &[Value]) -> usize
    requires values { All (IsSince base) values.now }
    requires few { length values.now ≤ 1024 }
    ensures exact { result ≡ length (flat_map (day_delta_spelling base) values.now) }
    ensures few { result ≤ 10 * length values.now }
{
    let mut len = 0;
    for value in values {
        len += vint_len(day_delta(base, value));
    }
    len
}
