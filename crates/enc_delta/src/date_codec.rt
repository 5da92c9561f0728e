//! The encoding of dates.

ghost use Rattle.std.specs.Prelude.{◌≡◌, length};
ghost use Rattle.enc_delta.specs.DateDelta.{IsDateDelta, date_block};

use crate::day::{are_dated, day_base, has_date};
use crate::day_delta::{day_deltas_len, put_day_deltas};
use crate::day_read::{DATE_TAG, dates_of};
use block_codec::{Block, BlockCodec, are_one_block, vint_len};
use col_bytes::{put_be4, put_vint, told};
use col_value::Value;
use std::alloc::{AllocError, Global};

/// The encoding that writes how far each day is behind the least.
pub struct DateDelta;

/// How many bytes the block of these dates has.
pub fn date_block_len(values: &[Value]) -> usize
    requires { IsDateDelta values.now }
    ensures { result ≡ length (date_block values.now) }
{
    1 + vint_len(values.len() as u64) + 4 + day_deltas_len(day_base(values), values)
}

impl BlockCodec for DateDelta {
    ghost fits = { λ _. IsDateDelta };

    ghost spelling = { λ _. date_block };

    fn takes(&self, values: &[Value]) -> bool {
        are_one_block(values) && are_dated(values) && has_date(values)
    }

    fn encode(&self, alloc: Global, values: &[Value]) -> Result<Vec<u8>, AllocError> {
        let base = day_base(values);
        let mut out = Vec::new(alloc);
        out.push(DATE_TAG)?;
        put_vint(&mut out, values.len() as u64)?;
        put_be4(&mut out, base)?;
        put_day_deltas(&mut out, base, values)?;
        Ok(out)
    }

    fn decode(&self, alloc: Global, bytes: &[u8]) -> Result<Option<Block>, AllocError> {
        told(dates_of(alloc, bytes))
    }

    fn laws(&self) {}
}
