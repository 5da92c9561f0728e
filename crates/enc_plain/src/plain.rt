ghost use Rattle.std.specs.Prelude.{◌≡◌, ◌<◌, ◌^◌, length, map, IfOk};
ghost use Rattle.col_bytes.specs.Parts.{Gives};
ghost use Rattle.block_codec.specs.Blocks.{IsOneBlock};
ghost use Rattle.block_codec.specs.Held.{number_value};
ghost use Rattle.enc_plain.specs.Plain.{plain, plain_of};

use block_codec::{
    Block, BlockCodec, are_one_block, numbers_len, read_count, values_len, vint_len,
};
use col_bytes::{Stop, put_vint, read_tag, told};
use col_value::Value;
use std::alloc::{AllocError, Global};
use value_bytes::{put_values, read_values};

/// The tag of a block.
const TAG: u8 = 4;

/// The encoding that writes each value as it is.
pub struct Plain;

/// How many bytes the block of these values has.
pub fn block_len(values: &[Value]) -> usize
    requires { IsOneBlock values.now }
    ensures exact { result ≡ length (plain values.now) }
    ensures few { result < 2 ^ 27 }
{
    1 + vint_len(values.len() as u64) + values_len(values)
}

/// How many bytes the block has of the values that numbers of a lane stand for.
pub fn numbers_block_len(numbers: &[i64]) -> usize
    requires { IsOneBlock (map number_value numbers.now) }
    ensures exact { result ≡ length (plain (map number_value numbers.now)) }
    ensures few { result < 2 ^ 27 }
{
    1 + vint_len(numbers.len() as u64) + numbers_len(numbers)
}

/// The values of the block that all of the bytes are.
fn values_of(alloc: Global, bytes: &[u8]) -> Result<Block, Stop>
    ensures { Gives (λ v. v) result (plain_of bytes.now) }
{
    let rest = read_tag(TAG, bytes)?;
    let (count, rest) = read_count(rest)?;
    let (values, rest) = read_values(alloc, count, rest)?;
    if rest.is_empty() {
        Ok(Block::of(values))
    } else {
        Err(Stop::Malformed)
    }
}

impl BlockCodec for Plain {
    ghost fits = { λ _. IsOneBlock };

    ghost spelling = { λ _. plain };

    fn takes(&self, values: &[Value]) -> bool {
        are_one_block(values)
    }

    fn encode(&self, alloc: Global, values: &[Value]) -> Result<Vec<u8>, AllocError> {
        let mut out = Vec::new(alloc);
        out.push(TAG)?;
        put_vint(&mut out, values.len() as u64)?;
        put_values(&mut out, values)?;
        Ok(out)
    }

    fn decode(&self, alloc: Global, bytes: &[u8]) -> Result<Option<Block>, AllocError> {
        told(values_of(alloc, bytes))
    }

    fn laws(&self) {}
}
