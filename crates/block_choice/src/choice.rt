//! The block of a column.

ghost use Rattle.std.specs.Prelude.{◌≡◌, ◌⊎◌, Some, List, IfOk, IfSome, IfNone};
ghost use Rattle.col_value.specs.declared.value.Value.{Value as Worth};
ghost use Rattle.block_codec.specs.Blocks.{IsOneBlock};
ghost use Rattle.block_choice.specs.declared.codec.Codec.{Codec as Kind};
ghost use Rattle.block_choice.specs.declared.codec.Codec.TheVariants.{DeltaVal as DeltaKind, DateDelta as DateKind};
ghost use Rattle.block_choice.specs.Codecs.{spelled_by, tag};
ghost use Rattle.block_choice.specs.Choice.{TakesAll, Accepts, SpellsAs, block_of};

use crate::auto::encode_auto;
use crate::codec::Codec;
use block_codec::{Block, BlockCodec};
use col_value::{Encoding, Value};
use enc_delta::are_numeric;
use std::alloc::{AllocError, Global};

/// The bytes of the block of these values in a column of this encoding: the shortest of all under AUTO.
#[tactic(auto, unfolding(crate::specs::Choice::block_of))]
pub fn encode(alloc: Global, encoding: Encoding, values: &[Value]) -> Result<Vec<u8>, AllocError>
    requires block { IsOneBlock values.now }
    requires kinds { TakesAll encoding values.now }
    ensures { IfOk result (λ b. b.items ≡ block_of encoding values.now) }
{
    match encoding {
        Encoding::Auto => encode_auto(alloc, values),
        Encoding::Rle => Codec::Rle.encode(alloc, values),
        Encoding::DeltaVal => {
            if are_numeric(values) {
                Codec::DeltaVal.encode(alloc, values)
            } else {
                Codec::DateDelta.encode(alloc, values)
            }
        }
        Encoding::BlockDict => Codec::BlockDict.encode(alloc, values),
        Encoding::Plain => Codec::Plain.encode(alloc, values),
    }
}

/// The encoding with this tag.
fn with_tag(first: u8) -> Option<Codec>
    ensures { (c : Kind) → tag c ≡ first → result ≡ Some c }
{
    match first {
        1 => Some(Codec::Rle),
        2 => Some(Codec::DeltaVal),
        3 => Some(Codec::BlockDict),
        4 => Some(Codec::Plain),
        5 => Some(Codec::DateDelta),
        _ => None,
    }
}

/// The encoding whose tag stands at the front.
fn tagged(bytes: &[u8]) -> Option<Codec>
    ensures { (c : Kind) (vs : List Worth) → bytes.now ≡ spelled_by c vs → result ≡ Some c }
{
    match bytes {
        [first, ..] => with_tag(*first),
        [] => None,
    }
}

/// The same, of numbers or of dates.
fn delta_of(bytes: &[u8]) -> Option<Codec>
    ensures accepted { IfSome result (λ c. (c ≡ DeltaKind) ⊎ (c ≡ DateKind)) }
    ensures only { (c : Kind) (vs : List Worth) → (c ≡ DeltaKind) ⊎ (c ≡ DateKind) → bytes.now ≡ spelled_by c vs → result ≡ Some c }
{
    match tagged(bytes) {
        Some(Codec::DeltaVal) => Some(Codec::DeltaVal),
        Some(Codec::DateDelta) => Some(Codec::DateDelta),
        _ => None,
    }
}

/// The encoding by which a block of a column is read, if it may be one.
fn codec_of(encoding: Encoding, bytes: &[u8]) -> Option<Codec>
    ensures accepted { IfSome result (λ c. Accepts encoding c) }
    ensures only { (c : Kind) (vs : List Worth) → Accepts encoding c → bytes.now ≡ spelled_by c vs → result ≡ Some c }
{
    match encoding {
        Encoding::Auto => tagged(bytes),
        Encoding::Rle => Some(Codec::Rle),
        Encoding::DeltaVal => delta_of(bytes),
        Encoding::BlockDict => Some(Codec::BlockDict),
        Encoding::Plain => Some(Codec::Plain),
    }
}

/// The values of the block that all of the bytes are in a column of this encoding. None exactly where they are none.
pub fn decode(alloc: Global, encoding: Encoding, bytes: &[u8]) -> Result<Option<Block>, AllocError>
    ensures found { IfOk result (λ o. IfSome o (λ v. SpellsAs encoding v bytes.now)) }
    ensures none { IfOk result (λ o. IfNone o ((vs : List Worth) → SpellsAs encoding vs bytes.now → ⊥)) }
{
    match codec_of(encoding, bytes) {
        Some(codec) => codec.decode(alloc, bytes),
        None => Ok(None),
    }
}
