//! The shortest block of numbers, found over their lane.

ghost use Rattle.std.specs.Prelude.{◌≡◌, ◌≤◌, ◌<◌, ◌∷◌, [], length, map, IfOk, IfSome, IfNone};
ghost use Rattle.std.specs.List.{filter, fold};
ghost use Rattle.block_codec.specs.Blocks.{IsOneBlock};
ghost use Rattle.block_codec.specs.Held.{number_value};
ghost use Rattle.block_choice.specs.declared.codec.Codec.TheVariants.{Rle as RleKind, DeltaVal as DeltaKind};
ghost use Rattle.block_choice.specs.Codecs.{IsBlockOf, spelled_by};
ghost use Rattle.block_choice.specs.Choice.{takes, shorter, auto_block};
ghost use Rattle.enc_dict.specs.Dict.{dict};

use crate::codec::Codec;
use block_codec::BlockCodec;
use col_value::Value;
use enc_dict::{encode_below, may_be_below};
use std::alloc::{AllocError, Global};

/// The shorter of the RLE and the DELTAVAL block, of equal lengths RLE, and how long it is.
#[tactic(auto, unfolding(crate::specs::Codecs::spelled_by))]
fn first_of(numbers: &[i64], rle: usize) -> (Codec, usize)
    requires block { IsOneBlock (map number_value numbers.now) }
    requires rle { rle ≡ length (spelled_by RleKind (map number_value numbers.now)) }
    ensures codec { result.0 ≡ fold (shorter (map number_value numbers.now)) RleKind (filter (takes (map number_value numbers.now)) (DeltaKind ∷ [])) }
    ensures fits { IsBlockOf result.0 (map number_value numbers.now) }
    ensures len { result.1 ≡ length (spelled_by result.0 (map number_value numbers.now)) }
{
    let delta = enc_delta::numbers_block_len(numbers);
    if delta < rle {
        (Codec::DeltaVal, delta)
    } else {
        (Codec::Rle, rle)
    }
}

/// The dictionary of the numbers, if it has fewer than so many bytes. None exactly where it has not fewer.
fn dictionary_below(
    alloc: Global,
    values: &[Value],
    numbers: &[i64],
    limit: usize,
) -> Result<Option<Vec<u8>>, AllocError>
    requires block { IsOneBlock values.now }
    requires lane { map number_value numbers.now ≡ values.now }
    ensures found { IfOk result (λ o. IfSome o (λ b. (b.items ≡ dict (map number_value numbers.now)) × (length b.items < limit))) }
    ensures none { IfOk result (λ o. IfNone o (limit ≤ length (dict (map number_value numbers.now)))) }
{
    if may_be_below(alloc, numbers, limit)? {
        encode_below(alloc, values, limit)
    } else {
        Ok(None)
    }
}

/// The block of the numbers in an encoding.
#[tactic(auto, unfolding(crate::specs::Codecs::spelled_by))]
fn encode_as(
    alloc: Global,
    codec: Codec,
    values: &[Value],
    numbers: &[i64],
) -> Result<Vec<u8>, AllocError>
    requires lane { map number_value numbers.now ≡ values.now }
    requires fits { IsBlockOf codec (map number_value numbers.now) }
    ensures { IfOk result (λ b. b.items ≡ spelled_by codec (map number_value numbers.now)) }
{
    match codec {
        Codec::DeltaVal => enc_delta::encode_numbers(alloc, numbers),
        _ => codec.encode(alloc, values),
    }
}

/// The shortest block of the values, for which these numbers stand.
#[tactic(auto, unfolding(crate::specs::Codecs::spelled_by))]
pub fn encode_numbers(
    alloc: Global,
    values: &[Value],
    numbers: &[i64],
) -> Result<Vec<u8>, AllocError>
    requires block { IsOneBlock values.now }
    requires lane { map number_value numbers.now ≡ values.now }
    ensures { IfOk result (λ b. b.items ≡ auto_block (map number_value numbers.now)) }
{
    let rle = enc_rle::numbers_block_len(numbers);
    if rle <= numbers.len() + 2 {
        return encode_as(alloc, Codec::Rle, values, numbers);
    }
    let (first, len) = first_of(numbers, rle);
    let plain = enc_plain::numbers_block_len(numbers);
    match dictionary_below(alloc, values, numbers, len.min(plain + 1))? {
        Some(block) => Ok(block),
        None => {
            if plain < len {
                encode_as(alloc, Codec::Plain, values, numbers)
            } else {
                encode_as(alloc, first, values, numbers)
            }
        }
    }
}
