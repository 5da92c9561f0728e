//! The encodings as one.

ghost use Rattle.std.specs.Prelude.{◌≡◌};
ghost use Rattle.block_choice.specs.Codecs.{IsBlockOf, spelled_by};

use block_codec::{Block, BlockCodec};
use col_value::Value;
use enc_delta::{DateDelta, DeltaVal};
use enc_dict::BlockDict;
use enc_plain::Plain;
use enc_rle::Rle;
use std::alloc::{AllocError, Global};

/// An encoding of a block, in the order of their tags.
#[derive(Clone, Copy, Debug, PartialEq, Eq)]
pub enum Codec {
    Rle,
    DeltaVal,
    BlockDict,
    Plain,
    DateDelta,
}

#[tactic(auto, unfolding(crate::specs::Codecs::spelled_by))]
impl BlockCodec for Codec {
    ghost fits = { IsBlockOf };

    ghost spelling = { spelled_by };

    fn takes(&self, values: &[Value]) -> bool {
        match self {
            Codec::Rle => Rle.takes(values),
            Codec::DeltaVal => DeltaVal.takes(values),
            Codec::BlockDict => BlockDict.takes(values),
            Codec::Plain => Plain.takes(values),
            Codec::DateDelta => DateDelta.takes(values),
        }
    }

    fn encode(&self, alloc: Global, values: &[Value]) -> Result<Vec<u8>, AllocError> {
        match self {
            Codec::Rle => Rle.encode(alloc, values),
            Codec::DeltaVal => DeltaVal.encode(alloc, values),
            Codec::BlockDict => BlockDict.encode(alloc, values),
            Codec::Plain => Plain.encode(alloc, values),
            Codec::DateDelta => DateDelta.encode(alloc, values),
        }
    }

    fn decode(&self, alloc: Global, bytes: &[u8]) -> Result<Option<Block>, AllocError> {
        match self {
            Codec::Rle => Rle.decode(alloc, bytes),
            Codec::DeltaVal => DeltaVal.decode(alloc, bytes),
            Codec::BlockDict => BlockDict.decode(alloc, bytes),
            Codec::Plain => Plain.decode(alloc, bytes),
            Codec::DateDelta => DateDelta.decode(alloc, bytes),
        }
    }

    fn laws(&self) {
        match self {
            Codec::Rle => Rle.laws(),
            Codec::DeltaVal => DeltaVal.laws(),
            Codec::BlockDict => BlockDict.laws(),
            Codec::Plain => Plain.laws(),
            Codec::DateDelta => DateDelta.laws(),
        }
    }
}
