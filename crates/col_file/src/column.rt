//! Writing a column.

ghost use Rattle.std.specs.Prelude.{◌≡◌, ◌≢◌, ◌++◌, ◌∷◌, [], ◌*◌, ◌^◌, ◌<◌, length, OnOk, IfOk, Some};
ghost use Rattle.std.specs.List.{All};
ghost use Rattle.common_laws.specs.Causes.{HasCause};
ghost use Rattle.common_laws.specs.Maps.{Contents};
ghost use Rattle.col_disk.specs.Moved.{Moved, NoName, Named, Either};
ghost use Rattle.col_value.specs.Order.{IsValue};
ghost use Rattle.value_bytes.specs.Spelling.{IsSpelled};
ghost use Rattle.block_choice.specs.Choice.{TakesAll, block_of};
ghost use Rattle.pos_index.specs.Index.{index_spelling};
ghost use Rattle.pos_index.specs.Built.{nth_block};
ghost use Rattle.col_file.specs.Column.{body_spelling, column_index, IsColumn};
ghost use Rattle.col_file.specs.Held.{HoldsColumn};

use block_choice::encode;
use col_disk::{Disk, DiskFault};
use col_value::{Encoding, Value};
use pos_index::{blocks_of, build, have_spellings};
use std::alloc::{AllocError, Global};

/// The values of block k.
fn block_at(values: &[Value], k: usize) -> &[Value]
    requires { 1024 * k < length values.now }
    ensures { result.now ≡ nth_block k values.now }
{
    let rest = values.split_at(1024 * k).1;
    if rest.len() <= 1024 {
        rest
    } else {
        rest.split_at(1024).0
    }
}

/// Appends block k to the body, and its place to the places.
fn push_block(
    alloc: Global,
    body: &mut Vec<u8>,
    places: &mut Vec<u64>,
    values: &[Value],
    k: usize,
    encoding: Encoding,
) -> Result<(), AllocError>
    requires block { 1024 * k < length values.now }
    requires values { All IsSpelled values.now }
    requires kinds { TakesAll encoding values.now }
    ensures body { OnOk result (body.new.items ≡ body.old.items ++ block_of encoding (nth_block k values.now)) }
    ensures places { OnOk result (places.new.items ≡ places.old.items ++ length body.old.items ∷ []) }
{
    let block = encode(alloc, encoding, block_at(values, k))?;
    places.push(body.len() as u64)?;
    body.extend_from_slice(block.as_slice())
}

/// The bytes of the two files of a column.
fn column_bytes(
    alloc: Global,
    values: &[Value],
    encoding: Encoding,
) -> Result<(Vec<u8>, Vec<u8>), AllocError>
    requires some { 0 < length values.now }
    requires values { All IsValue values.now }
    requires spelled { All IsSpelled values.now }
    requires kinds { TakesAll encoding values.now }
    ensures bytes { IfOk result (λ x. (x.0.items ≡ body_spelling encoding values.now) × (x.1.items ≡ index_spelling (column_index encoding values.now))) }
    ensures small { IfOk result (λ x. length x.0.items < 2 ^ 64) }
{
    let mut body = Vec::new(alloc);
    let mut places = Vec::new(alloc);
    for k in 0..blocks_of(values.len() as u64) as usize {
        push_block(alloc, &mut body, &mut places, values, k, encoding)?;
    }
    let index = build(alloc, values, places.as_slice())?;
    Ok((body, index.to_bytes(alloc)?))
}

/// Makes the two files of a column, which then hold these values: `body` its blocks of 1,024 values one after the other,
/// the last with those that are left, each in the column's encoding, and `index` their index. A DELTAVAL column has
/// numbers and NULL, or dates and NULL. After a fault each of the two files is as it was, absent, or holds anything, and no other file
/// is touched.
pub fn write_column<D: Disk>(
    alloc: Global,
    disk: &mut D,
    body: u64,
    index: u64,
    values: &[Value],
    encoding: Encoding,
) -> Result<(), DiskFault>
    requires apart { body ≢ index }
    requires some { 0 < length values.now }
    requires values { All IsValue values.now }
    requires kinds { TakesAll encoding values.now }
    ensures written { OnOk result (IsColumn encoding body index values.now (D.holds disk.new)) }
    ensures held { OnOk result ((m : Contents) → D.holds disk.new ≡ Some m → HoldsColumn encoding body index (length values.now) m values.now) }
    ensures moved { Moved ⟦<D as Disk>⟧ (Either (Named body) (Named index)) NoName disk.old disk.new }
    ensures cause { HasCause DiskFault.Failed (D.faults disk.old) (D.faults disk.new) result }
    ensures unfailed { OnOk result (D.faults disk.new ≡ D.faults disk.old) }
{
    have_spellings(values);
    let (body_bytes, index_bytes) = match column_bytes(alloc, values, encoding) {
        Ok(bytes) => bytes,
        Err(AllocError) => return Err(DiskFault::Memory),
    };
    match disk.write(body, body_bytes.as_slice()) {
        Ok(()) => disk.write(index, index_bytes.as_slice()),
        Err(fault) => Err(fault),
    }
}
