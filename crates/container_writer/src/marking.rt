//! The delete vector of rows.

ghost use Rattle.std.specs.Prelude.{◌≡◌, ◌<◌, ℕ, None, length, IfOk, OnOk};
ghost use Rattle.std.specs.List.{All};
ghost use Rattle.del_vector.specs.Marks.{epoch_at, with_mark};
ghost use Rattle.container_writer.specs.Ordered.{del_at};

use crate::refs::Keyed;
use del_vector::DelVector;
use std::alloc::{AllocError, Global};

fn add_mark(vector: &mut DelVector, position: u64, epoch: u64) -> Result<(), AllocError>
    requires undeleted { epoch_at vector.old.marks position ≡ None }
    requires epoch { 0 < epoch }
    ensures { OnOk result (vector.new.marks ≡ with_mark (record { position = position; epoch = epoch }) vector.old.marks) }
{
    vector.reserve(1)?;
    vector.add(position, epoch);
    Ok(())
}

/// The marks of rows at their places. A row that was deleted in epoch 0 is answered as want of memory: no store has such.
pub fn vector_of(alloc: Global, rows: &[Keyed]) -> Result<DelVector, AllocError>
    ensures deleted { IfOk result (λ v. (i : ℕ) → epoch_at v.marks i ≡ del_at rows.now i) }
    ensures within { IfOk result (λ v. All (λ e. e.position < length rows.now) v.marks) }
{
    let mut vector = DelVector::new(alloc);
    for (i, row) in rows.iter().enumerate() {
        match row.stamped.del {
            Some(0) => return Err(AllocError),
            Some(epoch) => add_mark(&mut vector, i as u64, epoch)?,
            None => {}
        }
    }
    Ok(vector)
}
