//! Gates: which is open, and which open one is the greatest.

ghost use Rattle.std.specs.Prelude.{◌≡◌, ◌↔◌, ◌<◌, ◌^◌, ◌∷◌, [], ℕ, Some, IsTrue, IfOk, IfSome};
ghost use Rattle.std.specs.FinMap.{get};
ghost use Rattle.common_laws.specs.Causes.{HasCause};
ghost use Rattle.common_laws.specs.Maps.{Contents};
ghost use Rattle.col_disk.specs.Calls.{ListsNames};
ghost use Rattle.col_disk.specs.Moved.{Looks};
ghost use Rattle.catalog_root.specs.Root.{IsGreatestOf, NamesOpenGate};

use crate::names::OPEN;
use col_disk::{Disk, DiskFault};
use std::alloc::Global;

fn is_key(bytes: &[u8]) -> bool
    ensures { IsTrue result ↔ (bytes.now ≡ 86 ∷ []) }
{
    match bytes {
        [byte] => *byte == OPEN,
        _ => false,
    }
}

/// Whether the file is exactly the byte of an open gate, of which two bytes tell.
fn is_key_at<D: Disk>(alloc: Global, disk: &mut D, name: u64) -> Result<bool, DiskFault>
    ensures told { IfOk result (λ b. (m : Contents) → D.holds disk.old ≡ Some m → (IsTrue b ↔ (get m name ≡ Some (86 ∷ [])))) }
    ensures keeps { Looks ⟦<D as Disk>⟧ disk.old disk.new }
    ensures cause { HasCause DiskFault.Failed (D.faults disk.old) (D.faults disk.new) result }
{
    match disk.read(alloc, name, 0, 2) {
        Ok(Some(bytes)) => Ok(is_key(bytes.as_slice())),
        Ok(None) => Ok(false),
        Err(fault) => Err(fault),
    }
}

/// Whether the file is an open gate.
fn is_open<D: Disk>(alloc: Global, disk: &mut D, name: u64) -> Result<bool, DiskFault>
    ensures told { IfOk result (λ b. (m : Contents) → D.holds disk.old ≡ Some m → (IsTrue b ↔ NamesOpenGate m name)) }
    ensures keeps { Looks ⟦<D as Disk>⟧ disk.old disk.new }
    ensures cause { HasCause DiskFault.Failed (D.faults disk.old) (D.faults disk.new) result }
{
    if name % 4 == 2 {
        is_key_at(alloc, disk, name)
    } else {
        Ok(false)
    }
}

/// The version of the greatest open gate among ascending names. No gate below it is read.
pub fn greatest_gate<D: Disk>(
    alloc: Global,
    disk: &mut D,
    names: &[u64],
) -> Result<Option<u64>, DiskFault>
    ensures found { IfOk result (λ r. (m : Contents) → D.holds disk.old ≡ Some m → ListsNames m names.now → IsGreatestOf m r) }
    ensures small { IfOk result (λ r. IfSome r (λ v. v < 2 ^ 62)) }
    ensures keeps { Looks ⟦<D as Disk>⟧ disk.old disk.new }
    ensures cause { HasCause DiskFault.Failed (D.faults disk.old) (D.faults disk.new) result }
{
    let mut left = names.len();
    while left > 0 {
        left -= 1;
        match is_open(alloc, disk, names[left]) {
            Ok(true) => return Ok(Some(names[left] / 4)),
            Ok(false) => {}
            Err(fault) => return Err(fault),
        }
    }
    Ok(None)
}
