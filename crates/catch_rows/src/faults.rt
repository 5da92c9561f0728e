//! Faults of both stores.

ghost use Rattle.std.specs.Prelude.{◌≡◌};
ghost use Rattle.catch_rows.specs.Sharing.{ahead_fault, behind_fault};

use catch_model::LinkFault;
use col_disk::StoreFault;

pub fn behind_fault(fault: StoreFault) -> LinkFault
    ensures { result ≡ behind_fault fault }
{
    match fault {
        StoreFault::Disk => LinkFault::BehindDisk,
        StoreFault::Damaged(name) => LinkFault::Damaged(name),
        StoreFault::Memory => LinkFault::Memory,
    }
}

pub fn ahead_fault(fault: StoreFault) -> LinkFault
    ensures { result ≡ ahead_fault fault }
{
    match fault {
        StoreFault::Disk => LinkFault::AheadDisk,
        StoreFault::Damaged(name) => LinkFault::Damaged(name),
        StoreFault::Memory => LinkFault::Memory,
    }
}
