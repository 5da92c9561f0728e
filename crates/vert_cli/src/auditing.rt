//! The audit of a folder.
#![tactic(auto)]

ghost use Rattle.std.specs.Prelude.{◌≡◌, ◌≤◌, Some};
ghost use Rattle.common_laws.specs.Causes.{Rose};
ghost use Rattle.common_laws.specs.Maps.{Contents};
ghost use Rattle.vert_cli.specs.declared.faults.Status.TheVariants.{SinkFault as sink_fault, DiskFault as disk_fault};
ghost use Rattle.vert_cli.specs.Audits.{AuditEnds, IsAuditStatus, IsUnwritten, status_of_verdict};

use crate::faults::Status;
use audit_model::{AuditFault, Verdict, yes_is_said_where_a_folder_reopens};
use col_disk::Disk;
use col_io::{Sink, SinkFault, write_all};
use std::alloc::{AllocError, Global};
use store_audit::audit;
use verdict_text::verdict_text;

fn status_of_verdict(verdict: &Verdict) -> Status
    ensures { result ≡ status_of_verdict verdict.now }
{
    match verdict {
        Verdict::Yes { .. } => Status::Done,
        Verdict::File(_) => Status::AuditNo,
        Verdict::BadRow { .. } => Status::AuditNo,
        Verdict::Differ { .. } => Status::AuditNo,
    }
}

// Judges the folder, and writes the text of the verdict. No file is written or removed.
pub(crate) fn run_audit<S: Sink, D: Disk>(alloc: Global, out: &mut S, disk: &mut D) -> Status
    ensures ends { (m : Contents) → D.holds disk.old ≡ Some m → AuditEnds result m (S.taken out.old) (S.taken out.new) }
    ensures begins { IsAuditStatus result }
    ensures unwritten { IsUnwritten ⟦<D as Disk>⟧ disk.old disk.new }
    ensures sink { result ≡ sink_fault → Rose (S.faults out.old) (S.faults out.new) }
    ensures fault { result ≡ disk_fault → Rose (D.faults disk.old) (D.faults disk.new) }
    ensures later { S.faults out.old ≤ S.faults out.new }
    ensures disk_later { D.faults disk.old ≤ D.faults disk.new }
{
    yes_is_said_where_a_folder_reopens();
    let verdict = match audit(alloc, disk) {
        Ok(verdict) => verdict,
        Err(AuditFault::Disk) => return Status::DiskFault,
        Err(AuditFault::Memory) => return Status::Memory,
    };
    match verdict_text(alloc, &verdict) {
        Ok(text) => match write_all(out, text.as_slice()) {
            Ok(()) => status_of_verdict(&verdict),
            Err(SinkFault::Failed) => Status::SinkFault,
            Err(SinkFault::Memory) => Status::Memory,
        },
        Err(AllocError) => Status::Memory,
    }
}
