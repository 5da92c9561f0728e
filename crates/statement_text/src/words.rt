//! Texts of fixed words.

ghost use Rattle.std.specs.Prelude.{◌≡◌, codes, IfOk};

use std::alloc::{AllocError, Global};

/// `CREATE TABLE`
pub fn table_created_text(alloc: Global) -> Result<Vec<u8>, AllocError>
    ensures { IfOk result (λ v. v.items ≡ codes "CREATE TABLE\n") }
{
    Vec::from_slice(alloc, b"CREATE TABLE\n")
}

/// `CREATE PROJECTION`
pub fn projection_created_text(alloc: Global) -> Result<Vec<u8>, AllocError>
    ensures { IfOk result (λ v. v.items ≡ codes "CREATE PROJECTION\n") }
{
    Vec::from_slice(alloc, b"CREATE PROJECTION\n")
}

/// `ALTER TABLE`
pub fn column_added_text(alloc: Global) -> Result<Vec<u8>, AllocError>
    ensures { IfOk result (λ v. v.items ≡ codes "ALTER TABLE\n") }
{
    Vec::from_slice(alloc, b"ALTER TABLE\n")
}

/// `DROP TABLE`
pub fn table_dropped_text(alloc: Global) -> Result<Vec<u8>, AllocError>
    ensures { IfOk result (λ v. v.items ≡ codes "DROP TABLE\n") }
{
    Vec::from_slice(alloc, b"DROP TABLE\n")
}

/// `DROP PROJECTION`
pub fn projection_dropped_text(alloc: Global) -> Result<Vec<u8>, AllocError>
    ensures { IfOk result (λ v. v.items ≡ codes "DROP PROJECTION\n") }
{
    Vec::from_slice(alloc, b"DROP PROJECTION\n")
}

/// `ROLLBACK`
pub fn rollback_text(alloc: Global) -> Result<Vec<u8>, AllocError>
    ensures { IfOk result (λ v. v.items ≡ codes "ROLLBACK\n") }
{
    Vec::from_slice(alloc, b"ROLLBACK\n")
}

/// `MOVEOUT`
pub fn moveout_text(alloc: Global) -> Result<Vec<u8>, AllocError>
    ensures { IfOk result (λ v. v.items ≡ codes "MOVEOUT\n") }
{
    Vec::from_slice(alloc, b"MOVEOUT\n")
}

/// `MERGEOUT`
pub fn mergeout_text(alloc: Global) -> Result<Vec<u8>, AllocError>
    ensures { IfOk result (λ v. v.items ≡ codes "MERGEOUT\n") }
{
    Vec::from_slice(alloc, b"MERGEOUT\n")
}

/// `PURGE`
pub fn purge_text(alloc: Global) -> Result<Vec<u8>, AllocError>
    ensures { IfOk result (λ v. v.items ≡ codes "PURGE\n") }
{
    Vec::from_slice(alloc, b"PURGE\n")
}

/// `REFRESH`
pub fn refresh_text(alloc: Global) -> Result<Vec<u8>, AllocError>
    ensures { IfOk result (λ v. v.items ≡ codes "REFRESH\n") }
{
    Vec::from_slice(alloc, b"REFRESH\n")
}

/// `START REFRESH`
pub fn start_refresh_text(alloc: Global) -> Result<Vec<u8>, AllocError>
    ensures { IfOk result (λ v. v.items ≡ codes "START REFRESH\n") }
{
    Vec::from_slice(alloc, b"START REFRESH\n")
}
