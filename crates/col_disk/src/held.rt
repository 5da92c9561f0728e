ghost use Rattle.std.specs.Prelude.{◌≡◌, ℕ, IfOk, OnOk, OnErr, is_some};
ghost use Rattle.std.specs.BTreeMap as tree;
ghost use Rattle.std.specs.BTreeMap.{keys, IsOrdered};
ghost use Rattle.std.specs.Set.{is_member};
ghost use Rattle.std.specs.Ordering.{nat_cmp, eq_by_cmp};
ghost use Rattle.std.specs.Option.{option_map};
ghost use Rattle.std.specs.FinMap.{get, insert, remove, empty};
ghost use Rattle.col_disk.specs.Calls.{ListsNames};

use crate::Blob;
use std::alloc::{AllocError, Global};
use std::collections::BTreeMap;
use std::marker::Model;

/// The bytes of each name, in memory.
#[derive(Drop)]
pub(crate) struct Held {
    files: BTreeMap<u64, Blob>,
}

impl Model for Held {
    ghost use Rattle.std.specs.Coded.{coded_list, coded_ℕ};
    ghost use Rattle.std.specs.FinMap.{from_entries, code};
    ghost use Rattle.common_laws.specs.Maps.{Contents};

    ghost Value = { Contents };

    ghost coded = { code coded_ℕ (coded_list coded_ℕ) };

    ghost view = { λ h. from_entries h.files.entries };
}

impl Held {
    pub(crate) fn new(alloc: Global) -> Held
        ensures { result ≡ empty }
    {
        Held {
            files: BTreeMap::new(alloc),
        }
    }

    pub(crate) fn bytes(&self, name: u64) -> Option<&[u8]>
        ensures { option_map (λ b. b.now) result ≡ get self.now name }
    {
        match self.files.get(&name) {
            Some(blob) => Some(blob.as_slice()),
            None => None,
        }
    }

    pub(crate) fn put(&mut self, name: u64, bytes: Blob) -> Result<(), AllocError>
        ensures ok { OnOk result (self.new ≡ insert self.old name bytes) }
        ensures err { OnErr result (self.new ≡ self.old) }
    {
        match self.files.insert(name, bytes) {
            Ok(_) => Ok(()),
            Err(_) => Err(AllocError),
        }
    }

    pub(crate) fn take(&mut self, name: u64)
        ensures { self.new ≡ remove self.old name }
    {
        self.files.remove(&name);
    }

    pub(crate) fn names(&self, alloc: Global) -> Result<Vec<u64>, AllocError>
        ensures { IfOk result (λ v. ListsNames self.now v.items) }
    {
        keys_of(alloc, &self.files)
    }
}

fn keys_of(alloc: Global, files: &BTreeMap<u64, Blob>) -> Result<Vec<u64>, AllocError>
    ensures all { IfOk result (λ v. v.items ≡ keys files.now) }
    ensures ordered { IsOrdered nat_cmp files.now }
    ensures has { (q : ℕ) → is_some (tree.get nat_cmp files.now q) ≡ is_member (eq_by_cmp nat_cmp) (keys files.now) q }
{
    let mut names = Vec::new(alloc);
    for name in files.keys() {
        names.push(*name)?;
    }
    Ok(names)
}
