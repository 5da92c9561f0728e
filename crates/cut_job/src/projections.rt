//! Projections, cut one after the other.

ghost use Rattle.std.specs.Prelude.{◌≡◌, ◌≤◌, ◌+◌, ◌++◌, ◌^◌, ◌∷◌, [], sum_by, length, if◌then◌else◌, IfOk, IfErr, OnOk};
ghost use Rattle.std.specs.Bool.{OnTrue, OnFalse};
ghost use Rattle.std.specs.List.{All};
ghost use Rattle.common_laws.specs.Causes.{HasCause};
ghost use Rattle.catalog_types.specs.Numbers.{number_count};
ghost use Rattle.col_disk.specs.Moved.{Moved, NoName};
ghost use Rattle.ros_container.specs.Encodings.{written_of};
ghost use Rattle.container_writer.specs.Writing.{DataFrom};
ghost use Rattle.proj_store.specs.Sound.{IsLoadable};
ghost use Rattle.container_cut.specs.Listed.{IsBelow, IsListedBelow};
ghost use Rattle.container_cut.specs.Cutting.{Between, CutsContainers};
ghost use Rattle.cut_job.specs.Cutting.{CutsProjection, CutsProjections};
ghost use Rattle.container_cut.specs.Blamed.{BlamesProjection};
ghost use Rattle.cut_job.specs.Blamed.{BlamesProjections};

use catalog_types::{Container, Projection, copy_proj_columns};
use col_disk::{Disk, StoreFault};
use col_value::List;
use container_cut::{CutContainers, cut_containers};
use std::alloc::{AllocError, Global};

/// A projection of the catalogue cut at an epoch, and the next number that is free.
#[derive(Drop)]
pub struct Cut {
    pub entry: Projection,
    pub next: u64,
}

/// The same projection with other containers, which has all its rows on disk up to another epoch.
fn with_containers(
    alloc: Global,
    p: &Projection,
    lge: u64,
    containers: Vec<Container>,
) -> Result<Projection, AllocError>
    ensures { IfOk result (λ q. q ≡ record p.now { lge = lge; containers = containers.items }) }
{
    let name = p.name.copy(alloc)?;
    let columns = List::new(copy_proj_columns(alloc, p.columns.as_slice())?);
    let sort = List::new(Vec::from_slice(alloc, p.sort.as_slice())?);
    Ok(Projection {
        name,
        columns,
        sort,
        fresh: p.fresh,
        lge,
        born: p.born,
        containers: List::new(containers),
    })
}

/// The epoch up to which a projection has all its rows on disk after a cut.
fn lge_after(p: &Projection, epoch: u64) -> u64
    ensures { result ≡ if p.now.fresh then epoch else p.now.lge }
{
    if p.fresh { epoch } else { p.lge }
}

/// The containers of a projection after a cut; one that isn't up to date has none.
fn containers_after<D: Disk>(
    alloc: Global,
    p: &Projection,
    epoch: u64,
    next: u64,
    disk: &mut D,
) -> Result<CutContainers, StoreFault>
    requires numbers { next ≤ 2 ^ 62 }
    requires below { IsListedBelow next p.now }
    ensures cut { IfOk result (λ r. OnTrue p.now.fresh (Between (CutsContainers (written_of p.now) epoch p.now.containers r.containers.items) (D.holds disk.old) (D.holds disk.new))) }
    ensures stale { IfOk result (λ r. OnFalse p.now.fresh (r.containers.items ≡ [])) }
    ensures next { IfOk result (λ r. (next ≤ r.next) × (r.next ≤ 2 ^ 62)) }
    ensures below { IfOk result (λ r. All (IsBelow r.next p.now.columns) r.containers.items) }
    ensures count { IfOk result (λ r. length r.containers.items ≤ length p.now.containers) }
    ensures few { IfOk result (λ r. r.next ≤ next + number_count p.now) }
    ensures blamed { IfErr result (BlamesProjection p.now (D.holds disk.old)) }
    ensures moved { Moved ⟦<D as Disk>⟧ (DataFrom next) NoName disk.old disk.new }
    ensures cause { HasCause StoreFault.Disk (D.faults disk.old) (D.faults disk.new) result }
{
    if !p.fresh {
        return Ok(CutContainers {
            containers: Vec::new(alloc),
            next,
        });
    }
    match cut_containers(alloc, disk, p, epoch, next) {
        Ok(done) => Ok(done),
        Err(fault) => Err(fault),
    }
}

/// The projection up to an epoch, with numbers from `next` on for what is written: one that is up to date has all its rows on disk up
/// to the epoch, and of one that isn't nothing changes. `Damaged` names a file of a container, or its delete vector, where these hold no
/// rows.
pub fn cut_projection<D: Disk>(
    alloc: Global,
    p: &Projection,
    epoch: u64,
    next: u64,
    disk: &mut D,
) -> Result<Cut, StoreFault>
    requires numbers { next ≤ 2 ^ 62 }
    requires below { IsListedBelow next p.now }
    requires loadable { IsLoadable p.now }
    ensures cut { IfOk result (λ r. Between (CutsProjection epoch p.now r.entry) (D.holds disk.old) (D.holds disk.new)) }
    ensures next { IfOk result (λ r. (next ≤ r.next) × (r.next ≤ 2 ^ 62)) }
    ensures below { IfOk result (λ r. IsListedBelow r.next r.entry) }
    ensures loadable { IfOk result (λ r. IsLoadable r.entry) }
    ensures few { IfOk result (λ r. r.next ≤ next + number_count p.now) }
    ensures blamed { IfErr result (BlamesProjection p.now (D.holds disk.old)) }
    ensures moved { Moved ⟦<D as Disk>⟧ (DataFrom next) NoName disk.old disk.new }
    ensures cause { HasCause StoreFault.Disk (D.faults disk.old) (D.faults disk.new) result }
{
    let done = match containers_after(alloc, p, epoch, next, disk) {
        Ok(done) => done,
        Err(fault) => return Err(fault),
    };
    let CutContainers { containers, next } = done;
    match with_containers(alloc, p, lge_after(p, epoch), containers) {
        Ok(entry) => Ok(Cut { entry, next }),
        Err(AllocError) => Err(StoreFault::Memory),
    }
}

fn add(kept: &mut Vec<Projection>, entry: Projection) -> Result<(), AllocError>
    ensures { OnOk result (kept.new.items ≡ kept.old.items ++ entry ∷ []) }
{
    kept.push(entry)?;
    Ok(())
}

/// Projections, and the next number that is free.
#[derive(Drop)]
pub struct CutProjections {
    pub entries: Vec<Projection>,
    pub next: u64,
}

/// The projections of a table up to an epoch.
pub fn cut_projections<D: Disk>(
    alloc: Global,
    projections: &[Projection],
    epoch: u64,
    next: u64,
    disk: &mut D,
) -> Result<CutProjections, StoreFault>
    requires numbers { next ≤ 2 ^ 62 }
    requires below { All (IsListedBelow next) projections.now }
    requires loadable { All IsLoadable projections.now }
    ensures cut { IfOk result (λ r. Between (CutsProjections epoch projections.now r.entries.items) (D.holds disk.old) (D.holds disk.new)) }
    ensures next { IfOk result (λ r. (next ≤ r.next) × (r.next ≤ 2 ^ 62)) }
    ensures below { IfOk result (λ r. All (IsListedBelow r.next) r.entries.items) }
    ensures loadable { IfOk result (λ r. All IsLoadable r.entries.items) }
    ensures few { IfOk result (λ r. r.next ≤ next + sum_by number_count projections.now) }
    ensures blamed { IfErr result (BlamesProjections projections.now (D.holds disk.old)) }
    ensures moved { Moved ⟦<D as Disk>⟧ (DataFrom next) NoName disk.old disk.new }
    ensures cause { HasCause StoreFault.Disk (D.faults disk.old) (D.faults disk.new) result }
{
    let mut kept = Vec::new(alloc);
    let mut free = next;
    for p in projections {
        let done = match cut_projection(alloc, p, epoch, free, disk) {
            Ok(done) => done,
            Err(fault) => return Err(fault),
        };
        free = done.next;
        match add(&mut kept, done.entry) {
            Ok(()) => {}
            Err(AllocError) => return Err(StoreFault::Memory),
        }
    }
    Ok(CutProjections {
        entries: kept,
        next: free,
    })
}
