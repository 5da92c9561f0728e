//! What the mover is asked for, and its job in flight.

ghost use Rattle.std.specs.Prelude.{◌≡◌, not, filter, IfOk, Some};
ghost use Rattle.std.specs.Option.{option_copied};
ghost use Rattle.db_model.specs.Events.{is_not_named};
ghost use Rattle.store_core.specs.Running.{gone_on, idle_mover, job_dropped, mover_of, work_dropped, working_on};
ghost use Rattle.store_core.specs.Waiting.{has_name};

use catalog_types::Projection;
use col_value::Name;
use std::alloc::{AllocError, Global};
use std::marker::Model;
use table_jobs::Work;

/// The names of the projections that wait for the mover, how many steps are left of its job in flight, and which projection that job
/// refreshes; where it refreshes none, it merges. What is written of the merge or refresh is its work.
#[derive(Drop)]
pub struct Mover {
    asked: Vec<Name>,
    busy: usize,
    refreshing: Option<Name>,
    work: Option<Work>,
}

impl Model for Mover {
    ghost use Rattle.store_core.specs.Running.{Mover, moving};

    ghost Value = { Mover };

    ghost view = { λ m. moving m.asked.items m.busy m.refreshing m.work };
}

/// Whether a projection of some has the name.
fn has_name(projections: &[Projection], name: &Name) -> bool
    ensures { result ≡ has_name name.now projections.now }
{
    for projection in projections {
        if projection.name == *name {
            return true;
        }
    }
    false
}

impl Mover {
    /// No projection waits, and no job is in flight.
    pub fn idle(alloc: Global) -> Mover
        ensures { result ≡ idle_mover }
    {
        Mover {
            asked: Vec::new(alloc),
            busy: 0,
            refreshing: None,
            work: None,
        }
    }

    /// The names of the projections that wait.
    pub fn asked(&self) -> &[Name]
        ensures { result.now ≡ self.now.asked }
    {
        self.asked.as_slice()
    }

    /// How many steps are left of the job in flight.
    pub fn busy(&self) -> usize
        ensures { result ≡ self.now.busy }
    {
        self.busy
    }

    /// The projection that the job in flight refreshes.
    pub fn refreshing(&self) -> Option<&Name>
        ensures { option_copied result ≡ self.now.refreshing }
    {
        self.refreshing.as_ref()
    }

    /// The names that wait, but for this one.
    pub fn asked_but(&self, alloc: Global, name: &[u8]) -> Result<Vec<Name>, AllocError>
        ensures { IfOk result (λ v. v.items ≡ filter (is_not_named name.now) self.now.asked) }
    {
        let mut out = Vec::new(alloc);
        let asked = self.asked.as_slice();
        for other in asked {
            if other.as_slice() != name {
                out.push(other.copy(alloc)?)?;
            }
        }
        Ok(out)
    }

    /// The names that wait, but for those of some projections.
    pub fn asked_beside(
        &self,
        alloc: Global,
        projections: &[Projection],
    ) -> Result<Vec<Name>, AllocError>
        ensures { IfOk result (λ v. v.items ≡ filter (λ n. not (has_name n projections.now)) self.now.asked) }
    {
        let mut out = Vec::new(alloc);
        let asked = self.asked.as_slice();
        for name in asked {
            if !has_name(projections, name) {
                out.push(name.copy(alloc)?)?;
            }
        }
        Ok(out)
    }

    /// These names wait, and the work is given up. It takes no memory.
    pub fn ask(&mut self, asked: Vec<Name>)
        ensures { self.new ≡ mover_of asked.items self.old.busy self.old.refreshing }
    {
        self.asked = asked;
        self.work = None;
    }

    /// The job in flight is dropped, if there is one. It takes no memory.
    pub fn drop_job(&mut self)
        ensures { self.new ≡ job_dropped self.old }
    {
        self.busy = 0;
        self.refreshing = None;
        self.work = None;
    }

    /// A job begins: it has so many steps, and refreshes this projection, or merges. It takes no memory.
    pub fn begin(&mut self, steps: usize, refreshing: Option<Name>)
        ensures { self.new ≡ mover_of self.old.asked steps refreshing }
    {
        self.busy = steps;
        self.refreshing = refreshing;
        self.work = None;
    }

    /// One step of the job was made, which isn't its last. It takes no memory.
    pub fn go_on(&mut self)
        ensures { self.new ≡ gone_on self.old }
    {
        self.busy = self.busy.saturating_sub(1);
    }

    /// The work of the job is given up: its files are written in its last step. It takes no memory.
    pub fn drop_work(&mut self)
        ensures { self.new ≡ work_dropped self.old }
    {
        self.work = None;
    }

    /// The work of the job, which the mover has no more. It takes no memory.
    pub fn take_work(&mut self) -> Option<Work>
        ensures work { result ≡ self.old.work }
        ensures rest { self.new ≡ work_dropped self.old }
    {
        self.work.take()
    }

    /// This is the work of the job. It takes no memory.
    pub fn put_work(&mut self, work: Work)
        ensures { self.new ≡ working_on (Some work) self.old }
    {
        self.work = Some(work);
    }
}
