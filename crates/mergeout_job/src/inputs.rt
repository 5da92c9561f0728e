//! The containers that are merged.

ghost use Rattle.std.specs.Prelude.{◌≡◌, ◌<◌, ◌-◌, ◌++◌, ◌∷◌, [], if◌then◌else◌, IfOk, OnOk};
ghost use Rattle.mergeout_job.specs.Oldest.{is_level, oldest};

use catalog_types::Container;
use std::alloc::{AllocError, Global};

fn has_level(container: &Container, level: u32) -> bool
    ensures { result ≡ is_level level container.now }
{
    container.level == level
}

/// One less, where one was taken.
fn less(left: usize, taken: bool) -> usize
    requires { 0 < left }
    ensures { result ≡ if taken then left - 1 else left }
{
    if taken { left - 1 } else { left }
}

/// Which containers are the oldest so many of a level.
pub fn oldest(
    alloc: Global,
    containers: &[Container],
    level: u32,
    count: usize,
) -> Result<Vec<bool>, AllocError>
    ensures { IfOk result (λ v. v.items ≡ oldest count level containers.now) }
{
    let mut out = Vec::new(alloc);
    let mut left = count;
    for container in containers {
        if left == 0 {
            return Ok(out);
        }
        let taken = has_level(container, level);
        out.push(taken)?;
        left = less(left, taken);
    }
    Ok(out)
}
