//! Tests of the whole program, over files, a sink and a disk in memory: the worked scripts, the limits, the statuses,
//! and each write and read that fails in turn. What they expect was written by hand.
#![tactic(auto)]

#[cfg(test)]
mod running;
#[cfg(test)]
mod scripts;
#[cfg(test)]
mod stops;
