//! Tests of a catch-up's three calls, over disks in memory. What they expect was written by hand.
#![tactic(auto)]

#[cfg(test)]
mod between;
