//! Tests of disks: the form in memory, and what a crash may leave of it.
#![tactic(auto)]

#[cfg(test)]
mod disks;
