//! Tests of jobs by public calls alone. What a job comes to at a device is told by the cases of both ends.
#![tactic(auto)]

#[cfg(test)]
mod answers;
#[cfg(test)]
mod correlators;
#[cfg(test)]
mod errors;
#[cfg(test)]
mod limits;
#[cfg(test)]
mod refusals;
