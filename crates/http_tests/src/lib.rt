//! Tests of one exchange over HTTP, at either end, over streams in memory.
#![tactic(auto)]

#[cfg(test)]
mod beginnings;
pub mod echoes;
#[cfg(test)]
mod faults;
#[cfg(test)]
mod replies;
#[cfg(test)]
mod requests;
#[cfg(test)]
mod streams;
