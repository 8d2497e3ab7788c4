//! Tests of the codec from the grammar on, by each public call. Which messages are refused and why, and how others are
//! spelled and listed, is told by the cases of the commands.
#![tactic(auto)]

#[cfg(test)]
mod building;
#[cfg(test)]
mod decoding;
#[cfg(test)]
mod errors;
#[cfg(test)]
mod judging;
#[cfg(test)]
mod pieces;
