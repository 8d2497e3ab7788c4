//! Tests of start sections, and of the text of a tree, by public calls alone.
#![tactic(auto)]

#[cfg(test)]
mod errors;
#[cfg(test)]
mod pieces;
#[cfg(test)]
mod refusals;
#[cfg(test)]
mod starts;
