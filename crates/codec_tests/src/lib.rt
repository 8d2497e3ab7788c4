//! Tests of the codec below the grammar: integers, tables, tokens, the shape of messages, and their values.
#![tactic(auto)]

#[cfg(test)]
mod commands;
#[cfg(test)]
mod ints;
#[cfg(test)]
mod shape;
#[cfg(test)]
mod shape_rows;
#[cfg(test)]
mod tables;
#[cfg(test)]
mod takers;
#[cfg(test)]
mod tokens;
#[cfg(test)]
mod unfit;
#[cfg(test)]
mod writer;
