//! Tests of the base: lists, boxes, fields and lines, and what is taken of a source and put to a sink.
#![tactic(auto)]

#[cfg(test)]
mod base;
#[cfg(test)]
mod short_bytes;
