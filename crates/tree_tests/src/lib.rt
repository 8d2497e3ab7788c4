//! Tests of the tree: URIs, access lists, the tree itself, and the journal of its edits.
#![tactic(auto)]

#[cfg(test)]
mod access;
#[cfg(test)]
mod access_rows;
#[cfg(test)]
mod asserts;
#[cfg(test)]
mod errors;
#[cfg(test)]
mod journals;
#[cfg(test)]
mod large_trees;
#[cfg(test)]
mod reuse;
#[cfg(test)]
mod rows;
#[cfg(test)]
mod trees;
#[cfg(test)]
mod uri_rows;
#[cfg(test)]
mod uris;
#[cfg(test)]
mod walks;
