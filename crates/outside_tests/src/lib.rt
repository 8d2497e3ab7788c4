//! Tests of what is outside: the forms in memory of dialers, doors, updaters and nonces.
#![tactic(auto)]

#[cfg(test)]
mod outside;
