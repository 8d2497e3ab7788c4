//! Tests of runs that serve, over doors, connections and nonces in memory.
#![tactic(auto)]

#[cfg(test)]
mod messages;
#[cfg(test)]
mod runs;
