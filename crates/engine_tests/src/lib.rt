//! Tests of the engine that no trace reaches: memory that runs out inside a command, calls that are gone back on, and
//! an engine that begins with an update that runs.
#![tactic(auto)]

#[cfg(test)]
mod devices;
#[cfg(test)]
mod engines;
#[cfg(test)]
mod rows;
#[cfg(test)]
mod runs;
#[cfg(test)]
mod texts;
#[cfg(test)]
mod updates;
