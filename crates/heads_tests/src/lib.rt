//! Tests of the reader of messages over HTTP: replies and requests, byte for byte.
#![tactic(auto)]

#[cfg(test)]
mod answers;
#[cfg(test)]
mod faults;
#[cfg(test)]
mod prefixes;
#[cfg(test)]
mod replies;
#[cfg(test)]
mod requests;
