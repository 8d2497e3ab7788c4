//! Tests of the parts below a session, by public calls alone: the states of an update, credentials, headers, objects in
//! pieces, and the entries that wait.
#![tactic(auto)]

#[cfg(test)]
mod credentials;
#[cfg(test)]
mod headers;
#[cfg(test)]
mod large;
#[cfg(test)]
mod object_rows;
#[cfg(test)]
mod objects;
#[cfg(test)]
mod queues;
#[cfg(test)]
mod states;
