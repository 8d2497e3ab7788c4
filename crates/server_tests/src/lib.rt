//! Tests of a server on messages that no device of ours sends: rows of them with what each is answered, and what the
//! report is then. The answers are those of a program that was written apart from this one. Large jobs are timed.
#![tactic(auto)]

#[cfg(test)]
mod credential_rows;
#[cfg(test)]
mod job_rows;
#[cfg(test)]
mod large_jobs;
#[cfg(test)]
mod order_rows;
#[cfg(test)]
mod rows;
#[cfg(test)]
mod servers;
#[cfg(test)]
mod sessions;
#[cfg(test)]
mod value_rows;
