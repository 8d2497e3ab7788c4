//! Tests of the forms of a command line, of what the ends of a run say, and of `show` and `check` where the source or
//! the sink fails, by public calls alone.
#![tactic(auto)]

#[cfg(test)]
mod exits;
#[cfg(test)]
mod messages;
#[cfg(test)]
mod words;
