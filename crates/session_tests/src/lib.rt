//! Tests of what a client tells beside its answers, which traces show: where its session stands, its RespURI, the
//! package of an update that runs, its farewell, and its errors.
#![tactic(auto)]

#[cfg(test)]
mod calls;
#[cfg(test)]
mod errors;
#[cfg(test)]
mod rows;
#[cfg(test)]
mod sessions;
#[cfg(test)]
mod starts;
