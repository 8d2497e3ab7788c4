//! Access lists: which servers may use which commands on a node of the management tree.
#![tactic(auto)]

pub mod acl;
mod copies;
mod judging;
pub mod laws;
mod printing;
mod reading;
mod same;
pub mod values;

pub use acl::Acl;
pub use values::{AclError, Entries, Right, Servers};
