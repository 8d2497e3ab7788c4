//! What is outside a run over a network, with forms in memory: streams, dialers and doors, whose connections are handed
//! out and given back, updaters and nonces.
#![tactic(auto)]

mod arrivals;
pub mod dialers;
pub mod doors;
pub mod nonces;
pub mod streams;
pub mod told;
pub mod updaters;

pub use dialers::{Dialer, MemDialer};
pub use doors::{Door, MemDoor};
pub use nonces::{MemNonces, Nonces};
pub use streams::MemStream;
pub use told::{Handed, Update};
pub use updaters::{MemUpdater, Updater};
