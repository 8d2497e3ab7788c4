//! What keeps bytes through a loss of power: a disk, with a form in memory that gives each image a crash may leave.
#![tactic(auto)]

pub mod disk;
pub mod durable;
mod images;
pub mod memory;

pub use disk::Disk;
pub use durable::put_down;
pub use memory::{Call, MemDisk};
