// What tasks came to.
use crate::tasks::Post;
use dm_base::{Bytes, List};
use dm_commands::Found;
use dm_uri::Path;

/// What a task came to: its code, and what it found.
#[derive(Drop)]
pub struct Report {
    pub post: Post,
    pub code: u32,
    pub found: List<Found>,
}

/// A container and its tasks, whose answers wait until the group closes.
#[derive(Drop)]
pub struct Part {
    pub post: Post,
    pub reports: List<Report>,
}

/// The update that was started: the path of its update node, and the Correlator of the Exec.
#[derive(Drop)]
pub struct Started {
    pub node: Path,
    pub correlator: Option<Bytes>,
}
