// What a client keeps of a session, and of an update that ended.
use crate::kinds::Initiator;
use dm_base::Bytes;
use dm_headers::Standing;

/// How far a session has come.
#[derive(Clone, Copy, Debug, PartialEq, Eq)]
pub struct Progress {
    pub number: u32,
    /// The place of its account.
    pub account: usize,
    pub kind: Initiator,
    pub standing: Standing,
    /// Where in the queue the entries of the first package stand that still wait.
    pub opening_at: usize,
    /// How many they are.
    pub opening_left: usize,
}

/// How an update ended, to be told in first packages until a session ends by Finished.
#[derive(Drop)]
pub struct UpdateResult {
    /// The Correlator of the Exec that started it.
    pub correlator: Option<Bytes>,
    pub ok: bool,
}
