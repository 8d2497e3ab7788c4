// What dialers and updaters tell of single calls.
use dm_base::Bytes;

/// A connection that a dialer has handed out.
#[derive(Drop)]
pub struct Handed {
    /// The address that was dialled.
    pub address: Bytes,
    /// All that the connection held when it was handed out, up to its end.
    pub held: Bytes,
}

/// A package that an updater was given.
#[derive(Drop)]
pub struct Update {
    /// The package.
    pub bytes: Bytes,
    /// Whether it was installed; none where the updater failed.
    pub answer: Option<bool>,
}
