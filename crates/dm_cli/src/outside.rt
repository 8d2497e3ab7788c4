// What is outside a run, for real: TCP as a dialer and a door, an updater, and random nonces. They tell nothing.
pub mod conns;
pub mod deadlines;
pub mod dialers;
pub mod doors;
pub mod nonces;
pub mod updaters;

pub use dialers::TcpDialer;
pub use doors::TcpDoor;
pub use nonces::RandomNonces;
pub use updaters::ReadyUpdater;
