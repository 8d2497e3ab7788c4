// What is outside a run besides its input and its output.
/// What a run may reach: a `Dialer`, which makes connections, a `Door`, to which connections come, an `Updater`, which
/// installs packages, and `Nonces`.
#[derive(Drop)]
pub struct Reach<D: Drop, P: Drop, U: Drop, N: Drop> {
    pub dialer: D,
    pub door: P,
    pub updater: U,
    pub nonces: N,
}
