// Who the client talks to.
ghost use Rattle.std.specs.Prelude.{◌≡◌, IfOk};

use dm_base::{Bytes, Memory};
use std::alloc::Global;
use syncml_types::copies::copy_bytes;

/// A server that the client talks to, by its identifier: the password with which the server shows itself, the user and
/// the password with which the client does, and the nonce that each of them uses next. A side without a password
/// shows no credential.
#[derive(Drop)]
pub struct Account {
    pub server: Bytes,
    pub server_password: Option<Bytes>,
    pub server_nonce: Bytes,
    pub user: Option<Bytes>,
    pub user_password: Option<Bytes>,
    pub user_nonce: Bytes,
}

impl Account {
    /// An equal account.
    pub fn copy(&self, alloc: Global) -> Result<Account, Memory>
        ensures { IfOk result (λ copy. copy ≡ self.now) }
    {
        Ok(Account {
            server: self.server.copy(alloc)?,
            server_password: copy_bytes(alloc, &self.server_password)?,
            server_nonce: self.server_nonce.copy(alloc)?,
            user: copy_bytes(alloc, &self.user)?,
            user_password: copy_bytes(alloc, &self.user_password)?,
            user_nonce: self.user_nonce.copy(alloc)?,
        })
    }
}
