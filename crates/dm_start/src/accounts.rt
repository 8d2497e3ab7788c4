// The accounts that a start section has told so far.
ghost use Rattle.std.specs.Prelude.{◌≡◌};
ghost use Rattle.dm_start.specs.Start.{is_known as is_known_among};

use dm_auth::Account;

/// Whether an account is of this server.
pub(crate) fn is_known(accounts: &[Account], server: &[u8]) -> bool
    ensures { result ≡ is_known_among accounts.now server.now }
{
    accounts.iter().any(|a| a.server.as_slice() == server)
}
