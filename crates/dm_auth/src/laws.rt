// What the two ends can rely on.
ghost use Rattle.dm_auth.specs.Laws.{CredentialIsAccepted};

/// Law: what one end shows is accepted by the other, where both have the same user, password and nonce.
pub fn credential_is_accepted()
    ensures { CredentialIsAccepted }
{}
