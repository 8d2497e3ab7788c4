// What a message is worked with.
use crate::rest::Rest;
use dm_auth::Account;
use dm_machine::Progress;

/// What a message is worked with: what the client keeps, the account with the nonces to use next, and how far the
/// session has come with the message's header.
#[derive(Clone, Copy)]
pub(crate) struct ClientWork<'a> {
    pub rest: &'a Rest,
    pub account: &'a Account,
    pub progress: Progress,
}
