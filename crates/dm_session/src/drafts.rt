// What a message makes of all of a client but its engine and its queue, before it is made so.
ghost use Rattle.std.specs.Prelude.{◌≡◌, ◌<◌, length};
ghost use Rattle.dm_session.specs.Working.{rest_behind, drafted};
ghost use Rattle.dm_session.specs.Working as Spec;

use crate::answers::Answer;
use crate::rest::{Rest, Session};
use dm_auth::Account;
use dm_base::{Bytes, List};
use dm_ends::LastMessage;
use dm_machine::{End, UpdateResult};

/// Whether the session goes on, or has ended. A farewell is sent where it was denied.
#[derive(Drop)]
pub(crate) enum Next {
    GoesOn(Session),
    Ends(End, Option<LastMessage>),
}

/// What a message makes of a client. The RespURI and the account are told where they are new.
#[derive(Drop)]
pub(crate) struct ClientChanges {
    pub resp_uri: Option<Bytes>,
    pub account: Option<Account>,
    pub next: Next,
}

// Another account at the place of one, where there is another.
fn put_account(accounts: &mut List<Account>, at: usize, account: Option<Account>)
    requires { at < length accounts.old }
    ensures { accounts.new ≡ Spec.account_behind accounts.old at account }
{
    if let Some(account) = account
        && let Some(place) = accounts.get_mut(at)
    {
        *place = account;
    }
}

// Updates whose results were told in a session that is finished wait no longer.
fn forget_results(results: &mut List<UpdateResult>, end: End)
    ensures { results.new ≡ Spec.results_behind end results.old }
{
    if end == End::Finished {
        results.cut_to(0);
    }
}

impl Rest {
    /// A session of this number has begun. It takes no memory.
    pub(crate) fn begin(&mut self, number: u32, first: Session)
        ensures { self.new ≡ Spec.begun_rest self.old number first }
    {
        self.begun = number;
        self.session = Some(first);
        self.resp_uri = None;
        self.farewell = None;
    }

    // The session is over.
    fn end(&mut self, end: End, farewell: Option<LastMessage>)
        ensures { self.new ≡ Spec.ended_rest self.old end farewell }
    {
        self.session = None;
        forget_results(&mut self.results, end);
        self.farewell = farewell.or(self.farewell.take());
    }

    fn go_on(&mut self, next: Next) -> Answer
        ensures rest { self.new ≡ rest_behind self.old next }
        ensures answer { result ≡ Spec.answer_of next }
    {
        match next {
            Next::GoesOn(session) => {
                self.session = Some(session);
                Answer::Sent
            }
            Next::Ends(end, farewell) => {
                self.end(end, farewell);
                Answer::Ended(end)
            }
        }
    }

    /// Makes it so, for the account at a place. It takes no memory.
    pub(crate) fn take_up(&mut self, at: usize, draft: ClientChanges) -> Answer
        requires { at < length self.old.accounts }
        ensures rest { self.new ≡ drafted self.old at draft }
        ensures answer { result ≡ Spec.answer_of draft.next }
    {
        let ClientChanges {
            resp_uri,
            account,
            next,
        } = draft;
        self.resp_uri = resp_uri.or(self.resp_uri.take());
        put_account(&mut self.accounts, at, account);
        self.go_on(next)
    }
}
