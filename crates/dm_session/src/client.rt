// The client, which is seen as its machine.
ghost use Rattle.std.specs.Prelude.{◌≡◌, ◌≤◌, ◌<◌, ◌^◌, [], true, false, None, ℕ, get_or, length, is_some, option_map};
ghost use Rattle.std.specs.Prelude.{IfOk, IsErrOf};
ghost use Rattle.std.specs.Prelude.{OnOk, OnErr, Ok as Good};
ghost use Rattle.std.specs.List.{AllByRecursion};
ghost use Rattle.std.specs.Option.{option_copied};
ghost use Rattle.syncml_types.specs.Message.{Parts};
ghost use Rattle.syncml_types.specs.Canonical.{canonical};
ghost use Rattle.syncml_codec.specs.Decoding.{read_of};
ghost use Rattle.dm_tree.specs.Rows.{nodes, ids, IsNoneParked};
ghost use Rattle.dm_tree.specs.Nodes.{IsStamp};
ghost use Rattle.dm_tree.specs.Devices.{IsDeviceTree};
ghost use Rattle.dm_commands.specs.Promises.{KeepIdsBut, none_moved};
ghost use Rattle.dm_atomic.specs.Stays.{StayBut};
ghost use Rattle.dm_atomic.specs.Updates.{begun as begun_state, is_updating};
ghost use Rattle.dm_machine.specs.Events.{clock, opened, message as came, act, takes};
ghost use Rattle.dm_machine.specs.History.{answer_now, next};
ghost use Rattle.dm_machine.specs.Machine.{Session};
ghost use Rattle.dm_machine.specs.Messages.{correlator_of as correlator_in};
ghost use Rattle.dm_machine.specs.Ready.{IsReadyAccount, IsReadyLimits, IsReadyMessage};
ghost use Rattle.dm_session.specs.Stays.{body_covers, read_covers, engine_in};
ghost use Rattle.dm_session.specs.View.{Tells, Begins, TellsActed, sent_last, package_started, position};
ghost use Rattle.dm_session.specs.declared.answers.BeginError.TheVariants as error;

use crate::answers::{Acted, Answer, BeginError};
use crate::beginning::open;
use crate::device::IdPlace;
use crate::hearing::answer_to_old;
use crate::rest::Rest;
use crate::working::accept;
use dm_atomic::{Engine, Started};
use dm_auth::Account;
use dm_base::{Bytes, Limits, List, Memory, Nonce};
use dm_machine::{Initiator, UpdateResult};
use dm_pack::Queue;
use dm_tree::{Stamp, Tree};
use std::alloc::Global;
use std::marker::Model;
use syncml_codec::decode;
use syncml_types::Message;
use syncml_types::copies::copy_bytes;
use wbxml_tokens::FeedError;

/// A device's end of the protocol: its tree, its accounts, and at most one open session.
///
/// A message costs what it holds, what it names in the tree, and what is sent for it. What waits to be sent is copied
/// where the server asks for the client's credential again, which it may once in a session.
#[derive(Drop)]
pub struct Client {
    engine: Engine,
    queue: Queue,
    rest: Rest,
}

impl Model for Client {
    ghost use Rattle.dm_session.specs.View.{WholeMachine};

    ghost Value = { WholeMachine };

    ghost use Rattle.std.specs.FinMap as map;
    ghost use Rattle.std.specs.Coded.{codes};

    ghost coded = { Prim.hlevel (codes, map.code) };

    ghost use Rattle.dm_session.specs.Inside.{whole_client, IsConsistent};

    ghost view = { whole_client };

    ghost invariant = { IsConsistent };
}

// The Correlator with which an update was started.
fn correlator_of(alloc: Global, started: &Option<Started>) -> Result<Option<Bytes>, Memory>
    ensures { IfOk result (λ text. text ≡ correlator_in started.now) }
{
    match started {
        None => Ok(None),
        Some(started) => Ok(copy_bytes(alloc, &started.correlator)?),
    }
}

// What is known of each nonce.
fn whole(nonce: Nonce)
    ensures long { length nonce.bytes ≡ 16 }
    ensures bytes { (k : ℕ) → k < 16 → get_or nonce.bytes k 0 < 256 }
{}

// What is known of each stamp.
fn stamped(now: Stamp)
    ensures { IsStamp now }
{}

#[tactic(auto, unfolding(dm_machine::specs::History::next, dm_machine::specs::History::answer_now, dm_machine::specs::Events::takes, dm_machine::specs::Events::after, dm_machine::specs::Events::taken_answer, dm_machine::specs::Events::refusal))]
impl Client {
    /// A client with a device's tree, and accounts whose names are SHORT. No session was begun on it. An update that
    /// runs was started, without a Correlator. The only error is want of memory.
    pub fn new(
        alloc: Global,
        accounts: List<Account>,
        tree: Tree,
        limits: Limits,
    ) -> Result<Client, Memory>
        requires accounts { AllByRecursion IsReadyAccount accounts }
        requires device { IsDeviceTree (nodes tree.rows) }
        requires parked { IsNoneParked tree.rows }
        requires limits { IsReadyLimits limits }
        ensures machine { IfOk result (λ client. client.machine ≡ record {
          limits = limits;
          clock = tree.clock;
          engine = begun_state (nodes tree.rows);
          queue = [];
          accounts = accounts;
          session = None;
          begun = 0;
          results = [];
          resp_uri = None;
          farewell = None;
        }) }
        ensures ids { IfOk result (λ client. client.ids ≡ ids tree.rows) }
        ensures base { IfOk result (λ client. client.base_ids ≡ None) }
    {
        // It tells that the stamp is one.
        let _ = tree.clock();
        let _ = tree.root();
        let place = IdPlace::new(alloc)?;
        let engine = Engine::new(alloc, tree, limits.max_obj)?;
        Ok(Client {
            engine,
            queue: Queue::new(alloc),
            rest: Rest {
                alloc,
                limits,
                place,
                accounts,
                session: None,
                begun: 0,
                results: List::new(alloc),
                resp_uri: None,
                farewell: None,
            },
        })
    }

    /// Begins a session with the account at a place. A session that is open is over then: what waits in it and what is
    /// unfinished is given up. `Exhausted` comes exactly where the number isn't above the last one begun, which is
    /// told, and takes no memory. After any error all is as before.
    pub fn begin(&mut self, account: usize, kind: Initiator, session: u32) -> Result<(), BeginError>
        requires { account < length self.old.machine.accounts }
        ensures answer { Begins result self.new.machine (answer_now self.old.machine (opened account kind session)) }
        ensures memory { IsErrOf result error.Memory → takes self.old.machine (opened account kind session) ≡ true }
        ensures ok { OnOk result (self.new.machine ≡ next self.old.machine (opened account kind session)) }
        ensures err { OnErr result (self.new ≡ self.old) }
        ensures ids { StayBut none_moved (engine_in self.old) (engine_in self.new) }
        ensures kept { self.old.machine.engine.group ≡ None → KeepIdsBut none_moved self.old.ids self.new.ids }
    {
        if session <= self.rest.begun {
            return Err(BeginError::Exhausted {
                last: self.rest.begun,
            });
        }
        let mark = self.engine.mark();
        self.engine.abandon();
        match open(&self.engine, &self.rest, account, kind, session) {
            Err(Memory) => {
                self.engine.back(mark);
                Err(BeginError::Memory)
            }
            Ok((queue, first)) => {
                self.engine.settle();
                self.queue = queue;
                self.rest.begin(session, first);
                Ok(())
            }
        }
    }

    // A message that is new.
    fn accept(&mut self, message: Message, nonce: &Nonce) -> Result<Answer, Memory>
        requires takes { takes self.old.machine (came (Good message) nonce.now.bytes) ≡ true }
        requires message { IsReadyMessage message nonce.now.bytes }
        ensures answer { IfOk result (λ a. Tells a self.new.machine
            (answer_now self.old.machine (came (Good message) nonce.now.bytes))) }
        ensures ok { OnOk result (self.new.machine ≡ next self.old.machine (came (Good message) nonce.now.bytes)) }
        ensures err { OnErr result (self.new ≡ self.old) }
        ensures ids { StayBut (body_covers message.body) (engine_in self.old) (engine_in self.new) }
    {
        let progress = match &self.rest.session {
            None => return Ok(Answer::NoSession),
            Some(session) => session.progress,
        };
        let mark = self.engine.mark();
        match accept(
            &mut self.engine,
            &mut self.queue,
            &self.rest,
            &progress,
            message,
            nonce,
        ) {
            Err(memory) => {
                self.engine.back(mark);
                Err(memory)
            }
            Ok(draft) => {
                self.engine.settle();
                Ok(self.rest.take_up(progress.account, draft))
            }
        }
    }

    // A message, which is answered and no more where it isn't new.
    fn take(&mut self, message: Message, nonce: &Nonce) -> Result<Answer, Memory>
        requires message { IsReadyMessage message nonce.now.bytes }
        ensures untaken { takes self.old.machine (came (Good message) nonce.now.bytes) ≡ false
            → self.new ≡ self.old }
        ensures answer { IfOk result (λ a. Tells a self.new.machine
            (answer_now self.old.machine (came (Good message) nonce.now.bytes))) }
        ensures ok { OnOk result (self.new.machine ≡ next self.old.machine (came (Good message) nonce.now.bytes)) }
        ensures err { OnErr result (self.new ≡ self.old) }
        ensures ids { StayBut (body_covers message.body) (engine_in self.old) (engine_in self.new) }
    {
        match answer_to_old(&self.rest.session, &message) {
            Some(answer) => Ok(answer),
            None => self.accept(message, nonce),
        }
    }

    /// Delivers the bytes of a message, which a challenge tells `nonce`. After `Memory` nothing has changed, so the
    /// same bytes may be delivered again.
    ///
    /// Bytes that aren't taken change nothing: those of no message, of no new one, or of none of the open session.
    /// Where no group was open, a node that no Delete and no rename of the message covers keeps its number.
    pub fn deliver(&mut self, bytes: &[u8], nonce: Nonce) -> Result<Answer, Memory>
        ensures untaken { takes self.old.machine (came (read_of bytes.now) nonce.bytes) ≡ false → self.new ≡ self.old }
        ensures answer { IfOk result (λ a. Tells a self.new.machine
            (answer_now self.old.machine (came (read_of bytes.now) nonce.bytes))) }
        ensures ok { OnOk result (self.new.machine ≡ next self.old.machine (came (read_of bytes.now) nonce.bytes)) }
        ensures err { OnErr result (self.new ≡ self.old) }
        ensures ids { StayBut (read_covers (read_of bytes.now)) (engine_in self.old) (engine_in self.new) }
        ensures kept { self.old.machine.engine.group ≡ None
            → KeepIdsBut (read_covers (read_of bytes.now)) self.old.ids self.new.ids }
    {
        match decode(self.rest.alloc, bytes) {
            Err(FeedError::Memory) => Err(Memory),
            Err(FeedError::Refused(refusal)) => Ok(Answer::Refused(refusal)),
            Ok(message) => {
                // They tell that the message is fit, and the nonce whole.
                let _ = message.header();
                whole(nonce);
                self.take(message, &nonce)
            }
        }
    }

    // Whether an update runs, as the engine remembers it: the tree isn't gone through.
    fn is_updating(&self) -> bool
        ensures { result ≡ is_updating self.now.machine.engine.tree }
    {
        self.engine.started().is_some()
    }

    fn end_update(&mut self, ok: bool) -> Result<(), Memory>
        requires { takes self.old.machine (act ok) ≡ true }
        ensures ok { OnOk result (self.new.machine ≡ next self.old.machine (act ok)) }
        ensures err { OnErr result (self.new ≡ self.old) }
        ensures ids { (self.new.ids ≡ self.old.ids) × (self.new.base_ids ≡ self.old.base_ids) }
    {
        let correlator = correlator_of(self.rest.alloc, self.engine.started())?;
        self.rest.results.push(UpdateResult { correlator, ok })?;
        let mark = self.engine.mark();
        match self.engine.finish_update(ok) {
            Err(memory) => {
                self.engine.back(mark);
                let _ = self.rest.results.pop();
                Err(memory)
            }
            Ok(()) => {
                self.engine.settle();
                Ok(())
            }
        }
    }

    /// The update that runs has ended, which a later first package tells. `NotNow` comes exactly where a session is
    /// open or no update runs: State isn't 60; that takes no memory. After `Memory` nothing has changed.
    pub fn acted(&mut self, ok: bool) -> Result<Acted, Memory>
        ensures answer { IfOk result (λ a. TellsActed a (answer_now self.old.machine (act ok))) }
        ensures memory { OnErr result (takes self.old.machine (act ok) ≡ true) }
        ensures ok { OnOk result (self.new.machine ≡ next self.old.machine (act ok)) }
        ensures err { OnErr result (self.new ≡ self.old) }
        ensures ids { (self.new.ids ≡ self.old.ids) × (self.new.base_ids ≡ self.old.base_ids) }
    {
        if self.rest.session.is_some() || !self.is_updating() {
            return Ok(Acted::NotNow);
        }
        self.end_update(ok)?;
        Ok(Acted::Done)
    }

    /// Sets the clock, which stamps what is changed from now on.
    pub fn set_clock(&mut self, now: Stamp)
        ensures machine { self.new.machine ≡ next self.old.machine (clock now) }
        ensures ids { (self.new.ids ≡ self.old.ids) × (self.new.base_ids ≡ self.old.base_ids) }
    {
        // It tells that the stamp is one.
        stamped(now);
        self.engine.set_clock(now);
    }

    /// The message sent last in the open session, in its bytes. None comes exactly where no session is open.
    pub fn again(&self) -> Option<&[u8]>
        ensures { option_map (λ bytes. bytes.now) result ≡ sent_last self.now.machine }
    {
        match &self.rest.session {
            None => None,
            Some(session) => Some(session.sent.bytes.as_slice()),
        }
    }

    /// The message sent last in the open session. None comes exactly where no session is open.
    pub fn sent(&self) -> Option<&Message>
        ensures { option_map (λ m. m.now) result ≡ option_map (λ (s : Session). s.sent) self.now.machine.session }
    {
        match &self.rest.session {
            None => None,
            Some(session) => Some(&session.sent.message),
        }
    }

    /// The message with which the session begun last was denied, in its bytes. None comes exactly where it wasn't.
    pub fn farewell(&self) -> Option<&[u8]>
        ensures { option_map (λ bytes. bytes.now) result
            ≡ option_map (λ (m : Parts). canonical m) self.now.machine.farewell }
    {
        match &self.rest.farewell {
            None => None,
            Some(sent) => Some(sent.bytes.as_slice()),
        }
    }

    /// The package to install: the value of PkgData, where an update runs. None comes exactly where none runs.
    pub fn started(&self) -> Option<&[u8]>
        ensures none { is_some result ≡ is_updating self.now.machine.engine.tree }
        ensures package { option_map (λ bytes. bytes.now) result ≡ package_started self.now.machine.engine.tree }
    {
        if !self.is_updating() {
            return None;
        }
        let tree = self.engine.tree();
        let found = tree.update_ids()?;
        Some(tree.view(found.pkg_data).value.bytes.as_slice())
    }

    /// The working tree.
    pub fn tree(&self) -> &Tree
        ensures nodes { nodes result.now.rows ≡ self.now.machine.engine.tree }
        ensures ids { ids result.now.rows ≡ self.now.ids }
        ensures clock { result.now.clock ≡ self.now.machine.clock }
        ensures device { IsDeviceTree (nodes result.now.rows) }
    {
        self.engine.tree()
    }

    /// The open session's number, and the MsgID of its last accepted message, 0 at first.
    pub fn last(&self) -> Option<(u32, u32)>
        ensures { result ≡ option_map position self.now.machine.session }
    {
        match &self.rest.session {
            None => None,
            Some(session) => Some((session.progress.number, session.progress.standing.last)),
        }
    }

    /// The RespURI of the last accepted message that had one since the last begin.
    pub fn resp_uri(&self) -> Option<&[u8]>
        ensures { option_map (λ bytes. bytes.now) result ≡ self.now.machine.resp_uri }
    {
        match &self.rest.resp_uri {
            None => None,
            Some(uri) => Some(uri.as_slice()),
        }
    }
}
