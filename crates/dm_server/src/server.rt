// The server, which is seen as its machine.
ghost use Rattle.std.specs.Prelude.{◌≡◌, ◌<◌, false, ℕ, get_or, length, option_map};
ghost use Rattle.std.specs.Prelude.{IfOk, OnOk, OnErr};
ghost use Rattle.dm_ends.specs.Ready.{IsReadyMessage};
ghost use Rattle.dm_job.specs.Sound.{IsSoundJob};
ghost use Rattle.dm_service.specs.Events.{takes, arrival};
ghost use Rattle.dm_service.specs.History.{answer_now, next};
ghost use Rattle.dm_service.specs.Messages.{first_service};
ghost use Rattle.dm_service.specs.Report.{report_text};
ghost use Rattle.dm_server.specs.View.{Tells, arrival_of, sent_last};
ghost use Rattle.dm_server.specs.Working.{ComesAs};
ghost use Rattle.dm_server.specs.declared.coming.Coming.TheVariants as coming;

use crate::answers::ServerAnswer;
use crate::beginning::{begun, first_session};
use crate::coming::{Coming, what_comes};
use crate::drafts::take_up;
use crate::held::{Plan, PresentSession, Run};
use crate::packages::commands_in_all;
use crate::working::accept;
use dm_base::{Bytes, Memory, Nonce};
use dm_ends::LastMessage;
use dm_job::Job;
use dm_report::Findings;
use std::alloc::Global;
use std::marker::Model;
use syncml_codec::decode;
use syncml_types::Message;
use wbxml_tokens::FeedError;

/// A management server's end of the protocol: one job for one device, what is known of it, and at most one session.
///
/// A message costs what it holds and what is sent for it, and a command that it names is found by halving. What is
/// known of the job is copied where the client refuses the server's credential, which it may once in a session.
#[derive(Drop)]
pub struct Server {
    plan: Plan,
    run: Run,
    findings: Findings,
    session: Option<PresentSession>,
    sent: Option<LastMessage>,
}

impl Model for Server {
    ghost use Rattle.dm_service.specs.Service.{Service};

    ghost Value = { Service };

    ghost use Rattle.dm_server.specs.Inside.{server_of, IsConsistent};

    ghost view = { server_of };

    ghost invariant = { IsConsistent };
}

// What is known of each nonce.
fn whole(nonce: Nonce)
    ensures long { length nonce.bytes ≡ 16 }
    ensures bytes { (k : ℕ) → k < 16 → get_or nonce.bytes k 0 < 256 }
{}

impl Server {
    /// A server with a job that was read, to which no message came yet. The only error is want of memory.
    pub fn new(alloc: Global, job: Job) -> Result<Server, Memory>
        requires { IsSoundJob job }
        ensures { IfOk result (λ server. server ≡ first_service job) }
    {
        let commands = commands_in_all(job.packages.as_slice())?;
        Ok(Server {
            findings: Findings::new(alloc, commands as usize)?,
            plan: Plan { alloc, job },
            run: Run {
                next: 0,
                queued: false,
                runs_in: None,
            },
            session: None,
            sent: None,
        })
    }

    // The first message of a session.
    fn begin(
        &mut self,
        number: u32,
        message: &Message,
        nonce: &Nonce,
    ) -> Result<ServerAnswer, Memory>
        requires comes { ComesAs (coming.Begins number) self.old message.now nonce.now.bytes }
        requires message { IsReadyMessage message.now nonce.now.bytes }
        ensures answer { IfOk result (λ a. Tells a self.new
            (answer_now self.old (arrival message.now nonce.now.bytes))) }
        ensures ok { OnOk result (self.new ≡ next self.old (arrival message.now nonce.now.bytes)) }
        ensures err { OnErr result (self.new ≡ self.old) }
    {
        let run = begun(&self.plan, self.run);
        let mut session = first_session(&self.plan, number);
        let draft = accept(
            &self.plan,
            run,
            &mut session,
            &mut self.findings,
            message,
            nonce,
        )?;
        self.session = Some(session);
        Ok(take_up(&mut self.plan, &mut self.run, &mut self.sent, draft))
    }

    // A later message of the session.
    fn follow(&mut self, message: &Message, nonce: &Nonce) -> Result<ServerAnswer, Memory>
        requires comes { ComesAs coming.Follows self.old message.now nonce.now.bytes }
        requires message { IsReadyMessage message.now nonce.now.bytes }
        ensures answer { IfOk result (λ a. Tells a self.new
            (answer_now self.old (arrival message.now nonce.now.bytes))) }
        ensures ok { OnOk result (self.new ≡ next self.old (arrival message.now nonce.now.bytes)) }
        ensures err { OnErr result (self.new ≡ self.old) }
    {
        let Some(session) = &mut self.session else {
            return Ok(ServerAnswer::Ended);
        };
        let draft = accept(
            &self.plan,
            self.run,
            session,
            &mut self.findings,
            message,
            nonce,
        )?;
        Ok(take_up(&mut self.plan, &mut self.run, &mut self.sent, draft))
    }

    // A message, which is answered and no more where it isn't new.
    fn take(&mut self, message: &Message, nonce: &Nonce) -> Result<ServerAnswer, Memory>
        requires message { IsReadyMessage message.now nonce.now.bytes }
        ensures untaken { takes self.old (arrival message.now nonce.now.bytes) ≡ false → self.new ≡ self.old }
        ensures answer { IfOk result (λ a. Tells a self.new
            (answer_now self.old (arrival message.now nonce.now.bytes))) }
        ensures ok { OnOk result (self.new ≡ next self.old (arrival message.now nonce.now.bytes)) }
        ensures err { OnErr result (self.new ≡ self.old) }
    {
        match what_comes(&self.session, message) {
            Coming::Old(answer) => Ok(answer),
            Coming::Begins(number) => self.begin(number, message, nonce),
            Coming::Follows => self.follow(message, nonce),
        }
    }

    /// Delivers the bytes of a message, which a challenge tells `nonce`. After `Memory` nothing has changed, so the
    /// same bytes may be delivered again. Bytes that aren't taken change nothing: those of no message or of no new one.
    #[tactic(auto, unfolding(dm_service::specs::History::next, dm_service::specs::History::answer_now, dm_service::specs::Events::takes, dm_service::specs::Events::refusal))]
    pub fn deliver(&mut self, bytes: &[u8], nonce: Nonce) -> Result<ServerAnswer, Memory>
        ensures untaken { takes self.old (arrival_of bytes.now nonce.bytes) ≡ false → self.new ≡ self.old }
        ensures answer { IfOk result (λ a. Tells a self.new (answer_now self.old (arrival_of bytes.now nonce.bytes))) }
        ensures ok { OnOk result (self.new ≡ next self.old (arrival_of bytes.now nonce.bytes)) }
        ensures err { OnErr result (self.new ≡ self.old) }
    {
        match decode(self.plan.alloc, bytes) {
            Err(FeedError::Memory) => Err(Memory),
            Err(FeedError::Refused(refusal)) => Ok(ServerAnswer::Refused(refusal)),
            Ok(message) => {
                // They tell that the message is fit, and the nonce whole.
                let _ = message.header();
                whole(nonce);
                let answer = self.take(&message, &nonce);
                drop(message);
                answer
            }
        }
    }

    /// The message sent last, in any session, in its bytes. None comes exactly where none was sent.
    pub fn again(&self) -> Option<&[u8]>
        ensures { option_map (λ bytes. bytes.now) result ≡ sent_last self.now }
    {
        match &self.sent {
            None => None,
            Some(sent) => Some(sent.bytes.as_slice()),
        }
    }

    /// The report of the job: for the longest beginning of its commands that all have their codes, each code and what
    /// was found, then the alerts that were kept, and the job's state.
    pub fn report(&self) -> Result<Bytes, Memory>
        ensures { IfOk result (λ text. text ≡ report_text self.now) }
    {
        self.findings.report(self.run.runs_in.is_some())
    }
}
