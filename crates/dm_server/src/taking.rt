// A server as what answers the messages that come over a network.
ghost use Rattle.dm_core.specs.Machines.{TellsReply};
ghost use Rattle.dm_service.specs.Events.{Answer as Answered};
ghost use Rattle.dm_service.specs.Service.{Service};
ghost use Rattle.dm_server.specs.Taking.{core_reply, service_machine};
ghost use Rattle.dm_server.specs.View.{Tells, sent_last};

use crate::answers::ServerAnswer;
use crate::server::Server;
use dm_base::{Memory, Nonce};
use dm_core::{Core, ReplyKind};

// The kind of reply that an answer is.
fn kind_of(answer: ServerAnswer) -> ReplyKind
    ensures { (v : Service) (a : Answered) → Tells answer v a → TellsReply result (sent_last v) (core_reply a) }
{
    match answer {
        ServerAnswer::Sent => ReplyKind::Message,
        ServerAnswer::Kept => ReplyKind::Message,
        ServerAnswer::Ended => ReplyKind::Over,
        ServerAnswer::Stale => ReplyKind::Bad,
        ServerAnswer::Stranger => ReplyKind::Bad,
        ServerAnswer::Refused(_) => ReplyKind::Bad,
    }
}

impl Core for Server {
    ghost machine = { service_machine };

    ghost sent = { sent_last };

    fn take(&mut self, bytes: &[u8], nonce: Nonce) -> Result<ReplyKind, Memory> {
        match self.deliver(bytes, nonce) {
            Ok(answer) => Ok(kind_of(answer)),
            Err(memory) => Err(memory),
        }
    }

    fn again(&self) -> Option<&[u8]> {
        Server::again(self)
    }
}
