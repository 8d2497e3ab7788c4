// The headers of the server's messages.
ghost use Rattle.std.specs.Prelude.{◌≡◌, ◌+◌, ◌<◌, ◌^◌, IfOk};
ghost use Rattle.dm_service.specs.Service.{Service};
ghost use Rattle.dm_service.specs.Sending as Spec;
ghost use Rattle.dm_server.specs.Working.{with_account};

use crate::held::Plan;
use dm_auth::Account;
use dm_base::{Boxed, Bytes, Memory};
use dm_headers::{Side, next_header};
use dm_service::ServiceProgress;
use std::alloc::Global;
use syncml_types::{Header, Loc, Message};

// The client, by the Source of the message that is answered.
fn target_of(alloc: Global, message: &Message) -> Result<Loc, Memory>
    ensures { IfOk result (λ target. target ≡ Spec.client_target message.now) }
{
    let source = &message.header().source.uri;
    let uri = if source.len() > 255 {
        Bytes::of_slice(alloc, b"device")?
    } else {
        source.copy(alloc)?
    };
    Ok(Loc { uri, name: None })
}

/// The header of the message that answers one, of the server of an account.
pub(crate) fn header_for(
    plan: &Plan,
    account: &Account,
    progress: &ServiceProgress,
    message: &Message,
) -> Result<Boxed<Header>, Memory>
    requires own { progress.now.standing.own + 1 < 2 ^ 32 }
    ensures { IfOk result (λ header. (v : Service) → v.job ≡ with_account plan.now.job account.now
        → header ≡ Spec.header_for v progress.now message.now) }
{
    let target = target_of(plan.alloc, message)?;
    let source = Loc {
        uri: account.server.copy(plan.alloc)?,
        name: None,
    };
    next_header(
        plan.alloc,
        Side::Server,
        account,
        &progress.standing,
        plan.job.limits,
        progress.number,
        target,
        source,
    )
}
