// The headers of the client's messages.
ghost use Rattle.std.specs.Prelude.{◌≡◌, ◌+◌, ◌<◌, ◌^◌, None, IfOk};
ghost use Rattle.dm_tree.specs.Rows.{nodes};
ghost use Rattle.dm_tree.specs.Devices.{device_id as id_of};
ghost use Rattle.dm_headers.specs.declared.checks.Side.TheVariants.{User};
ghost use Rattle.dm_headers.specs.Checks.{login_of};
ghost use Rattle.dm_headers.specs.Headers as Spec;

use crate::device::IdPlace;
use dm_auth::Account;
use dm_base::{Boxed, Bytes, Limits, Memory};
use dm_headers::{Side, next_header};
use dm_machine::Progress;
use dm_tree::Tree;
use std::alloc::Global;
use syncml_types::copies::copy_bytes;
use syncml_types::{Header, Loc};

/// The header of the next message of a session, to the account's server, from the device and its user.
pub(crate) fn header_from(
    alloc: Global,
    limits: Limits,
    tree: &Tree,
    place: &IdPlace,
    progress: &Progress,
    account: &Account,
) -> Result<Boxed<Header>, Memory>
    requires own { progress.now.standing.own + 1 < 2 ^ 32 }
    ensures { IfOk result (λ header. header
        ≡ Spec.next_header (login_of User account.now) progress.now.standing limits progress.now.number
        (record { uri = account.now.server; name = None })
        (record { uri = id_of (nodes tree.now.rows); name = account.now.user })) }
{
    let target = Loc {
        uri: account.server.copy(alloc)?,
        name: None,
    };
    let source = Loc {
        uri: place.id(alloc, tree)?,
        name: copy_bytes(alloc, &account.user)?,
    };
    next_header(
        alloc,
        Side::User,
        account,
        &progress.standing,
        limits,
        progress.number,
        target,
        source,
    )
}
