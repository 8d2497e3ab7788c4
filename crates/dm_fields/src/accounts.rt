// Accounts as lines tell them.
ghost use Rattle.std.specs.Prelude.{◌≡◌, ◌&&◌, IfOk, Some};
ghost use Rattle.dm_base.specs.Fields.{parts, is_short, is_id};
ghost use Rattle.dm_fields.specs.Fields as Spec;

use crate::fields::seven_fields;
use crate::forms::{key_of, opt_of};
use dm_auth::Account;
use dm_base::{Bytes, FieldForm, Memory, is_field};
use std::alloc::Global;

fn are_names(server: &[u8], password: &[u8], user: &[u8], user_password: &[u8]) -> bool
    ensures { result
        ≡ (is_id server.now && is_short password.now && is_short user.now && is_short user_password.now) }
{
    is_field(FieldForm::Id, server)
        && is_field(FieldForm::Short, password)
        && is_field(FieldForm::Short, user)
        && is_field(FieldForm::Short, user_password)
}

/// What the fields of an `account` line say.
pub fn account_in(alloc: Global, line: &[u8]) -> Result<Option<Account>, Memory>
    ensures { IfOk result (λ account. account ≡ Spec.account_in (parts line.now)) }
{
    let Some((_, server, password, nonce, user, user_password, user_nonce)) = seven_fields(line)
    else {
        return Ok(None);
    };
    if !are_names(server, password, user, user_password) {
        return Ok(None);
    }
    let Some(server_nonce) = key_of(alloc, nonce)? else {
        return Ok(None);
    };
    let Some(user_nonce) = key_of(alloc, user_nonce)? else {
        return Ok(None);
    };
    Ok(Some(Account {
        server: Bytes::of_slice(alloc, server)?,
        server_password: opt_of(alloc, password)?,
        server_nonce,
        user: opt_of(alloc, user)?,
        user_password: opt_of(alloc, user_password)?,
        user_nonce,
    }))
}
