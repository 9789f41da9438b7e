//! What a request changes.

ghost use Rattle.std.specs.Prelude.{◌≡◌, true, IfOk, OnOk};
ghost use Rattle.dots_lists.specs.Name.{is_name};
ghost use Rattle.data_channel.specs.Asking.{cuid_of};
ghost use Rattle.rest_answers.specs.Changes.{change_of, entry_with, entry_of};

use crate::caller::Caller;
use data_channel::{RestRequest, cuid_of};
use dots_history::{Change, Entry, MessageKey};
use dots_lists::{Bytes, Name, NoMemory, Text};
use std::alloc::Global;

/// What a request changes where it is accepted; None for a GET.
pub fn change_of(request: RestRequest) -> Option<Change>
    ensures { result ≡ change_of request }
{
    match request {
        RestRequest::PutClient { .. } | RestRequest::PostClient { .. } => Some(Change::Register),
        RestRequest::DeleteClient { .. } => Some(Change::Deregister),
        RestRequest::PutAlias { alias, .. } => Some(Change::SetAlias(alias)),
        RestRequest::PostAlias { alias, .. } => Some(Change::SetAlias(alias)),
        RestRequest::DeleteAlias { name, .. } => Some(Change::DropAlias { name }),
        RestRequest::PutAcl { acl, .. } => Some(Change::SetAcl(acl)),
        RestRequest::PostAcl { acl, .. } => Some(Change::SetAcl(acl)),
        RestRequest::DeleteAcl { name, .. } => Some(Change::DropAcl { name }),
        RestRequest::GetClient { .. }
        | RestRequest::GetAlias { .. }
        | RestRequest::GetAliases { .. }
        | RestRequest::GetAcl { .. }
        | RestRequest::GetAcls { .. } => None,
    }
}

/// The entry of a request that is accepted at this time, in seconds; None for a GET.
pub fn entry_of(
    alloc: Global,
    time: u64,
    caller: Caller,
    request: RestRequest,
) -> Result<Option<Entry>, NoMemory>
    ensures { IfOk result (λ entry. entry ≡ entry_of time caller request) }
{
    match text_of(alloc, cuid_of(&request)) {
        Ok(cuid) => Ok(entry_with(alloc, time, caller, cuid, change_of(request))),
        Err(fault) => Err(without(request, fault)),
    }
}

/// The entry of a change of the client of this name.
fn entry_with(
    alloc: Global,
    time: u64,
    caller: Caller,
    cuid: Text,
    change: Option<Change>,
) -> Option<Entry>
    ensures { result ≡ entry_with time caller cuid change }
{
    match change {
        Some(change) => Some(Entry {
            time,
            peer: caller.peer,
            domain: caller.domain,
            cuid,
            key: MessageKey::Http,
            reply: Bytes::new(alloc),
            change,
        }),
        None => None,
    }
}

/// The name as a text.
fn text_of(alloc: Global, name: &Name) -> Result<Text, NoMemory>
    ensures { IfOk result (λ text. text ≡ name.now) }
{
    match Text::new(alloc, name.bytes())? {
        Some(text) => Ok(text),
        None => unreachable!(),
    }
}

/// There is no memory for a request, which is let go.
fn without(_request: RestRequest, fault: NoMemory) -> NoMemory
    ensures { result ≡ fault }
{
    fault
}
