//! What a GET shows.

ghost use Rattle.std.specs.Prelude.{◌≡◌, List, IfOk, Some, option_map, option_copied};
ghost use Rattle.dots_history.specs.declared.entry.Entry.{Entry};
ghost use Rattle.dots_history.specs.Histories.{held};
ghost use Rattle.dots_history.specs.Held.{aliases_of, acls_of, alias_named, acl_named};
ghost use Rattle.data_channel.specs.declared.replies.RestBody.TheVariants as bodies;
ghost use Rattle.dots_registry.specs.RegistryValues.{Represents};
ghost use Rattle.rest_answers.specs.Known.{client_for};
ghost use Rattle.rest_answers.specs.Answers.{body_of};

use crate::copies::{copy_of_acls, copy_of_aliases};
use acl_lists::{Acl, Alias};
use data_channel::{RestBody, RestRequest};
use dots_lists::{Name, NoMemory};
use dots_registry::Registry;
use rest_answers::Caller;
use std::alloc::Global;

/// What is shown to a request of this caller, with copies of what is held; None where it isn't a GET or nothing is there.
pub fn body_of(
    alloc: Global,
    registry: &Registry,
    caller: Caller,
    request: &RestRequest,
) -> Result<Option<RestBody>, NoMemory>
    ensures { (entries : List Entry) → Represents registry.now entries
        → IfOk result (λ body. body ≡ body_of request.now (aliases_of (client_for caller request.now) (held entries)) (acls_of (client_for caller request.now) (held entries))) }
{
    match request {
        RestRequest::GetClient { cuid } => client_body(alloc, registry, caller, cuid),
        RestRequest::GetAlias { cuid, name } => {
            alias_body(alloc, registry.alias(caller.domain, cuid.bytes(), name))
        }
        RestRequest::GetAliases { cuid } => {
            aliases_body(alloc, registry.aliases(caller.domain, cuid.bytes()))
        }
        RestRequest::GetAcl { cuid, name } => {
            acl_body(alloc, registry.acl(caller.domain, cuid.bytes(), name))
        }
        RestRequest::GetAcls { cuid } => {
            acls_body(alloc, registry.acls(caller.domain, cuid.bytes()))
        }
        _ => Ok(None),
    }
}

fn client_body(
    alloc: Global,
    registry: &Registry,
    caller: Caller,
    cuid: &Name,
) -> Result<Option<RestBody>, NoMemory>
    ensures { (entries : List Entry) → Represents registry.now entries
        → IfOk result (λ body. body ≡ Some (bodies.Client cuid.now (aliases_of (record { domain = caller.domain; cuid = cuid.now }) (held entries)) (acls_of (record { domain = caller.domain; cuid = cuid.now }) (held entries)))) }
{
    let aliases = copy_of_aliases(alloc, registry.aliases(caller.domain, cuid.bytes()))?;
    let acls = copy_of_acls(alloc, registry.acls(caller.domain, cuid.bytes()))?;
    let cuid = cuid.copy()?;
    Ok(Some(RestBody::Client {
        cuid,
        aliases,
        acls,
    }))
}

fn alias_body(alloc: Global, alias: Option<&Alias>) -> Result<Option<RestBody>, NoMemory>
    ensures { IfOk result (λ body. body ≡ option_map bodies.OneAlias (option_copied alias.entry)) }
{
    match alias {
        Some(alias) => Ok(Some(RestBody::OneAlias(alias.copy(alloc)?))),
        None => Ok(None),
    }
}

fn aliases_body(alloc: Global, aliases: &[Alias]) -> Result<Option<RestBody>, NoMemory>
    ensures { IfOk result (λ body. body ≡ Some (bodies.Aliases aliases.now)) }
{
    Ok(Some(RestBody::Aliases(copy_of_aliases(alloc, aliases)?)))
}

fn acl_body(alloc: Global, acl: Option<&Acl>) -> Result<Option<RestBody>, NoMemory>
    ensures { IfOk result (λ body. body ≡ option_map bodies.OneAcl (option_copied acl.entry)) }
{
    match acl {
        Some(acl) => Ok(Some(RestBody::OneAcl(acl.copy(alloc)?))),
        None => Ok(None),
    }
}

fn acls_body(alloc: Global, acls: &[Acl]) -> Result<Option<RestBody>, NoMemory>
    ensures { IfOk result (λ body. body ≡ Some (bodies.Acls acls.now)) }
{
    Ok(Some(RestBody::Acls(copy_of_acls(alloc, acls)?)))
}
