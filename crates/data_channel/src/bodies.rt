//! The bodies of requests (RFC 8783, sections 4.3, 6 and 7).

ghost use Rattle.std.specs.Prelude.{◌≡◌, codes};
ghost use Rattle.serde_json.specs.Find.{get};
ghost use Rattle.serde_json.specs.View.{view};
ghost use Rattle.list_json.specs.declared.fault.Member.TheVariants as the;
ghost use Rattle.list_json.specs.Steps.{Gives, needed};
ghost use Rattle.data_channel.specs.declared.request.Wanted.TheVariants as wanted;
ghost use Rattle.data_channel.specs.Bodies.{sole_item, client_in, listed_alias, spelled_alias, alias_body, listed_acl, spelled_acl, acl_body, same_name, named_alias, named_acl, names_acl, posted, whole_request};
ghost use Rattle.data_channel.specs.JsonValues.{ReadsValue};

use crate::request::{RestRequest, Wanted};
use acl_lists::{Acl, Alias};
use dots_lists::Name;
use list_json::{ListFault, Member, Shape, acl_of, alias_of, check_members, name_of};
use serde_json::Value;
use std::alloc::Global;

/// The one item of an array.
fn sole_item(member: Member, value: &Value) -> Result<&Value, ListFault>
    ensures { ReadsValue result (sole_item member (view value.now)) }
{
    let Some(items) = value.as_array() else {
        return Err(ListFault::Invalid(member));
    };
    match items.as_slice() {
        [] => Err(ListFault::Missing(member)),
        [item] => Ok(item),
        _ => Err(ListFault::Invalid(member)),
    }
}

/// The one item of an array that is a member of this name.
fn own_item<'a>(object: &'a Value, name: &str, member: Member) -> Result<&'a Value, ListFault>
    ensures { ReadsValue result (needed member (sole_item member) (get name.now (view object.now))) }
{
    match object.get(name) {
        Some(value) => sole_item(member, value),
        None => Err(ListFault::Missing(member)),
    }
}

/// The cuid in the body of a client.
fn client_of(alloc: Global, body: &Value) -> Result<Name, ListFault>
    ensures { Gives result (client_in (view body.now)) }
{
    check_members(body, Shape::ClientBody, Member::DotsClient)?;
    let client = own_item(
        body,
        "ietf-dots-data-channel:dots-client",
        Member::DotsClient,
    )?;
    check_members(client, Shape::Client, Member::DotsClient)?;
    match client.get("cuid") {
        Some(cuid) => name_of(alloc, Member::Cuid, cuid),
        None => Err(ListFault::Missing(Member::Cuid)),
    }
}

fn listed_alias(aliases: &Value) -> Result<&Value, ListFault>
    ensures { ReadsValue result (listed_alias (view aliases.now)) }
{
    check_members(aliases, Shape::Aliases, Member::Aliases)?;
    own_item(aliases, "alias", Member::Alias)
}

/// The alias in a body, in one of its two spellings.
fn spelled_alias(body: &Value) -> Result<&Value, ListFault>
    ensures { ReadsValue result (spelled_alias (get (codes "ietf-dots-data-channel:alias") (view body.now)) (get (codes "ietf-dots-data-channel:aliases") (view body.now))) }
{
    let one = body.get("ietf-dots-data-channel:alias");
    let all = body.get("ietf-dots-data-channel:aliases");
    match (one, all) {
        (None, None) => Err(ListFault::Missing(Member::Alias)),
        (Some(alias), None) => sole_item(Member::Alias, alias),
        (None, Some(aliases)) => listed_alias(aliases),
        (Some(_), Some(_)) => Err(ListFault::Invalid(Member::Aliases)),
    }
}

/// The alias that a body has, in one of its two spellings.
pub fn alias_body(alloc: Global, body: &Value) -> Result<Alias, ListFault>
    ensures { Gives result (alias_body (view body.now)) }
{
    check_members(body, Shape::AliasBody, Member::Alias)?;
    let alias = spelled_alias(body)?;
    alias_of(alloc, alias)
}

fn listed_acl(acls: &Value) -> Result<&Value, ListFault>
    ensures { ReadsValue result (listed_acl (view acls.now)) }
{
    check_members(acls, Shape::Acls, Member::Acls)?;
    own_item(acls, "acl", Member::Acl)
}

/// The access list in a body, in one of its two spellings.
fn spelled_acl(body: &Value) -> Result<&Value, ListFault>
    ensures { ReadsValue result (spelled_acl (get (codes "ietf-dots-data-channel:acl") (view body.now)) (get (codes "ietf-dots-data-channel:acls") (view body.now))) }
{
    let one = body.get("ietf-dots-data-channel:acl");
    let all = body.get("ietf-dots-data-channel:acls");
    match (one, all) {
        (None, None) => Err(ListFault::Missing(Member::Acl)),
        (Some(acl), None) => sole_item(Member::Acl, acl),
        (None, Some(acls)) => listed_acl(acls),
        (Some(_), Some(_)) => Err(ListFault::Invalid(Member::Acls)),
    }
}

/// The access list that a body has, in one of its two spellings.
pub fn acl_body(alloc: Global, body: &Value) -> Result<Acl, ListFault>
    ensures { Gives result (acl_body (view body.now)) }
{
    check_members(body, Shape::AclBody, Member::Acl)?;
    let acl = spelled_acl(body)?;
    acl_of(alloc, acl)
}

/// Refuses another name than that of the path.
fn check_name(member: Member, wanted: &Name, given: &Name) -> Result<(), ListFault>
    ensures { result ≡ same_name member wanted.now given.now }
{
    if given.bytes() == wanted.bytes() {
        return Ok(());
    }
    Err(ListFault::Invalid(member))
}

fn names_acl(body: &Value) -> bool
    ensures { result ≡ names_acl (view body.now) }
{
    body.get("ietf-dots-data-channel:acl").is_some()
        || body.get("ietf-dots-data-channel:acls").is_some()
}

fn posted(alloc: Global, cuid: Name, body: &Value) -> Result<RestRequest, ListFault>
    ensures { Gives result (posted cuid (view body.now)) }
{
    if names_acl(body) {
        let acl = acl_body(alloc, body)?;
        return Ok(RestRequest::PostAcl { cuid, acl });
    }
    let alias = alias_body(alloc, body)?;
    Ok(RestRequest::PostAlias { cuid, alias })
}

/// What a body makes of a PUT of this client.
fn put_client(alloc: Global, cuid: Name, body: &Value) -> Result<RestRequest, ListFault>
    ensures { Gives result (whole_request (wanted.PutClient cuid) (view body.now)) }
{
    let given = client_of(alloc, body)?;
    check_name(Member::Cuid, &cuid, &given)?;
    Ok(RestRequest::PutClient { cuid })
}

/// The alias in a body, which has this name.
fn named_alias(alloc: Global, name: &Name, body: &Value) -> Result<Alias, ListFault>
    ensures { Gives result (named_alias name.now (view body.now)) }
{
    let alias = alias_body(alloc, body)?;
    match check_name(Member::Name, name, &alias.name) {
        Ok(()) => Ok(alias),
        Err(fault) => Err(fault),
    }
}

/// The access list in a body, which has this name.
fn named_acl(alloc: Global, name: &Name, body: &Value) -> Result<Acl, ListFault>
    ensures { Gives result (named_acl name.now (view body.now)) }
{
    let acl = acl_body(alloc, body)?;
    match check_name(Member::Name, name, &acl.name) {
        Ok(()) => Ok(acl),
        Err(fault) => Err(fault),
    }
}

/// What a body makes of a PUT of this alias.
fn put_alias(alloc: Global, cuid: Name, name: &Name, body: &Value) -> Result<RestRequest, ListFault>
    ensures { Gives result (whole_request (wanted.PutAlias cuid name.now) (view body.now)) }
{
    match named_alias(alloc, name, body) {
        Ok(alias) => Ok(RestRequest::PutAlias { cuid, alias }),
        Err(fault) => Err(fault),
    }
}

/// What a body makes of a PUT of this access list.
fn put_acl(alloc: Global, cuid: Name, name: &Name, body: &Value) -> Result<RestRequest, ListFault>
    ensures { Gives result (whole_request (wanted.PutAcl cuid name.now) (view body.now)) }
{
    match named_acl(alloc, name, body) {
        Ok(acl) => Ok(RestRequest::PutAcl { cuid, acl }),
        Err(fault) => Err(fault),
    }
}

/// What a body makes of a request that wants one.
pub fn whole_request(alloc: Global, wanted: Wanted, body: &Value) -> Result<RestRequest, ListFault>
    ensures { Gives result (whole_request wanted (view body.now)) }
{
    match wanted {
        Wanted::PostClient => {
            let cuid = client_of(alloc, body)?;
            Ok(RestRequest::PostClient { cuid })
        }
        Wanted::PutClient { cuid } => put_client(alloc, cuid, body),
        Wanted::PostBelow { cuid } => posted(alloc, cuid, body),
        Wanted::PutAlias { cuid, name } => put_alias(alloc, cuid, &name, body),
        Wanted::PutAcl { cuid, name } => put_acl(alloc, cuid, &name, body),
    }
}
