//! What a request asks before its body is read.

ghost use Rattle.std.specs.Prelude.{◌≡◌, option_map};
ghost use Rattle.data_channel.specs.Heads.{Gives, UnlessNoMemory, name_in_path, resource_of, verb_in, ignored_query, root_head, client_head, aliases_head, acls_head, alias_head, acl_head, head_with, head_at, IsHead, is_yang_json};
ghost use Rattle.data_channel.specs.Paths.{place_value};

use crate::place::{Kind, Place, has_query, path_of, place_in};
use crate::reject::{Allow, RestReject};
use crate::request::{Head, Resource, RestRequest, Verb, Wanted};
use dots_lists::Name;
use percent_encoding::percent_decode;
use std::alloc::Global;

/// The media type of every body (RFC 8040, section 3.2).
const YANG_JSON: &[u8] = b"application/yang-data+json";

/// The name that a segment of a path encodes.
fn name_in_path(alloc: Global, segment: &[u8]) -> Result<Name, RestReject>
    ensures { Gives result (name_in_path segment.now) }
{
    let mut bytes = Vec::new(alloc);
    percent_decode(segment).append_to(&mut bytes)?;
    let Some(name) = Name::new(alloc, bytes.as_slice())? else {
        return Err(RestReject::BadName);
    };
    Ok(name)
}

/// The resource, its names decoded.
fn resource_of(alloc: Global, place: &Place) -> Result<Resource, RestReject>
    ensures { Gives result (resource_of (place_value place.now)) }
{
    match place.kind {
        Kind::Root => Ok(Resource::Root),
        Kind::Client => Ok(Resource::Client(name_in_path(alloc, place.client)?)),
        Kind::Aliases => Ok(Resource::Aliases(name_in_path(alloc, place.client)?)),
        Kind::Alias => {
            let cuid = name_in_path(alloc, place.client)?;
            let name = name_in_path(alloc, place.name)?;
            Ok(Resource::Alias(cuid, name))
        }
        Kind::Acls => Ok(Resource::Acls(name_in_path(alloc, place.client)?)),
        Kind::Acl => {
            let cuid = name_in_path(alloc, place.client)?;
            let name = name_in_path(alloc, place.name)?;
            Ok(Resource::Acl(cuid, name))
        }
    }
}

fn verb_in(method: &[u8]) -> Option<Verb>
    ensures { result ≡ verb_in method.now }
{
    if method == b"GET".as_slice() {
        return Some(Verb::Get);
    }
    if method == b"PUT".as_slice() {
        return Some(Verb::Put);
    }
    if method == b"POST".as_slice() {
        return Some(Verb::Post);
    }
    if method == b"DELETE".as_slice() {
        return Some(Verb::Delete);
    }
    None
}

/// Refuses a query in another request than a GET.
fn check_query(verb: Option<Verb>, query: bool) -> Result<(), RestReject>
    ensures { result ≡ ignored_query verb query }
{
    if query && !matches!(verb, Some(Verb::Get)) {
        return Err(RestReject::Query);
    }
    Ok(())
}

fn client_head(cuid: Name, verb: Option<Verb>) -> Result<Head, RestReject>
    ensures { result ≡ client_head cuid verb }
{
    match verb {
        Some(Verb::Get) => Ok(Head::Plain(RestRequest::GetClient { cuid })),
        Some(Verb::Put) => Ok(Head::Wants(Wanted::PutClient { cuid })),
        Some(Verb::Post) => Ok(Head::Wants(Wanted::PostBelow { cuid })),
        Some(Verb::Delete) => Ok(Head::Plain(RestRequest::DeleteClient { cuid })),
        None => Err(RestReject::Method {
            allow: Allow::Client,
        }),
    }
}

fn alias_head(cuid: Name, name: Name, verb: Option<Verb>) -> Result<Head, RestReject>
    ensures { result ≡ alias_head cuid name verb }
{
    match verb {
        Some(Verb::Get) => Ok(Head::Plain(RestRequest::GetAlias { cuid, name })),
        Some(Verb::Put) => Ok(Head::Wants(Wanted::PutAlias { cuid, name })),
        Some(Verb::Delete) => Ok(Head::Plain(RestRequest::DeleteAlias { cuid, name })),
        _ => Err(RestReject::Method {
            allow: Allow::Inner,
        }),
    }
}

fn acl_head(cuid: Name, name: Name, verb: Option<Verb>) -> Result<Head, RestReject>
    ensures { result ≡ acl_head cuid name verb }
{
    match verb {
        Some(Verb::Get) => Ok(Head::Plain(RestRequest::GetAcl { cuid, name })),
        Some(Verb::Put) => Ok(Head::Wants(Wanted::PutAcl { cuid, name })),
        Some(Verb::Delete) => Ok(Head::Plain(RestRequest::DeleteAcl { cuid, name })),
        _ => Err(RestReject::Method {
            allow: Allow::Inner,
        }),
    }
}

/// What a method asks of a resource.
fn head_with(resource: Resource, verb: Option<Verb>) -> Result<Head, RestReject>
    ensures { result ≡ head_with resource verb }
{
    match resource {
        Resource::Root => match verb {
            Some(Verb::Post) => Ok(Head::Wants(Wanted::PostClient)),
            _ => Err(RestReject::Method { allow: Allow::Root }),
        },
        Resource::Client(cuid) => client_head(cuid, verb),
        Resource::Aliases(cuid) => match verb {
            Some(Verb::Get) => Ok(Head::Plain(RestRequest::GetAliases { cuid })),
            _ => Err(RestReject::Method { allow: Allow::List }),
        },
        Resource::Alias(cuid, name) => alias_head(cuid, name, verb),
        Resource::Acls(cuid) => match verb {
            Some(Verb::Get) => Ok(Head::Plain(RestRequest::GetAcls { cuid })),
            _ => Err(RestReject::Method { allow: Allow::List }),
        },
        Resource::Acl(cuid, name) => acl_head(cuid, name, verb),
    }
}

/// What is asked of the place that a path is of, or the first refusal that applies.
fn head_at(
    alloc: Global,
    found: &Option<Place>,
    verb: Option<Verb>,
    query: bool,
) -> Result<Head, RestReject>
    ensures { Gives result (head_at (option_map place_value found.now) verb query) }
{
    let Some(place) = found else {
        return Err(RestReject::NotFound);
    };
    let resource = resource_of(alloc, place)?;
    check_query(verb, query)?;
    head_with(resource, verb)
}

/// What is asked before the body, or the first refusal that applies.
pub fn head_of(alloc: Global, method: &[u8], target: &[u8]) -> Result<Head, RestReject>
    ensures { UnlessNoMemory result (IsHead method.now target.now result) }
{
    let found = place_in(path_of(target));
    head_at(alloc, &found, verb_in(method), has_query(target))
}

/// Whether a body of this media type, or of none that is named, is YANG data in JSON.
pub fn is_yang_json(media: &Option<&[u8]>) -> bool
    ensures { result ≡ is_yang_json (option_map (λ media. media.now) media.now) }
{
    match media {
        Some(media) => media.eq_ignore_ascii_case(YANG_JSON),
        None => true,
    }
}
