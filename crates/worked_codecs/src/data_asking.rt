//! What a message asks, as text.
//!
//! A row has the head of a message and, behind a bar, its body.

use crate::row::Row;
use acl_lists::{Acl, Alias};
use data_channel::{RestReject, RestRequest, location_of, read_rest};
use http_cut::HttpRequest;
use list_json::{JsonRoom, acl_value, alias_value};
use std::alloc::Global;
use std::str;

/// The path of the root.
const ROOT: &str = "/restconf/data/ietf-dots-data-channel:dots-data";

const JSON: &str = "application/yang-data+json";

fn kind_of(request: &RestRequest) -> &'static str {
    match request {
        RestRequest::PutClient { .. } => "PutClient",
        RestRequest::PostClient { .. } => "PostClient",
        RestRequest::GetClient { .. } => "GetClient",
        RestRequest::DeleteClient { .. } => "DeleteClient",
        RestRequest::PutAlias { .. } => "PutAlias",
        RestRequest::PostAlias { .. } => "PostAlias",
        RestRequest::GetAlias { .. } => "GetAlias",
        RestRequest::DeleteAlias { .. } => "DeleteAlias",
        RestRequest::GetAliases { .. } => "GetAliases",
        RestRequest::PutAcl { .. } => "PutAcl",
        RestRequest::PostAcl { .. } => "PostAcl",
        RestRequest::GetAcl { .. } => "GetAcl",
        RestRequest::DeleteAcl { .. } => "DeleteAcl",
        RestRequest::GetAcls { .. } => "GetAcls",
    }
}

fn text_of_alias(alloc: Global, alias: &Alias) -> Option<String> {
    let value = alias_value(alloc, alias).ok()?;
    value.to_string(alloc).ok()
}

fn text_of_acl(alloc: Global, acl: &Acl) -> Option<String> {
    let value = acl_value(alloc, acl).ok()?;
    value.to_string(alloc).ok()
}

/// The alias or the access list of a request as JSON, or nothing.
fn printed(alloc: Global, request: &RestRequest) -> Option<String> {
    match request {
        RestRequest::PutAlias { alias, .. } => text_of_alias(alloc, alias),
        RestRequest::PostAlias { alias, .. } => text_of_alias(alloc, alias),
        RestRequest::PutAcl { acl, .. } => text_of_acl(alloc, acl),
        RestRequest::PostAcl { acl, .. } => text_of_acl(alloc, acl),
        _ => Some(String::new(alloc)),
    }
}

/// What a request asks, where below the root, and behind a bar with which alias or access list.
fn worded(alloc: Global, request: &RestRequest) -> Option<String> {
    let path = location_of(alloc, request).ok()?;
    let body = printed(alloc, request)?;
    let place = str::from_utf8(path.items()).unwrap_or("");
    let place = place.strip_prefix(ROOT).unwrap_or("");
    let kind = kind_of(request);
    format!(in alloc; "{kind} {place}|{body}").ok()
}

/// What a message is refused with, and the methods of a resource that has others.
fn refused(alloc: Global, reject: RestReject) -> Option<String> {
    match reject {
        RestReject::Method { allow } => {
            let methods = allow.text();
            format!(in alloc; "Method {methods}").ok()
        }
        other => format!(in alloc; "{other:?}").ok(),
    }
}

/// What a message asks, or is refused with.
pub fn answer(alloc: Global, request: &HttpRequest) -> Option<String> {
    let mut room = JsonRoom::new(alloc);
    match read_rest(alloc, &mut room, request) {
        Ok(asked) => {
            let worded = worded(alloc, &asked);
            drop(asked);
            worded
        }
        Err(reject) => refused(alloc, reject),
    }
}

/// What a message asks that has this body. Its head is a method, a path below the root and, where it is another than that of YANG data in
/// JSON, the media type, or a dash for none.
fn asked(alloc: Global, head: &str, body: &str) -> Option<String> {
    let (method, rest) = head.split_once(' ').unwrap_or((head, ""));
    let (below, media) = match rest.split_once(' ') {
        Some((below, "-")) => (below, None),
        Some((below, media)) => (below, Some(media.as_bytes())),
        None => (rest, Some(JSON.as_bytes())),
    };
    let target = format!(in alloc; "{ROOT}{below}").ok()?;
    let request = HttpRequest {
        method: method.as_bytes(),
        target: target.as_bytes(),
        media,
        close: false,
        body: body.as_bytes(),
        length: 0,
    };
    answer(alloc, &request)
}

/// What the message of a row asks, or is refused with.
pub fn asked_by(alloc: Global, row: &mut Row<'_>) -> Option<String> {
    let head = row.text("|");
    asked(alloc, head, row.rest())
}

/// What stands round a row of members: the head, what stands before and after the members in the body, and what stands before and after
/// the row's want in what is told.
#[derive(Clone, Copy)]
pub struct Form<'a> {
    pub head: &'a str,
    pub body: (&'a str, &'a str),
    pub worded: (&'a str, &'a str),
}

/// Whether the text is these three, one behind the other.
fn is_joined(text: &str, front: &str, want: &str, back: &str) -> bool {
    let Some(rest) = text.strip_prefix(front) else {
        return false;
    };
    match rest.strip_suffix(back) {
        Some(rest) => rest == want,
        None => false,
    }
}

/// Whether what is told of the members of a row is what is wanted, with what stands round both.
pub fn is_worded_in(alloc: Global, form: Form<'_>, row: &Row<'_>) -> Option<bool> {
    let (front, back) = form.body;
    let members = row.rest();
    let body = format!(in alloc; "{front}{members}{back}").ok()?;
    let worded = asked(alloc, form.head, &body)?;
    let (front, back) = form.worded;
    Some(is_joined(&worded, front, row.want(), back))
}
