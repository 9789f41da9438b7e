//! The bodies of replies.

use crate::row::Row;
use crate::tables::{Rows, all_hold, name};
use acl_lists::{Acl, Alias};
use data_channel::{AclList, AliasList, RestBody, body_text};
use dots_lists::List;
use list_json::{acl_of, alias_of};
use serde_json::Value;
use std::alloc::Global;

fn alias_in(alloc: Global, text: &str) -> Option<Alias> {
    let value = Value::from_slice(alloc, text.as_bytes()).ok()?;
    alias_of(alloc, &value).ok()
}

fn acl_in(alloc: Global, text: &str) -> Option<Acl> {
    let value = Value::from_slice(alloc, text.as_bytes()).ok()?;
    acl_of(alloc, &value).ok()
}

/// The aliases of a text, which stand apart by semicolons.
fn aliases_in(alloc: Global, text: &str) -> Option<AliasList> {
    let mut aliases = List::new(alloc);
    for part in text.split_terminator(';') {
        aliases.push(alias_in(alloc, part)?).ok()?;
    }
    Some(aliases)
}

/// The one list of a text.
fn acls_in(alloc: Global, text: &str) -> Option<AclList> {
    let mut acls = List::new(alloc);
    acls.push(acl_in(alloc, text)?).ok()?;
    Some(acls)
}

fn client(alloc: Global, aliases: &str, acls: &str) -> Option<RestBody> {
    let cuid = name(alloc, "a\"b")?;
    let aliases = aliases_in(alloc, aliases)?;
    let acls = acls_in(alloc, acls)?;
    Some(RestBody::Client {
        cuid,
        aliases,
        acls,
    })
}

/// The body of this kind that shows these aliases and lists.
fn body_of(alloc: Global, kind: &str, aliases: &str, acls: &str) -> Option<RestBody> {
    match kind {
        "alias" => Some(RestBody::OneAlias(alias_in(alloc, aliases)?)),
        "aliases" => Some(RestBody::Aliases(aliases_in(alloc, aliases)?)),
        "acl" => Some(RestBody::OneAcl(acl_in(alloc, acls)?)),
        "acls" => Some(RestBody::Acls(acls_in(alloc, acls)?)),
        "client" => client(alloc, aliases, acls),
        _ => None,
    }
}

/// Whether the kind, the aliases and the lists of a row make the body behind them.
pub fn is_printed(alloc: Global, row: &mut Row<'_>) -> Option<bool> {
    let kind = row.text("|");
    let aliases = row.text("|");
    let body = body_of(alloc, kind, aliases, row.rest())?;
    let text = body_text(alloc, &body);
    drop(body);
    let text = text.ok()?;
    Some(text.items() == row.want().as_bytes())
}

/// The bodies of GETs (RFC 8783, sections 5 to 7; RFC 7951, section 5.4): kind, aliases and lists, and what is written.
const BODIES: &str =
    r#"alias|{"name":"web","target-prefix":["192.0.2.80/32"]}| = {"ietf-dots-data-channel:alias":[{"name":"web","target-prefix":["192.0.2.80/32"]}]}
aliases|| = {"ietf-dots-data-channel:aliases":{"alias":[]}}
aliases|{"name":"Server1","target-protocol":[6],"target-prefix":["2001:db8:6401::1/128","2001:db8:6401::2/128"],"target-port-range":[{"lower-port":443}]};{"name":"Server2","target-protocol":[6],"target-prefix":["2001:db8:6401::10/128","2001:db8:6401::20/128"],"target-port-range":[{"lower-port":80}]}| = {"ietf-dots-data-channel:aliases":{"alias":[{"name":"Server1","target-port-range":[{"lower-port":443,"upper-port":443}],"target-prefix":["2001:db8:6401::1/128","2001:db8:6401::2/128"],"target-protocol":[6]},{"name":"Server2","target-port-range":[{"lower-port":80,"upper-port":80}],"target-prefix":["2001:db8:6401::10/128","2001:db8:6401::20/128"],"target-protocol":[6]}]}}
acl||{"name":"l","type":"ipv6-acl-type","activation-type":"deactivate","aces":{"ace":[{"name":"e","actions":{"forwarding":"accept"}}]}} = {"ietf-dots-data-channel:acl":[{"aces":{"ace":[{"actions":{"forwarding":"accept"},"name":"e"}]},"activation-type":"deactivate","name":"l","type":"ipv6-acl-type"}]}
acls||{"name":"l","type":"ipv6-acl-type","activation-type":"deactivate","aces":{"ace":[{"name":"e","actions":{"forwarding":"accept"}}]}} = {"ietf-dots-data-channel:acls":{"acl":[{"aces":{"ace":[{"actions":{"forwarding":"accept"},"name":"e"}]},"activation-type":"deactivate","name":"l","type":"ipv6-acl-type"}]}}
client|{"name":"web","target-prefix":["192.0.2.80/32"]}|{"name":"l","type":"ipv6-acl-type","activation-type":"deactivate","aces":{"ace":[{"name":"e","actions":{"forwarding":"accept"}}]}} = {"ietf-dots-data-channel:dots-client":[{"acls":{"acl":[{"aces":{"ace":[{"actions":{"forwarding":"accept"},"name":"e"}]},"activation-type":"deactivate","name":"l","type":"ipv6-acl-type"}]},"aliases":{"alias":[{"name":"web","target-prefix":["192.0.2.80/32"]}]},"cuid":"a\"b"}]}"#;

#[test]
fn bodies_are_written(rt: HostRuntime) {
    all_hold(&rt, rt.alloc(), Rows::Bodies, BODIES);
}
