//! Each call of `rest_answers` that takes memory, once where there is some.

use data_channel::{RestDecision, RestRequest};
use dots_history::{Change, Entry};
use dots_lists::{Bytes, Name};
use rest_answers::{Caller, content_reply, decision_reply, entry_of};
use std::alloc::Global;

/// A POST that registers the client of this name.
fn posted(alloc: Global, cuid: &[u8]) -> Option<RestRequest> {
    let cuid = Name::new(alloc, cuid).ok()??;
    Some(RestRequest::PostClient { cuid })
}

/// The reply to a POST has where the client is (RFC 8040, section 4.4.1).
fn is_located(alloc: Global) -> Option<bool> {
    let request = posted(alloc, b"a/b")?;
    let reply = decision_reply(alloc, true, &request, RestDecision::Created);
    drop(request);
    let reply = reply.ok()?;
    let mut bytes = [0; 1024];
    let size = reply.write(&mut bytes);
    let wanted =
        b"HTTP/1.1 201 Created\r\nConnection: close\r\nLocation: /restconf/data/ietf-dots-data-channel:dots-data/dots-client=a%2Fb\r\nContent-Length: 0\r\n\r\n";
    Some(&bytes[..size] == wanted.as_slice())
}

/// The reply to a GET has its body.
fn is_printed(alloc: Global) -> Option<bool> {
    let text = Bytes::from_slice(alloc, b"{}").ok()?;
    let reply = content_reply(alloc, false, &text).ok()?;
    let wanted =
        b"HTTP/1.1 200 OK\r\nContent-Type: application/yang-data+json\r\nContent-Length: 2\r\n\r\n{}";
    Some(reply.items() == wanted.as_slice())
}

/// Whether an entry registers the client `a` of domain 2, for peer 1, at second 7.
fn registers(entry: &Entry) -> bool {
    let of_client = entry.domain == 2 && entry.cuid.bytes() == b"a".as_slice();
    let by_peer = entry.peer == 1 && entry.time == 7;
    of_client && by_peer && matches!(&entry.change, Change::Register)
}

/// The entry of an accepted POST registers its client.
fn is_registered(alloc: Global) -> Option<bool> {
    let request = posted(alloc, b"a")?;
    let caller = Caller { peer: 1, domain: 2 };
    let entry = entry_of(alloc, 7, caller, request).ok()??;
    Some(registers(&entry))
}

#[test]
fn replies_and_entries_are_made(rt: HostRuntime) {
    let alloc = rt.alloc();
    assert!(rt;
        is_located(alloc) == Some(true)
            && is_printed(alloc) == Some(true)
            && is_registered(alloc) == Some(true)
    );
}
