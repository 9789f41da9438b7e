//! Where a resource is (RFC 8040, sections 3.5.3 and 4.4.1).

ghost use Rattle.std.specs.Prelude.{◌≡◌, ◌++◌, ◌+◌, ◌*◌, ◌≤◌, length, IfOk, OnOk, IsTrue};
ghost use Rattle.http_cut.specs.Reply.{is_in_line};
ghost use Rattle.data_channel.specs.Replies.{is_unreserved, encode_byte, encoded, path_to, location_in};

use crate::place::{ACL, ACLS, ALIAS, ALIASES, DOTS_CLIENT, ROOT};
use crate::request::RestRequest;
use dots_lists::{Bytes, Name, NoMemory};
use percent_encoding::percent_encode_byte;
use std::alloc::Global;

/// Whether a byte stands for itself in a path (RFC 3986, section 2.3).
fn is_unreserved(byte: u8) -> bool
    ensures { result ≡ is_unreserved byte }
{
    byte.is_ascii_alphanumeric() || byte == b'-' || byte == b'.' || byte == b'_' || byte == b'~'
}

/// Appends a byte, or what encodes it.
fn push_byte(path: &mut Vec<u8>, byte: u8) -> Result<(), NoMemory>
    ensures { OnOk result (path.new.items ≡ path.old.items ++ encode_byte byte) }
{
    if is_unreserved(byte) {
        path.push(byte)?;
        return Ok(());
    }
    path.extend_from_slice(percent_encode_byte(byte).as_bytes())?;
    Ok(())
}

/// Appends a name, encoded.
fn push_name(path: &mut Vec<u8>, name: &[u8]) -> Result<(), NoMemory>
    ensures { OnOk result (path.new.items ≡ path.old.items ++ encoded name.now) }
{
    for byte in name {
        push_byte(path, *byte)?;
    }
    Ok(())
}

/// The path of a client, of something fixed below it, and of a name at the end.
fn path_to(alloc: Global, cuid: &Name, fixed: &[u8], name: &[u8]) -> Result<Bytes, NoMemory>
    requires line { IsTrue (is_in_line fixed.now) }
    requires fixed { length fixed.now ≤ 15 }
    requires name { length name.now ≤ 64 }
    ensures path { IfOk result (λ path. path ≡ path_to cuid.now fixed.now name.now) }
    ensures line { IfOk result (λ path. IsTrue (is_in_line path)) }
    ensures size { IfOk result (λ path. length path ≤ 700) }
{
    let mut path = Vec::new(alloc);
    path.extend_from_slice(ROOT)?;
    path.extend_from_slice(DOTS_CLIENT)?;
    push_name(&mut path, cuid.bytes())?;
    path.extend_from_slice(fixed)?;
    push_name(&mut path, name)?;
    Ok(Bytes::from_vec(path))
}

/// The path of the resource that a request is about, for a Location field (RFC 9110, section 10.2.2).
#[tactic(auto, using(crate::proofs::Encoding::name_length))]
pub fn location_of(alloc: Global, request: &RestRequest) -> Result<Bytes, NoMemory>
    ensures path { IfOk result (λ path. path ≡ location_in request.now) }
    // No byte of it ends the line of the field, and it has 700 bytes at most.
    ensures line { IfOk result (λ path. IsTrue (is_in_line path)) }
    ensures size { IfOk result (λ path. length path ≤ 700) }
{
    match request {
        RestRequest::PutClient { cuid }
        | RestRequest::PostClient { cuid }
        | RestRequest::GetClient { cuid }
        | RestRequest::DeleteClient { cuid } => path_to(alloc, cuid, b"", b""),
        RestRequest::PutAlias { cuid, alias } | RestRequest::PostAlias { cuid, alias } => {
            path_to(alloc, cuid, ALIAS, alias.name.bytes())
        }
        RestRequest::GetAlias { cuid, name } | RestRequest::DeleteAlias { cuid, name } => {
            path_to(alloc, cuid, ALIAS, name.bytes())
        }
        RestRequest::GetAliases { cuid } => path_to(alloc, cuid, ALIASES, b""),
        RestRequest::PutAcl { cuid, acl } | RestRequest::PostAcl { cuid, acl } => {
            path_to(alloc, cuid, ACL, acl.name.bytes())
        }
        RestRequest::GetAcl { cuid, name } | RestRequest::DeleteAcl { cuid, name } => {
            path_to(alloc, cuid, ACL, name.bytes())
        }
        RestRequest::GetAcls { cuid } => path_to(alloc, cuid, ACLS, b""),
    }
}
