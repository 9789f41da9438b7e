//! The requests of a client.

ghost use Rattle.std.specs.Prelude.{◌≡◌, map, decimal, Some, None, IfOk, OnOk};
ghost use Rattle.cbor_profile.specs.Valid.{IsValid};
ghost use Rattle.coap_message.specs.Message.{spelling};
ghost use Rattle.dots_keys.specs.Paths.{mitigation, path_of};
ghost use Rattle.reply_bodies.specs.Requests.{request_tree};
ghost use Rattle.dots_client.specs.Requests.{uri_path, asking, withdrawing};

use crate::options::OptionList;
use crate::writing::write;
use acl_lists::Asked;
use coap_message::DOTS_CBOR;
use coap_message::codes::{DELETE, PUT};
use coap_message::option_numbers::{CONTENT_FORMAT, URI_PATH};
use dots_lists::{Bytes, Name, NoMemory};
use itoa::Buffer;
use reply_bodies::request_body;
use std::alloc::Global;

/// The path of a mitigation (RFC 9132, section 4.4.1).
fn path(alloc: Global, cuid: &Name, mid: u32) -> Result<OptionList, NoMemory>
    ensures { IfOk result (λ options. options ≡ map uri_path (path_of (mitigation None (Some cuid.now) (Some (decimal mid))))) }
{
    let mut buffer = Buffer::new();
    let digits = buffer.format(mid).as_bytes();
    let cuid = cuid.bytes();
    let root = OptionList::new(alloc).with(URI_PATH, b"", b".well-known")?;
    let dots = root.with(URI_PATH, b"", b"dots")?;
    let mitigate = dots.with(URI_PATH, b"", b"mitigate")?;
    let client = mitigate.with(URI_PATH, b"cuid=", cuid)?;
    client.with(URI_PATH, b"mid=", digits)
}

/// The message of this number by which a client asks for a mitigation, for a lifetime in seconds, or -1 for an indefinite one (RFC
/// 9132, section 4.4.1).
pub fn asking(
    alloc: Global,
    number: u64,
    cuid: &Name,
    mid: u32,
    asked: &Asked,
    lifetime: i32,
) -> Result<Bytes, NoMemory>
    ensures message { IfOk result (λ bytes. bytes ≡ spelling (asking number cuid.now mid asked.now lifetime)) }
    ensures valid { OnOk result (IsValid (request_tree asked.now lifetime)) }
{
    let body = request_body(alloc, asked, lifetime)?;
    let format = [(DOTS_CBOR / 256) as u8, (DOTS_CBOR % 256) as u8];
    let options = path(alloc, cuid, mid)?.with(CONTENT_FORMAT, b"", &format)?;
    write(alloc, PUT, number, &options, body.items())
}

/// The message of this number by which a client withdraws a mitigation (RFC 9132, section 4.4.4).
pub fn withdrawing(alloc: Global, number: u64, cuid: &Name, mid: u32) -> Result<Bytes, NoMemory>
    ensures { IfOk result (λ bytes. bytes ≡ spelling (withdrawing number cuid.now mid)) }
{
    let options = path(alloc, cuid, mid)?;
    write(alloc, DELETE, number, &options, b"")
}
