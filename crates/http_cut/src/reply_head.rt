ghost use Rattle.std.specs.Prelude.{◌≡◌, ◌<◌, ◌≤◌, ◌+◌, ◌++◌, length, drop, IsTrue};
ghost use Rattle.http.specs.StatusCode.{code_digits};
ghost use Rattle.http_cut.specs.Reply.{is_reply_status, is_in_line, head_bytes, status_line, closing_line, text_line, media_line, length_line, phrase_of, field_line};
ghost use Rattle.http_cut.specs.Writing.{IsPut};

use crate::writing::put;
use http::StatusCode;
use itoa::Buffer;

/// The head of a reply without the bytes of its body.
#[derive(Clone, Copy)]
pub struct ReplyHead<'a> {
    /// The status, one of 200, 201, 204, 400, 404, 405, 409, 411, 413, 415, 500 and 503.
    pub status: u16,
    /// Whether the connection is closed behind the reply.
    pub close: bool,
    /// Where the resource is, at most 700 bytes without CR and LF; empty for none.
    pub location: &'a [u8],
    /// The methods that the resource has, at most 64 bytes without CR and LF; empty for none.
    pub allow: &'a [u8],
    /// Whether the body is YANG data in JSON.
    pub json: bool,
    /// How many bytes the body has. A reply with status 204 has none and doesn't say it (RFC 9110, section 8.6).
    pub length: usize,
}

/// The standard phrase of a status.
fn phrase_of(status: u16) -> &'static str
    requires { IsTrue (is_reply_status status) }
    ensures phrase { result.now ≡ phrase_of status }
    ensures size { length result.now ≤ 22 }
{
    match StatusCode::from_u16(status) {
        Ok(code) => code.canonical_reason().unwrap_or(""),
        Err(_) => "",
    }
}

/// The three digits of a status.
fn digits_of(status: u16) -> [u8; 3]
    requires { status < 1000 }
    ensures { result ≡ code_digits status }
{
    [
        b'0' + (status / 100) as u8,
        b'0' + (status / 10 % 10) as u8,
        b'0' + (status % 10) as u8,
    ]
}

fn put_status_line(into: &mut [u8], status: u16) -> usize
    requires status { IsTrue (is_reply_status status) }
    requires room { 40 ≤ length into.old }
    ensures written { IsPut 0 (status_line status) into.old into.new result }
    ensures size { result ≤ 37 }
{
    let at = put(into, 0, b"HTTP/1.1 ");
    let at = put(into, at, &digits_of(status));
    let at = put(into, at, b" ");
    let at = put(into, at, phrase_of(status).as_bytes());
    put(into, at, b"\r\n")
}

fn put_field(into: &mut [u8], at: usize, name: &[u8], value: &[u8]) -> usize
    requires { at + length name.now + length value.now + 4 ≤ length into.old }
    ensures written { IsPut at (field_line name.now value.now) into.old into.new result }
    ensures size { result ≤ at + length name.now + length value.now + 4 }
{
    let at = put(into, at, name);
    let at = put(into, at, b": ");
    let at = put(into, at, value);
    put(into, at, b"\r\n")
}

/// Writes the field where it has a value.
fn put_text(into: &mut [u8], at: usize, name: &[u8], value: &[u8]) -> usize
    requires { at + length name.now + length value.now + 4 ≤ length into.old }
    ensures written { IsPut at (text_line name.now value.now) into.old into.new result }
    ensures size { result ≤ at + length name.now + length value.now + 4 }
{
    if value.is_empty() {
        return put(into, at, &[]);
    }
    put_field(into, at, name, value)
}

fn put_closing(into: &mut [u8], at: usize, close: bool) -> usize
    requires { at + 19 ≤ length into.old }
    ensures written { IsPut at (closing_line close) into.old into.new result }
    ensures size { result ≤ at + 19 }
{
    if close {
        return put_field(into, at, b"Connection", b"close");
    }
    put(into, at, &[])
}

fn put_media(into: &mut [u8], at: usize, json: bool) -> usize
    requires { at + 42 ≤ length into.old }
    ensures written { IsPut at (media_line json) into.old into.new result }
    ensures size { result ≤ at + 42 }
{
    if json {
        return put_field(into, at, b"Content-Type", b"application/yang-data+json");
    }
    put(into, at, &[])
}

fn put_length(into: &mut [u8], at: usize, status: u16, len: usize) -> usize
    requires { at + 58 ≤ length into.old }
    ensures written { IsPut at (length_line status len) into.old into.new result }
    ensures size { result ≤ at + 58 }
{
    if status == 204 {
        return put(into, at, &[]);
    }
    let mut digits = Buffer::new();
    put_field(into, at, b"Content-Length", digits.format(len).as_bytes())
}

/// Writes the head of a reply in front of the bytes, and answers how many bytes it has.
///
/// The status is one that a [`ReplyHead`] may have, and `into` has 1,024 bytes at least. The location and the methods hold
/// no CR and no LF, so that no value ends its line (RFC 9110, section 5.5).
pub fn write_head(head: &ReplyHead, into: &mut [u8]) -> usize
    requires status { IsTrue (is_reply_status head.now.status) }
    requires location { length head.now.location.now ≤ 700 }
    requires location_line { IsTrue (is_in_line head.now.location.now) }
    requires allow { length head.now.allow.now ≤ 64 }
    requires allow_line { IsTrue (is_in_line head.now.allow.now) }
    requires room { 1024 ≤ length into.old }
    ensures len { result ≡ length (head_bytes head.now) }
    ensures within { result ≤ length into.old }
    // The other bytes are unchanged.
    ensures written { into.new ≡ head_bytes head.now ++ drop result into.old }
{
    let at = put_status_line(into, head.status);
    let at = put_closing(into, at, head.close);
    let at = put_text(into, at, b"Location", head.location);
    let at = put_text(into, at, b"Allow", head.allow);
    let at = put_media(into, at, head.json);
    let at = put_length(into, at, head.status, head.length);
    put(into, at, b"\r\n")
}
