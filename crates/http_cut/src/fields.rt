ghost use Rattle.std.specs.Prelude.{◌≡◌, ◌<◌, ◌≤◌, [], ◌∷◌, length, All, IfOk, IfSome, MatchOption, codes, option_map};
ghost use Rattle.std.specs.List.{list_any};
ghost use Rattle.httparse.specs.Spans.{IsHeaderWithin};
ghost use Rattle.http_cut.specs.Fields.{values_of, first_media, has_close, announced, body_length, framing};
ghost use Rattle.http_cut.specs.SpanValues.{fields_at};

use crate::fault::HttpFault;
use crate::text::{has_close, is_same_word, media_type};
use dots_lists::value_of;
use httparse::spans::HeaderSpan;

/// The greatest number of bytes of a body.
const GREATEST_BODY: u64 = 8_192;

/// The greatest number of digits of a length.
const MOST_DIGITS: usize = 10;

/// The first field of this name: its value, and the fields behind it.
fn find_field<'a, 'b>(
    head: &'a [u8],
    fields: &'b [HeaderSpan],
    name: &[u8],
) -> Option<(&'a [u8], &'b [HeaderSpan])>
    requires { All (IsHeaderWithin (length head.now)) fields.now }
    ensures found { MatchOption result (values_of name.now (fields_at head.now fields.now) ≡ [])
        (λ x. values_of name.now (fields_at head.now fields.now) ≡ x.0.now ∷ values_of name.now (fields_at head.now x.1.now)) }
    ensures within { IfSome result (λ x. All (IsHeaderWithin (length head.now)) x.1.now) }
    ensures fewer { IfSome result (λ x. length x.1.now < length fields.now) }
{
    let mut rest = fields;
    while let Some((field, behind)) = rest.split_first() {
        if is_same_word(field.name.of(head), name) {
            return Some((field.value.of(head), behind));
        }
        rest = behind;
    }
    None
}

/// The media type of the first Content-Type field.
pub(crate) fn first_media<'a>(head: &'a [u8], fields: &[HeaderSpan]) -> Option<&'a [u8]>
    requires { All (IsHeaderWithin (length head.now)) fields.now }
    ensures { option_map (λ media. media.now) result ≡ first_media (values_of (codes "content-type") (fields_at head.now fields.now)) }
{
    match find_field(head, fields, b"content-type") {
        Some((value, _)) => Some(media_type(value)),
        None => None,
    }
}

/// Whether a Connection field has the option `close`.
pub(crate) fn asks_to_close(head: &[u8], fields: &[HeaderSpan]) -> bool
    requires { All (IsHeaderWithin (length head.now)) fields.now }
    ensures { result ≡ list_any has_close (values_of (codes "connection") (fields_at head.now fields.now)) }
{
    let mut rest = fields;
    while let Some((value, behind)) = find_field(head, rest, b"connection") {
        if has_close(value) {
            return true;
        }
        rest = behind;
    }
    false
}

/// The number of bytes that a Content-Length announces.
fn announced(value: &[u8]) -> Result<usize, HttpFault>
    ensures value { result ≡ announced value.now }
    ensures bound { IfOk result (λ size. size ≤ 8192) }
{
    if value.is_empty() {
        return Err(HttpFault::BadHead);
    }
    if value.len() > MOST_DIGITS {
        return Err(HttpFault::BadHead);
    }
    match value_of(value) {
        None => return Err(HttpFault::BadHead),
        Some(size) => {
            if size > GREATEST_BODY {
                return Err(HttpFault::BodyTooLong);
            }
            return Ok(size as usize);
        }
    }
}

/// The number of bytes of the body that the Content-Length fields announce.
fn body_length(head: &[u8], fields: &[HeaderSpan]) -> Result<usize, HttpFault>
    requires { All (IsHeaderWithin (length head.now)) fields.now }
    ensures bound { IfOk result (λ size. size ≤ 8192) }
    ensures value { result ≡ body_length (values_of (codes "content-length") (fields_at head.now fields.now)) }
{
    match find_field(head, fields, b"content-length") {
        None => return Ok(0),
        Some((value, behind)) => match find_field(head, behind, b"content-length") {
            None => return announced(value),
            Some(_) => return Err(HttpFault::BadHead),
        },
    }
}

/// The number of bytes of the body, or why it isn't read (RFC 9112, section 6.3).
pub(crate) fn framing(head: &[u8], fields: &[HeaderSpan]) -> Result<usize, HttpFault>
    requires { All (IsHeaderWithin (length head.now)) fields.now }
    ensures value { result ≡ framing (fields_at head.now fields.now) }
    ensures bound { IfOk result (λ size. size ≤ 8192) }
{
    match find_field(head, fields, b"transfer-encoding") {
        None => return body_length(head, fields),
        Some(_) => return Err(HttpFault::LengthRequired),
    }
}
