ghost use Rattle.std.specs.Prelude.{◌≡◌, ◌+◌, ◌^◌, ◌<◌, ◌≤◌, false, length, take, All};
ghost use Rattle.httparse.specs.Spans.{IsHeaderWithin, IsWithin};
ghost use Rattle.http_cut.specs.Requests.{IsCut, cut_value, cut_value_behind, with_body, closes};
ghost use Rattle.http_cut.specs.SpanValues.{head_at};
ghost use Rattle.http_cut.specs.declared.place.Place.TheVariants.{Blank};
ghost use Rattle.http_cut.specs.Places.{place_from, is_end, WaitsBelow, IsKnown};

use crate::fault::HttpFault;
use crate::fields::{asks_to_close, first_media, framing};
use crate::place::Place;
use crate::request::{Cut, HttpRequest};
use crate::room::MOST_FIELDS;
use httparse::Status;
use httparse::spans::{EMPTY_HEADER_SPAN, HeaderSpan, RequestSpans, parse_request};

/// The greatest number of bytes of a head.
const GREATEST_HEAD: usize = 8_192;

/// The bytes in which a head may stand.
fn window(buffered: &[u8]) -> &[u8]
    ensures value { result.now ≡ take 8192 buffered.now }
    ensures size { length buffered.now ≤ 8192 → result.now ≡ buffered.now }
{
    if buffered.len() <= GREATEST_HEAD {
        return buffered;
    }
    &buffered[..GREATEST_HEAD]
}

fn closes(bytes: &[u8], head: &RequestSpans, fields: &[HeaderSpan]) -> bool
    requires { All (IsHeaderWithin (length bytes.now)) fields.now }
    ensures { result ≡ closes (head_at bytes.now head.now fields.now) }
{
    if head.version == 0 {
        return true;
    }
    asks_to_close(bytes, fields)
}

/// How the bytes are cut where a body of this size may be there whole.
fn cut_body<'a>(
    bytes: &'a [u8],
    rest: &'a [u8],
    head: &RequestSpans,
    fields: &[HeaderSpan],
    size: usize,
) -> Cut<'a>
    requires method { IsWithin (length bytes.now) head.now.method }
    requires path { IsWithin (length bytes.now) head.now.path }
    requires fields { All (IsHeaderWithin (length bytes.now)) fields.now }
    requires size { head.now.len + size < 2 ^ 64 }
    ensures { cut_value result ≡ with_body (head_at bytes.now head.now fields.now) rest.now size }
{
    if rest.len() < size {
        return Cut::More;
    }
    let request = HttpRequest {
        method: head.method.of(bytes),
        target: head.path.of(bytes),
        media: first_media(bytes, fields),
        close: closes(bytes, head, fields),
        body: &rest[..size],
        length: head.len + size,
    };
    Cut::Request(request)
}

/// How the bytes are cut where the head is there, with the bytes behind it.
fn cut_behind<'a>(
    bytes: &'a [u8],
    rest: &'a [u8],
    head: &RequestSpans,
    fields: &[HeaderSpan],
) -> Cut<'a>
    requires method { IsWithin (length bytes.now) head.now.method }
    requires path { IsWithin (length bytes.now) head.now.path }
    requires fields { All (IsHeaderWithin (length bytes.now)) fields.now }
    requires size { head.now.len ≤ 8192 }
    ensures { cut_value result ≡ cut_value_behind (head_at bytes.now head.now fields.now) rest.now }
{
    match framing(bytes, fields) {
        Ok(size) => return cut_body(bytes, rest, head, fields, size),
        Err(fault) => return Cut::Refused(fault),
    }
}

/// What stands at the front of the buffered bytes.
fn cut_buffered<'a>(buffered: &'a [u8], spans: &mut [HeaderSpan]) -> Cut<'a>
    requires { length spans.old ≡ 2731 }
    ensures { IsCut buffered.now (cut_value result) }
{
    let bytes = window(buffered);
    match parse_request(bytes, spans) {
        Ok(Status::Complete(head)) => {
            let (_, rest) = buffered.split_at(head.len);
            return cut_behind(bytes, rest, &head, &spans[..head.headers]);
        }
        Ok(Status::Partial) => {
            if buffered.len() < GREATEST_HEAD {
                return Cut::More;
            }
            return Cut::Refused(HttpFault::BadHead);
        }
        Err(_) => return Cut::Refused(HttpFault::BadHead),
    }
}

/// What stands at the front of the buffered bytes where no head ended.
fn cut_headless<'a>(buffered: &'a [u8], place: Place) -> Cut<'a>
    requires place { place ≡ place_from Blank buffered.now }
    requires head { is_end place ≡ false }
    ensures { IsCut buffered.now (cut_value result) }
{
    if buffered.len() < GREATEST_HEAD {
        return Cut::More;
    }
    Cut::Refused(HttpFault::BadHead)
}

/// What stands at the front of the buffered bytes, of which this is known.
pub(crate) fn cut_known<'a>(
    buffered: &'a [u8],
    place: Place,
    needed: Option<usize>,
    spans: &mut [HeaderSpan],
) -> Cut<'a>
    requires known { IsKnown buffered.now place needed }
    requires room { length spans.old ≡ 2731 }
    ensures { IsCut buffered.now (cut_value result) }
{
    if !place.is_end() {
        return cut_headless(buffered, place);
    }
    if let Some(size) = needed
        && buffered.len() < size
    {
        return Cut::More;
    }
    cut_buffered(buffered, spans)
}

/// How many bytes the request at the front of the buffered bytes needs; 0 where none stands there.
pub(crate) fn needed(buffered: &[u8]) -> usize
    ensures { WaitsBelow buffered.now result }
{
    let mut spans = [EMPTY_HEADER_SPAN; MOST_FIELDS];
    let bytes = window(buffered);
    match parse_request(bytes, &mut spans) {
        Ok(Status::Complete(head)) => match framing(bytes, &spans[..head.headers]) {
            Ok(size) => return head.len + size,
            Err(_) => return 0,
        },
        _ => return 0,
    }
}
