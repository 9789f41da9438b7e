//! What is to be mended in a line of a script.

ghost use Rattle.std.specs.Prelude.{◌≡◌, map};
ghost use Rattle.std.specs.Char.{is_ascii_hexdigit};
ghost use Rattle.std.specs.List.{list_all};
ghost use Rattle.dots_settings.specs.Lines.{fields_of};
ghost use Rattle.dots_script.specs.ScriptRemarks.{is_small, are_bytes, datagram_remark, opening_remark, piece_remark, closing_remark, tick_remark, restart_remark, remark_by_word, event_remark, script_remark};

use crate::reason::Reason;
use crate::remark::Remark;
use dots_lists::{is_word, number_in};
use dots_settings::Mistake;

/// The greatest time of an event, in seconds.
const MAX_SECONDS: u64 = 281_474_976_710_655;

/// The greatest number of a peer and of a connection.
const MAX_SMALL: u64 = 4_294_967_295;

/// The remark of a line with these fields, which ends with a line feed or doesn't.
pub fn script_remark(ended: bool, line: &[u8], fields: &[&[u8]]) -> Remark
    requires { map (λ field. field.now) fields.now ≡ fields_of line.now }
    ensures { result ≡ script_remark ended line.now }
{
    if line.len() > 8400 {
        return Remark::of_line(Reason::LineTooLong);
    }
    if !ended {
        return Remark::of_line(Reason::Unended);
    }
    match event_remark(fields) {
        Some(remark) => return remark,
        None => return Remark::of_line(Reason::Form),
    }
}

/// The remark of a line that is to be `at SECONDS` and an event.
fn event_remark(fields: &[&[u8]]) -> Option<Remark>
    ensures { result ≡ event_remark (map (λ field. field.now) fields.now) }
{
    let [at, seconds, word, rest @ ..] = fields else {
        return Some(Remark::of_line(Reason::EventFields));
    };
    if !is_word(at, b"at") {
        return Some(Remark::of_field(Reason::At, 0));
    }
    if number_in(0, MAX_SECONDS, seconds).is_none() {
        return Some(Remark::of_field(Reason::Seconds, 1));
    }
    remark_by_word(word, rest)
}

/// The remark of a line whose event begins with this word, and has these fields behind it.
#[tactic(auto, unfolding(crate::specs::ScriptRemarks::remark_by_word))]
fn remark_by_word(word: &[u8], fields: &[&[u8]]) -> Option<Remark>
    ensures { result ≡ remark_by_word word.now (map (λ field. field.now) fields.now) }
{
    if is_word(word, b"from") {
        return datagram_remark(fields);
    }
    if is_word(word, b"open") {
        return opening_remark(fields);
    }
    if is_word(word, b"piece") {
        return piece_remark(fields);
    }
    if is_word(word, b"close") {
        return closing_remark(fields);
    }
    if is_word(word, b"tick") {
        return tick_remark(fields);
    }
    if is_word(word, b"restart") {
        return restart_remark(fields);
    }
    Some(Remark::of_field(Reason::EventWord, 2))
}

/// The remark of the fields behind `from`.
fn datagram_remark(fields: &[&[u8]]) -> Option<Remark>
    ensures { result ≡ datagram_remark (map (λ field. field.now) fields.now) }
{
    let [peer, digits] = fields else {
        return Some(Remark::of_line(Reason::DatagramFields));
    };
    if !is_small(peer) {
        return Some(Remark::of_field(Reason::Mistake(Mistake::Peer), 3));
    }
    if !are_bytes(digits) {
        return Some(Remark::of_field(Reason::Datagram, 4));
    }
    None
}

/// The remark of the fields behind `open`.
fn opening_remark(fields: &[&[u8]]) -> Option<Remark>
    ensures { result ≡ opening_remark (map (λ field. field.now) fields.now) }
{
    let [conn, peer] = fields else {
        return Some(Remark::of_line(Reason::OpeningFields));
    };
    if !is_small(conn) {
        return Some(Remark::of_field(Reason::Connection, 3));
    }
    if !is_small(peer) {
        return Some(Remark::of_field(Reason::Mistake(Mistake::Peer), 4));
    }
    None
}

/// The remark of the fields behind `piece`.
fn piece_remark(fields: &[&[u8]]) -> Option<Remark>
    ensures { result ≡ piece_remark (map (λ field. field.now) fields.now) }
{
    let [conn, digits] = fields else {
        return Some(Remark::of_line(Reason::PieceFields));
    };
    if !is_small(conn) {
        return Some(Remark::of_field(Reason::Connection, 3));
    }
    if !are_bytes(digits) {
        return Some(Remark::of_field(Reason::Piece, 4));
    }
    None
}

/// The remark of the fields behind `close`.
fn closing_remark(fields: &[&[u8]]) -> Option<Remark>
    ensures { result ≡ closing_remark (map (λ field. field.now) fields.now) }
{
    let [conn] = fields else {
        return Some(Remark::of_line(Reason::ClosingFields));
    };
    if !is_small(conn) {
        return Some(Remark::of_field(Reason::Connection, 3));
    }
    None
}

/// The remark of the fields behind `tick`.
fn tick_remark(fields: &[&[u8]]) -> Option<Remark>
    ensures { result ≡ tick_remark (map (λ field. field.now) fields.now) }
{
    let [] = fields else {
        return Some(Remark::of_line(Reason::TickFields));
    };
    None
}

/// The remark of the fields behind `restart`.
fn restart_remark(fields: &[&[u8]]) -> Option<Remark>
    ensures { result ≡ restart_remark (map (λ field. field.now) fields.now) }
{
    let [] = fields else {
        return Some(Remark::of_line(Reason::RestartFields));
    };
    None
}

/// Whether the text is a number below 2^32, without leading zeros, as those of peers and of connections are.
fn is_small(text: &[u8]) -> bool
    ensures { result ≡ is_small text.now }
{
    number_in(0, MAX_SMALL, text).is_some()
}

/// Whether the text is 1 to 4,096 bytes in hexadecimal.
fn are_bytes(text: &[u8]) -> bool
    ensures { result ≡ are_bytes text.now }
{
    if text.len() < 2 || text.len() > 8192 || text.len() % 2 != 0 {
        return false;
    }
    are_hex_digits(text)
}

fn are_hex_digits(text: &[u8]) -> bool
    ensures { result ≡ list_all is_ascii_hexdigit text.now }
{
    text.iter().all(|byte| byte.is_ascii_hexdigit())
}
