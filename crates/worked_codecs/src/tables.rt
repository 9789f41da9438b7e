//! Tables of rows in text.

use crate::data_asking::{self, Form};
use crate::row::Row;
use crate::{
    agents, beat_rows, body_rows, cbor_rows, clock_rows, clock_scans, coap_rows, config_rows,
    cut_rows, exchange_rows, reply_rows, request_rows, stream_rows, text_rows,
};
use dots_lists::Name;
use percent_encoding::percent_decode;
use std::alloc::Global;
use std::process::Abort;

/// What the rows of a table are about.
#[derive(Clone, Copy)]
pub enum Rows<'a> {
    /// Rows of which a text is told.
    Worded(Worded),
    /// Items of CBOR, arrays of one item, and maps.
    Items,
    Arrays,
    Maps,
    /// Forms of options in messages of CoAP.
    Options,
    /// Lifetimes and deadlines: what is granted and what is due, how low their tree is, how many it takes, and a list beside them.
    Grants,
    Due,
    Low,
    Many,
    Scans,
    /// Heartbeats of the signal channel.
    Beats,
    /// Messages of the data channel with these members in their bodies, and bodies of replies.
    Members(Form<'a>),
    Bodies,
}

#[derive(Clone, Copy)]
pub enum Worded {
    /// Messages of CoAP, and what is salvaged of bytes.
    Messages,
    Salvaged,
    /// Pairs of digits.
    Digits,
    /// Requests and replies of the signal channel, and the configurations of its sessions.
    Requests,
    Replies,
    Configs,
    /// What stands at the front of a stream of HTTP, how streams go on, and what their messages ask.
    Fronts,
    Streams,
    Exchanges,
    /// Messages of the data channel.
    Data,
    /// What a client asks and hears.
    Clients,
}

/// What is told of the front of a row; None where it isn't there, or memory runs out.
fn text_of(alloc: Global, what: Worded, row: &mut Row<'_>) -> Option<String> {
    match what {
        Worded::Messages => coap_rows::fault_of(alloc, row),
        Worded::Salvaged => coap_rows::salvaged(alloc, row),
        Worded::Digits => text_rows::read(alloc, row),
        Worded::Requests => request_rows::answer(alloc, row),
        Worded::Replies => reply_rows::spelled(alloc, row),
        Worded::Configs => config_rows::outcome(alloc, row),
        Worded::Fronts => cut_rows::seen(alloc, row),
        Worded::Streams => stream_rows::worded(alloc, row),
        Worded::Exchanges => exchange_rows::asked(alloc, row),
        Worded::Data => data_asking::asked_by(alloc, row),
        Worded::Clients => agents::worded(alloc, row),
    }
}

/// Whether what is told of the front of a row is what is wanted.
fn is_worded(alloc: Global, what: Worded, row: &mut Row<'_>) -> bool {
    match text_of(alloc, what, row) {
        Some(text) => text.as_str() == row.want(),
        None => false,
    }
}

/// Whether the row is right; None where memory runs out.
fn is_right(alloc: Global, rows: Rows<'_>, row: &mut Row<'_>) -> Option<bool> {
    match rows {
        Rows::Worded(what) => Some(is_worded(alloc, what, row)),
        Rows::Items => cbor_rows::are_answered(alloc, row),
        Rows::Arrays => cbor_rows::is_judged(alloc, row),
        Rows::Maps => cbor_rows::is_map_judged(alloc, row),
        Rows::Options => coap_rows::is_written(alloc, row),
        Rows::Grants => Some(clock_rows::is_granted(row)),
        Rows::Due => clock_rows::is_due(alloc, row),
        Rows::Low => clock_rows::is_low(alloc, row),
        Rows::Many => clock_rows::keeps_many(alloc, row),
        Rows::Scans => clock_scans::are_same(alloc, row),
        Rows::Beats => beat_rows::are_printed(alloc, row),
        Rows::Members(form) => data_asking::is_worded_in(alloc, form, row),
        Rows::Bodies => body_rows::is_printed(alloc, row),
    }
}

fn holds(alloc: Global, rows: Rows<'_>, text: &str) -> bool {
    let mut row = Row::new(text, " = ");
    matches!(is_right(alloc, rows, &mut row), Some(true)) && row.is_read()
}

/// Each row holds: it stands in a line, or between lines of three equal signs. One that begins with `#` and a blank is a remark.
pub fn all_hold(rt: &impl Abort, alloc: Global, rows: Rows<'_>, table: &str) {
    let between = match rows {
        Rows::Worded(Worded::Exchanges) => "\n===\n",
        _ => "\n",
    };
    for row in table.split(between) {
        assert!(rt;
            row.starts_with("# ") || holds(alloc, rows, row),
            "at {row}"
        );
    }
}

/// The bytes that a text spells, in which a percent sign and two digits are a byte.
pub fn unescaped(alloc: Global, text: &str) -> Option<Vec<u8>> {
    let mut bytes = Vec::new(alloc);
    percent_decode(text.as_bytes()).append_to(&mut bytes).ok()?;
    Some(bytes)
}

pub fn name(alloc: Global, text: &str) -> Option<Name> {
    match Name::new(alloc, text.as_bytes()) {
        Ok(name) => name,
        Err(_) => None,
    }
}
