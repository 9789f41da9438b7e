//! What came and what was sent.

ghost use Rattle.std.specs.Prelude.{◌≡◌, ◌<◌, ◌++◌, OnOk};
ghost use Rattle.server_figures.specs.Lines.{lines_from};
ghost use Rattle.server_figures.specs.Figures.{came_lines, code_line, codes_lines, status_line, statuses_lines, sent_lines};

use crate::lines::{add_counter, add_counter_heading, add_gauge, add_labelled};
use coap_message::code_text;
use dots_lists::NoMemory;
use itoa::Buffer;
use wire_figures::Tally;

/// What came.
#[tactic(auto, unfolding(crate::specs::Figures::came_lines))]
pub fn add_came(text: &mut Vec<u8>, tally: &Tally) -> Result<(), NoMemory>
    ensures { OnOk result (text.new.items ≡ text.old.items ++ came_lines tally.now) }
{
    add_counter(
        text,
        b"dots_events_total",
        b"Events that were taken.",
        tally.events(),
    )?;
    add_gauge(
        text,
        b"dots_last_event_seconds",
        b"Time beside the last event, in seconds.",
        tally.last_time(),
    )?;
    add_counter(
        text,
        b"dots_datagrams_total",
        b"Datagrams that came.",
        tally.datagrams(),
    )?;
    add_counter(
        text,
        b"dots_stranger_datagrams_total",
        b"Datagrams from addresses that no peer has.",
        tally.strangers(),
    )?;
    add_counter(
        text,
        b"dots_connections_total",
        b"Connections that were opened.",
        tally.connections(),
    )
}

/// What was sent.
#[tactic(auto, unfolding(crate::specs::Figures::sent_lines))]
pub fn add_sent(text: &mut Vec<u8>, tally: &Tally) -> Result<(), NoMemory>
    ensures { OnOk result (text.new.items ≡ text.old.items ++ sent_lines tally.now) }
{
    add_codes(text, tally)?;
    add_statuses(text, tally)?;
    add_counter(
        text,
        b"dots_lost_sends_total",
        b"Sends that were lost.",
        tally.losses(),
    )
}

#[tactic(auto, unfolding(crate::specs::Figures::codes_lines))]
fn add_codes(text: &mut Vec<u8>, tally: &Tally) -> Result<(), NoMemory>
    ensures { OnOk result (text.new.items ≡ text.old.items ++ codes_lines tally.now) }
{
    add_counter_heading(
        text,
        b"dots_replies_total",
        b"Replies and notifications on the signal channel, by code.",
    )?;
    add_each_code(text, tally)
}

fn add_each_code(text: &mut Vec<u8>, tally: &Tally) -> Result<(), NoMemory>
    ensures { OnOk result (text.new.items ≡ text.old.items ++ lines_from (code_line tally.now) 64 128) }
{
    for code in 64..192u8 {
        add_code(text, tally, code)?;
    }
    Ok(())
}

/// How many datagrams were sent with the code, where there are any.
fn add_code(text: &mut Vec<u8>, tally: &Tally, code: u8) -> Result<(), NoMemory>
    ensures { OnOk result (text.new.items ≡ text.old.items ++ code_line tally.now code) }
{
    let number = tally.with_code(code);
    if number == 0 {
        return Ok(());
    }
    add_labelled(
        text,
        b"dots_replies_total",
        b"code",
        &code_text(code),
        number,
    )
}

#[tactic(auto, unfolding(crate::specs::Figures::statuses_lines))]
fn add_statuses(text: &mut Vec<u8>, tally: &Tally) -> Result<(), NoMemory>
    ensures { OnOk result (text.new.items ≡ text.old.items ++ statuses_lines tally.now) }
{
    add_counter_heading(
        text,
        b"dots_http_replies_total",
        b"Replies on the data channel, by status.",
    )?;
    add_each_status(text, tally)
}

fn add_each_status(text: &mut Vec<u8>, tally: &Tally) -> Result<(), NoMemory>
    ensures { OnOk result (text.new.items ≡ text.old.items ++ lines_from (status_line tally.now) 100 500) }
{
    for status in 100..600u16 {
        add_status(text, tally, status)?;
    }
    Ok(())
}

/// How many replies were sent with the status, where there are any.
fn add_status(text: &mut Vec<u8>, tally: &Tally, status: u16) -> Result<(), NoMemory>
    requires { status < 600 }
    ensures { OnOk result (text.new.items ≡ text.old.items ++ status_line tally.now status) }
{
    let number = tally.with_status(status);
    if number == 0 {
        return Ok(());
    }
    let mut digits = Buffer::new();
    add_labelled(
        text,
        b"dots_http_replies_total",
        b"status",
        digits.format(status).as_bytes(),
        number,
    )
}
