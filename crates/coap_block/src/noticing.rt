//! What becomes of a notification (RFC 7959, section 2.6).

ghost use Rattle.std.specs.Prelude.{◌≡◌, ◌≤◌, length, if◌then◌else◌};
ghost use Rattle.coap_message.specs.Message.{spelling};
ghost use Rattle.coap_block.specs.Blocks.{head_size, is_long_notice, noticed_in, IsNoticed, IsNotified};

use crate::cut::write_cut;
use crate::observed::{ObservedRequest, has_observe, observed_for};
use crate::replying::{FIRST_BLOCK, MAX_STORED, MOST_WHOLE, keep};
use crate::room::Room;
use crate::stored::StoredBody;
use coap_message::Message;
use coap_message::codes::CONTENT;

/// Whether a message is a notification that is cut. It has so many bytes before its payload.
fn is_long_notice(message: &Message<'_>, before: usize) -> bool
    requires before { before ≡ head_size message.now }
    ensures { result ≡ is_long_notice message.now }
{
    message.code() == CONTENT
        && message.payload().len() > MOST_WHOLE
        && before <= MOST_WHOLE
        && has_observe(message)
}

/// Stores the payload of a long notification as the body of what is observed, and cuts it to its first block. Where there is no
/// memory it leaves as it is.
fn cut_notice(
    room: &mut Room,
    stored: &mut Vec<StoredBody>,
    observed: &ObservedRequest,
    message: &Message<'_>,
) -> bool
    requires head { head_size message.now ≤ MOST_WHOLE }
    requires few { length stored.old.items ≤ MAX_STORED }
    requires room { room.old.most ≡ 4096 }
    ensures notified { IsNotified observed.now message.now stored.old.items
        (if result then room.new.filled else spelling message.now) stored.new.items }
    ensures few { length stored.new.items ≤ MAX_STORED }
    ensures most { room.new.most ≡ room.old.most }
{
    let body = message.payload();
    if keep(stored, observed.peer, observed.request.items(), body).is_err() {
        return false;
    }
    write_cut(room, message, &FIRST_BLOCK, body);
    true
}

/// A message is sent to a peer that isn't the reply that is awaited: whether what leaves was written, or it leaves as it is. It has so
/// many bytes before its payload.
pub fn notify(
    room: &mut Room,
    stored: &mut Vec<StoredBody>,
    observed: &[ObservedRequest],
    peer: u32,
    message: &Message<'_>,
    before: usize,
) -> bool
    requires before { before ≡ head_size message.now }
    requires few { length stored.old.items ≤ MAX_STORED }
    requires room { room.old.most ≡ 4096 }
    ensures noticed { IsNoticed (noticed_in observed.now peer message.now) message.now stored.old.items
        (if result then room.new.filled else spelling message.now) stored.new.items }
    ensures few { length stored.new.items ≤ MAX_STORED }
    ensures most { room.new.most ≡ room.old.most }
{
    if !is_long_notice(message, before) {
        return false;
    }
    match observed_for(observed, peer, message.token()) {
        Some(one) => cut_notice(room, stored, one, message),
        None => false,
    }
}
