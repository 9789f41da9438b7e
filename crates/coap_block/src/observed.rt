//! What is known of observers.

ghost use Rattle.std.specs.Prelude.{◌≡◌, ◌≤◌, ◌<◌, ◌==◌, ℕ, length, find, position};
ghost use Rattle.std.specs.Option.{option_copied};
ghost use Rattle.std.specs.Set.{remove_key};
ghost use Rattle.coap_block.specs.Blocks.{has_observe, is_observer, observed_by, is_of_peer, without_observer, with_room, AreFew, IsNoted, Notes};
ghost use Rattle.coap_block.specs.Knowing.{asked_with};

use crate::awaiting::Awaiting;
use coap_message::option_numbers::OBSERVE;
use coap_message::{Message, Token};
use dots_lists::{Bytes, NoMemory};

/// The most observers of a peer that are known. A server of 16 domains has at most 136 of a peer: 8 for each domain that it may act
/// for, and 8 for its own session.
pub const MAX_OBSERVED: usize = 136;

/// What is observed by an observer, which is a peer and a token (RFC 7641, section 4.1).
#[derive(Drop)]
pub struct ObservedRequest {
    pub peer: u32,
    pub token: Token,
    /// The path and the query, spelled as options.
    pub request: Bytes,
}

/// Whether a message has Observe.
pub fn has_observe(message: &Message<'_>) -> bool
    ensures { result ≡ has_observe message.now }
{
    let mut options = message.options();
    while let Some(row) = options.next() {
        if row.number == OBSERVE {
            return true;
        }
    }
    false
}

/// What the observer of this peer and token observes.
pub fn observed_for<'a>(
    observed: &'a [ObservedRequest],
    peer: u32,
    token: &[u8],
) -> Option<&'a ObservedRequest>
    ensures { option_copied result ≡ find (is_observer peer token.now) observed.now }
{
    observed
        .iter()
        .find(|one| one.peer == peer && one.token.bytes() == token)
}

/// Takes out the observer of this peer and token.
fn retain_others(observed: &mut Vec<ObservedRequest>, peer: u32, token: &[u8])
    ensures { observed.new.items ≡ without_observer peer token.now observed.old.items }
{
    observed.retain(|one| !(one.peer == peer && one.token.bytes() == token));
}

/// How many observers of a peer are known.
fn observed_by(observed: &[ObservedRequest], peer: u32) -> usize
    ensures { result ≡ length (observed_by peer observed.now) }
{
    observed.iter().filter(|one| one.peer == peer).count()
}

/// The place of that of a peer which was noted first.
fn place_of(observed: &[ObservedRequest], peer: u32) -> Option<usize>
    ensures { result ≡ position (is_of_peer peer) observed.now }
{
    observed.iter().position(|one| one.peer == peer)
}

/// Takes out that of a peer which was noted first.
fn drop_oldest(observed: &mut Vec<ObservedRequest>, peer: u32)
    ensures { observed.new.items ≡ remove_key (is_of_peer peer) observed.old.items }
{
    if let Some(place) = place_of(observed.as_slice(), peer) {
        let _oldest = observed.remove(place);
    }
}

/// Makes room for one more of a peer.
fn make_room(observed: &mut Vec<ObservedRequest>, peer: u32)
    ensures { observed.new.items ≡ with_room peer observed.old.items }
{
    if observed_by(observed.as_slice(), peer) >= MAX_OBSERVED {
        drop_oldest(observed, peer);
    }
}

/// Notes an observer. For want of memory it isn't known.
fn note_observer(
    observed: &mut Vec<ObservedRequest>,
    request: &[u8],
    awaited: &Awaiting,
) -> Result<(), NoMemory>
    ensures { IsNoted (asked_with request.now awaited.now) observed.old.items observed.new.items }
{
    retain_others(observed, awaited.peer, awaited.token.bytes());
    make_room(observed, awaited.peer);
    let request = Bytes::from_slice(*observed.allocator(), request)?;
    observed.push(ObservedRequest {
        peer: awaited.peer,
        token: awaited.token,
        request,
    })?;
    Ok(())
}

/// A reply leaves to the request: with Observe, it is observed from now on.
pub fn note_reply(
    observed: &mut Vec<ObservedRequest>,
    request: &[u8],
    awaited: &Awaiting,
    message: &Message<'_>,
)
    requires few { AreFew observed.old.items }
    ensures noted { Notes (has_observe message.now) (asked_with request.now awaited.now) observed.old.items observed.new.items }
    ensures few { AreFew observed.new.items }
{
    if has_observe(message) {
        let _noted = note_observer(observed, request, awaited);
    }
}
