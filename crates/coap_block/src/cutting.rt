//! What is known between datagrams.

ghost use Rattle.std.specs.Prelude.{◌≡◌, ◌≢◌, ◌≤◌, [], length, take, true, false, None, IfOk, if◌then◌else◌, slice_index};
ghost use Rattle.std.specs.Bool.{OnTrue, OnFalse};
ghost use Rattle.coap_message.specs.Message.{payload_bytes};
ghost use Rattle.coap_block.specs.Blocks.{Sees, Sends, AreFew};
ghost use Rattle.coap_block.specs.Around.{no_blocks};

use crate::awaiting::{Awaiting, replied, see_message};
use crate::noticing::notify;
use crate::observed::{ObservedRequest, note_reply};
use crate::replying::{MAX_STORED, answer_reply};
use crate::room::Room;
use crate::stored::StoredBody;
use coap_message::codes::GET;
use coap_message::decode;
use dots_lists::NoMemory;
use std::alloc::Global;
use std::marker::Model;

/// The most bytes of a datagram that comes, and of one that is written here.
pub const MOST: usize = 4096;

/// The GET whose reply is awaited, the bodies that are stored, at most one for each peer, and what is observed.
#[derive(Drop)]
pub struct Cutting {
    room: Room,
    request: Room,
    awaited: Option<Awaiting>,
    stored: Vec<StoredBody>,
    observed: Vec<ObservedRequest>,
}

impl Model for Cutting {
    ghost use Rattle.std.specs.Prelude.{◌≡◌, ◌≤◌, length, option_map};
    ghost use Rattle.std.specs.Option.{ForSome};
    ghost use Rattle.coap_block.specs.Knowing.{Known, asked_with, AsksBlock};
    ghost use Rattle.coap_block.specs.Blocks.{AreFew};

    ghost Value = { Known };

    ghost view = { λ cutting. record {
      blocks = record {
        awaited = option_map (asked_with cutting.request.filled) cutting.awaited;
        stored = cutting.stored.items;
        observed = cutting.observed.items;
      };
      written = cutting.room.filled;
    } };

    ghost invariant = { λ cutting. (cutting.room.most ≡ 4096) × (cutting.request.most ≡ 4096) × AsksBlock cutting.awaited × (length cutting.stored.items ≤ 64)
        × AreFew cutting.observed.items };
}

impl Cutting {
    /// Nothing is awaited, stored or observed. Takes the memory for what is written.
    pub fn new(alloc: Global) -> Result<Cutting, NoMemory>
        ensures { IfOk result (λ cutting.
            cutting ≡ record { blocks = no_blocks; written = [] }) }
    {
        let room = Room::new(alloc, MOST)?;
        let request = Room::new(alloc, MOST)?;
        Ok(Cutting {
            room,
            request,
            awaited: None,
            stored: Vec::new(alloc),
            observed: Vec::new(alloc),
        })
    }

    /// What was written last.
    pub fn written(&self) -> &[u8]
        ensures { result.now ≡ self.now.written }
    {
        self.room.bytes()
    }

    /// A datagram came from the peer: whether what is seen of it was written, or it is seen as it is.
    pub fn see(&mut self, peer: u32, datagram: &[u8]) -> bool
        requires { length datagram.now ≤ MOST }
        ensures sees { Sees peer datagram.now (if result then self.new.written else datagram.now) self.new.blocks.awaited }
        ensures shorter { OnTrue result (length self.new.written ≤ length datagram.now) }
        ensures stored { self.new.blocks.stored ≡ self.old.blocks.stored }
        ensures observed { self.new.blocks.observed ≡ self.old.blocks.observed }
    {
        self.awaited = None;
        if !may_be_get(datagram) {
            return false;
        }
        let Ok(message) = decode(datagram) else {
            return false;
        };
        let (awaited, written) = see_message(&mut self.room, &mut self.request, peer, &message);
        self.awaited = awaited;
        written
    }

    /// An event came that is no datagram: no reply is awaited any more.
    pub fn skip(&mut self)
        ensures { self.new ≡ record self.old { blocks = record self.old.blocks { awaited = None } } }
    {
        self.awaited = None;
    }

    /// A restart: nothing is awaited, stored or observed.
    pub fn forget(&mut self)
        ensures { self.new ≡ record self.old { blocks = no_blocks } }
    {
        self.awaited = None;
        self.stored.clear();
        self.observed.clear();
    }

    /// A datagram is sent to the peer: whether what leaves was written, or it leaves as it is.
    pub fn reply(&mut self, peer: u32, bytes: &[u8]) -> bool
        ensures sends { Sends self.old.blocks peer bytes.now
            (if result then self.new.written else bytes.now) self.new.blocks }
        ensures few { length self.new.blocks.stored ≤ MAX_STORED }
        ensures known { AreFew self.new.blocks.observed }
    {
        let awaited = self.awaited;
        if awaited.is_none() && self.observed.is_empty() {
            return false;
        }
        let Ok(message) = decode(bytes) else {
            return false;
        };
        let before = bytes.len() - payload_len(message.payload());
        let Some(awaited) = replied(awaited, peer, &message) else {
            return notify(
                &mut self.room,
                &mut self.stored,
                self.observed.as_slice(),
                peer,
                &message,
                before,
            );
        };
        self.awaited = None;
        let request = self.request.bytes();
        note_reply(&mut self.observed, request, &awaited, &message);
        answer_reply(
            &mut self.room,
            &mut self.stored,
            request,
            &awaited,
            &message,
            before,
        )
    }
}

/// Whether the bytes spell a GET, where they spell a message: the second byte of a message is its code.
fn may_be_get(bytes: &[u8]) -> bool
    ensures { OnFalse result (slice_index bytes.now 1 ≢ 1) }
{
    match bytes {
        [_, code, ..] => *code == GET,
        _ => false,
    }
}

/// How many bytes a payload has with its marker.
fn payload_len(payload: &[u8]) -> usize
    ensures { result ≡ length (payload_bytes payload.now) }
{
    if payload.is_empty() {
        return 0;
    }
    1 + payload.len()
}
