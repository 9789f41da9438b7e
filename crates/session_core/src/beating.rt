//! Heartbeats at a tick.

ghost use Rattle.std.specs.Prelude.{◌≡◌, ℕ, List, map, length, true, ⊤};
ghost use Rattle.dots_host.specs.Runs.{Added};
ghost use Rattle.dots_host.specs.Becoming.{KeepsMedia};
ghost use Rattle.session_core.specs.declared.contact.Beat.{Beat};
ghost use Rattle.session_core.specs.Beating.{Beating, Agrees};
ghost use Rattle.session_core.specs.Places.{row_peer};
ghost use Rattle.session_core.specs.Spacing.{BeatsAll};
ghost use Rattle.session_core.specs.Notifying.{SentTo};
ghost use Rattle.session_core.specs.Beats.{beat_with, beat_bytes, beat_sent, beats, after_beats};

use crate::configs::Configs;
use crate::contact::Beat;
use crate::sending::send_to;
use crate::sessions::Sessions;
use coap_message::codes::PUT;
use coap_message::option_numbers::{CONTENT_FORMAT, URI_PATH};
use coap_message::{Kind, OptionPart, Parts, encode_into};
use dots_host::Host;

/// How many bytes a heartbeat has.
const BEAT_BYTES: usize = 35;

/// `{49: {51: true}}`, and the same with false (RFC 9132, section 4.7).
const HEARD: [u8; 7] = [0xa1, 0x18, 0x31, 0xa1, 0x18, 0x33, 0xf5];

const UNHEARD: [u8; 7] = [0xa1, 0x18, 0x31, 0xa1, 0x18, 0x33, 0xf4];

/// Sends each peer the heartbeat that is due at the time `now`, in seconds, in the order of the settings (RFC 9132, section 4.7). No session is
/// forgotten. Takes no memory. Whether a heartbeat left makes no difference.
pub fn beat<H: Host, C: Configs>(host: &mut H, sessions: &mut Sessions, configs: &C, now: u64)
    ensures sent { (by : Beating) → Agrees (C.Says configs.now) by
        → Added (H.acts host.old) (H.acts host.new) (SentTo (H.moment host.old) (H.moment host.new) (beats by now sessions.old)) }
    ensures left { (by : Beating) → Agrees (C.Says configs.now) by → sessions.new ≡ after_beats by now sessions.old }
    ensures adds { Added (H.acts host.old) (H.acts host.new) (λ more. ⊤) }
    ensures peers { map row_peer sessions.new ≡ map row_peer sessions.old }
    ensures media { KeepsMedia (H.media host.old) (H.media host.new) }
    ensures extent { H.extent host.new ≡ H.extent host.old }
    ensures disk { H.Disk.faults host.new ≡ H.Disk.faults host.old }
    ensures wire { H.Wire.faults host.new ≡ H.Wire.faults host.old }
    ensures leads { H.leads host.old host.new }
{
    send_beats(host, sessions, configs, now);
}

/// Sends each heartbeat that is due.
fn send_beats<H: Host, C: Configs>(host: &mut H, sessions: &mut Sessions, configs: &C, now: u64)
    ensures sent { (given : List Beat) × ((by : Beating) → Agrees (C.Says configs.now) by → BeatsAll by now sessions.old given sessions.new)
        × Added (H.acts host.old) (H.acts host.new) (SentTo (H.moment host.old) (H.moment host.new) (map beat_sent given)) }
    ensures peers { map row_peer sessions.new ≡ map row_peer sessions.old }
    ensures media { KeepsMedia (H.media host.old) (H.media host.new) }
    ensures extent { H.extent host.new ≡ H.extent host.old }
    ensures disk { H.Disk.faults host.new ≡ H.Disk.faults host.old }
    ensures wire { H.Wire.faults host.new ≡ H.Wire.faults host.old }
    ensures leads { H.leads host.old host.new }
{
    while let Some(beat) = sessions.next_beat(configs, now) {
        let bytes = beat_bytes(beat);
        send_to(host, beat.peer, bytes.as_slice());
    }
}

/// The message of a heartbeat.
fn beat_bytes(beat: Beat) -> [u8; BEAT_BYTES]
    ensures { result ≡ beat_bytes beat.id beat.heard }
{
    if beat.heard {
        return with_body(beat.id, &HEARD);
    }
    with_body(beat.id, &UNHEARD)
}

fn with_body(id: u16, body: &[u8; 7]) -> [u8; BEAT_BYTES]
    ensures { result ≡ beat_with id body.now }
{
    let mut bytes = [0; BEAT_BYTES];
    encode_into(
        &Parts {
            kind: Kind::Non,
            code: PUT,
            id,
            token: &[],
            options: &[
                OptionPart {
                    number: URI_PATH,
                    length: 11,
                },
                OptionPart {
                    number: URI_PATH,
                    length: 4,
                },
                OptionPart {
                    number: URI_PATH,
                    length: 2,
                },
                OptionPart {
                    number: CONTENT_FORMAT,
                    length: 2,
                },
            ],
            values: b".well-knowndotshb\x01\x0f",
            payload: body,
        },
        &mut bytes,
    );
    bytes
}
