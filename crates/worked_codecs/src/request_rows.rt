//! Messages of the signal channel: what they ask, and what they are refused with (RFC 9132, sections 4.4 to 4.7 and 6).

use crate::row::Row;
use crate::tables::{Rows, Worded, all_hold, unescaped};
use coap_message::{Message, decode};
use dots_keys::{Content, MAX_TEXT, Observe, Reject, Request, read_request};
use std::alloc::Global;

/// What stands for a name in a row.
///
/// PUT, POST, GET and DELETE are the first four bytes of a NON message with such a code. WELL_KNOWN is the front of each path, and MITIGATION,
/// CONFIG and HEARTBEAT are whole paths as options: those of a mitigation with its mid, of the configuration and of heartbeats. A body
/// stands behind BODY, the marker: that of SCOPE is the one scope of a mitigation, and that of VALUES the map of a configuration.
const NAMES: &str = "\
PUT %50%03%12%34
POST %50%02%12%34
GET %50%01%12%34
DELETE %50%04%12%34
WELL_KNOWN %bb.well-known%04dots
MITIGATION %bb.well-known%04dots%08mitigate%06cuid=a%05mid=1
CONFIG %bb.well-known%04dots%06config%05sid=5
HEARTBEAT %bb.well-known%04dots%02hb
BODY %ff
SCOPE %ff%a1%01%a1%02%81
VALUES %ff%a1%18%1e";

/// Refusals before the body, in their order, with the options behind the path of a mitigation. Two are of a critical option that is not
/// known, and of a second Accept. A Hop-Limit of two bytes is ignored.
const HEADS: &str = "\
PUT MITIGATION = 4.00 cbor
GET MITIGATION = asked
GET MITIGATION %a1%00%00 = 4.02 option 21
GET MITIGATION %62%01%0f%02%01%0f = 4.02 option 17
PUT MITIGATION %52%00%00 = 4.00 cbor
POST MITIGATION %51%00 = 4.05 method
PUT MITIGATION %51%00 = 4.00 hop limit
PUT MITIGATION %11%3c%51%32 = 4.06 accept
PUT MITIGATION %11%3c%33c=a = 4.15 content format
GET MITIGATION %43c=a%03c=a = 4.00 query";

/// Paths and their parameters, from a client or from a gateway.
const PATHS: &str = "\
PUT WELL_KNOWN %03hbb = 4.04 path
PUT WELL_KNOWN %08mitigate%05mid=1%06cuid=a = 4.04 path
GET WELL_KNOWN %02hb = 4.05 method
PUT WELL_KNOWN %08mitigate%06cuid=a = 4.00 path parameter
GET WELL_KNOWN %08mitigate%07cuid=a/ = 4.00 path parameter
GET WELL_KNOWN %08mitigate%06cuid=a%0d%01mid=4294967296 = 4.00 path parameter
gateway GET WELL_KNOWN %08mitigate%06cuid=a = 4.00 path parameter
gateway GET WELL_KNOWN %08mitigate%06cdid=b%06cuid=a = asked
DELETE WELL_KNOWN %06config = 4.00 path parameter
DELETE WELL_KNOWN %06config%05sid=5 = asked";

/// Bodies of requests for mitigations whose scope isn't there or can't be read, and of heartbeats.
const BODIES: &str = "\
PUT MITIGATION BODY %a1 = 4.00 cbor
PUT MITIGATION BODY %a0%00 = 4.00 cbor
PUT MITIGATION BODY %a1%61a%00 = 4.00 invalid 0
PUT MITIGATION BODY %a1%18%2e%00 = 4.00 unknown 46
PUT MITIGATION BODY %a1%1b%ff%ff%ff%ff%ff%ff%ff%ff%00 = 4.00 unknown 18446744073709551615
PUT MITIGATION BODY %a1%01%a1%02%82%a0%a0 = 4.00 invalid 2
# what is wrong inside comes at its key's turn
PUT MITIGATION BODY %a2%01%a0%18%3c%00 = 4.00 missing 2
PUT MITIGATION BODY %a2%00%00%01%a0 = 4.00 unknown 0
PUT HEARTBEAT BODY %a1%18%31%a1%18%33%f5 = asked
PUT HEARTBEAT BODY %a1%18%31%a1%18%33%f6 = 4.00 invalid 51";

/// Scopes of a request for a mitigation. In the eighth the upper port is below the lower, and the others behind it have `trigger-mitigation`, which a gateway
/// may not have false.
const SCOPES: &str = "\
PUT MITIGATION SCOPE %a2%06%81%6c192.0.2.7/24%0e%19%0e%10 = the mitigation
PUT MITIGATION SCOPE %a3%06%81%6c192.0.2.0/24%0e%19%0e%10%18%82%00 = the mitigation
PUT MITIGATION SCOPE %a3%06%81%6c192.0.2.0/24%0e%19%0e%10%18%3c%00 = 4.00 unknown 60
PUT MITIGATION SCOPE %a2%06%81%6c192.0.2.0/24%0e%00 = 4.00 invalid 14
PUT MITIGATION SCOPE %a2%06%81%6c192.0.2.0/24%0e%20 = asked
PUT MITIGATION SCOPE %a2%06%80%0e%01 = 4.00 missing 6
PUT MITIGATION SCOPE %a2%0d%89%61a%61a%61a%61a%61a%61a%61a%61a%61a%0e%01 = 4.00 invalid 13
PUT MITIGATION SCOPE %a3%07%81%a2%08%18%50%09%18%4f%0b%81%61a%0e%01 = 4.00 invalid 9
PUT MITIGATION SCOPE %a3%06%81%6c192.0.2.0/24%0e%19%0e%10%18%2d%f5 = the mitigation
PUT MITIGATION SCOPE %a3%06%81%6c192.0.2.0/24%0e%19%0e%10%18%2d%f4 = the mitigation that waits
PUT MITIGATION SCOPE %a3%06%81%6c192.0.2.0/24%0e%19%0e%10%18%2d%00 = 4.00 invalid 45
gateway PUT WELL_KNOWN %08mitigate%06cdid=b%06cuid=a%05mid=1 SCOPE %a3%06%81%6c192.0.2.0/24%0e%19%0e%10%18%2d%f5 = asked
gateway PUT WELL_KNOWN %08mitigate%06cdid=b%06cuid=a%05mid=1 SCOPE %a3%06%81%6c192.0.2.0/24%0e%19%0e%10%18%2d%f4 = 4.00 invalid 45";

/// Configurations at the edges of their grammar, and a mitigation that is observed: Observe is 0 in two bytes.
const CONFIGS: &str = "\
PUT CONFIG VALUES %a0 = 4.00 missing 32
PUT CONFIG VALUES %a1%18%20%a0 = 4.00 missing 33
PUT CONFIG VALUES %a1%18%2c%a1%18%27%a1%18%2b%c4%82%21%18%c8 = asked
PUT CONFIG VALUES %a1%18%2c%a1%18%27%a1%18%2b%c4%82%01%02 = 4.00 invalid 43
PUT CONFIG VALUES %a1%18%2c%a1%18%27%a1%18%2b%c4%82%20%1b%ff%ff%ff%ff%ff%ff%ff%ff = 4.00 invalid 43
PUT CONFIG VALUES %a1%18%2c%a1%18%27%a1%18%2b%c4%82%20%19%01%00 = the configuration
GET %62%00%00%5b.well-known%04dots%08mitigate%06cuid=a%43c=n = the observation";

/// What a word of a row stands for: the text behind a name, else itself.
fn meaning(word: &str) -> &str {
    for line in NAMES.lines() {
        if let Some((name, text)) = line.split_once(' ') {
            if name == word {
                return text;
            }
        }
    }
    word
}

/// The bytes that the words of a row spell.
fn datagram(alloc: Global, words: &str) -> Option<Vec<u8>> {
    let mut text = String::new(alloc);
    for word in words.split(' ') {
        text.push_str(meaning(word)).ok()?;
    }
    unescaped(alloc, &text)
}

/// Whether it asks for the mitigation of 192.0.2.0/24 with mid 1 for 3600 seconds.
fn is_mitigation(request: &Request) -> bool {
    let Request::PutMitigation { path, body } = request else {
        return false;
    };
    let [prefix] = body.asked.prefixes.items() else {
        return false;
    };
    path.cdid.is_none()
        && path.cuid.bytes() == b"a".as_slice()
        && path.mid == Some(1)
        && body.lifetime == 3600
        && prefix.number() == 0xc0000200
        && prefix.length() == 24
}

/// Whether it asks for a mitigation that filters at once.
fn triggers(request: &Request) -> bool {
    match request {
        Request::PutMitigation { body, .. } => body.trigger,
        _ => false,
    }
}

/// Whether it observes the state of all mitigations.
fn is_observation(request: &Request) -> bool {
    let Request::GetMitigation {
        path,
        content,
        observe,
    } = request
    else {
        return false;
    };
    path.mid.is_none() && *content == Content::State && *observe == Observe::Register
}

/// Whether it is the configuration with sid 5 that gives a timeout for idle times of 25.6 seconds, and none for a mitigation.
fn is_configuration(request: &Request) -> bool {
    let Request::PutConfig { sid, body } = request else {
        return false;
    };
    *sid == 5 && body.idle.timeout == Some(2560) && body.mitigating.timeout.is_none()
}

fn name_of(request: &Request) -> &'static str {
    if is_mitigation(request) {
        return if triggers(request) {
            "the mitigation"
        } else {
            "the mitigation that waits"
        };
    }
    if is_observation(request) {
        return "the observation";
    }
    if is_configuration(request) {
        return "the configuration";
    }
    "asked"
}

/// Whether the text that is put to the front of bytes is this.
fn puts(reject: &Reject, want: &str) -> bool {
    let mut text = [0; MAX_TEXT];
    let len = reject.put_text(&mut text);
    &text[..len] == want.as_bytes()
}

/// The code of a refusal and its text, which is printed as it is put to the front of bytes.
fn refusal(alloc: Global, reject: &Reject) -> Option<String> {
    let text = format!(in alloc; "{reject}").ok()?;
    if !puts(reject, &text) {
        return None;
    }
    let code = reject.code();
    format!(in alloc; "{}.{:02} {text}", code / 32, code % 32).ok()
}

/// The name of what a message asks, or what it is refused with; None where it is no request.
fn asked(alloc: Global, message: &Message<'_>, gateway: bool) -> Option<String> {
    let code = message.code();
    if code == 0 || code / 32 != 0 {
        return None;
    }
    match read_request(alloc, message, gateway) {
        Ok(request) => String::from_str(alloc, name_of(&request)).ok(),
        Err(reject) => refusal(alloc, &reject),
    }
}

/// What the message of a row asks, or is refused with. `gateway` stands in front of a message from a gateway.
pub fn answer(alloc: Global, row: &mut Row<'_>) -> Option<String> {
    let words = row.rest();
    let (gateway, words) = match words.strip_prefix("gateway ") {
        Some(words) => (true, words),
        None => (false, words),
    };
    let bytes = datagram(alloc, words)?;
    match decode(bytes.as_slice()) {
        Ok(message) => asked(alloc, &message, gateway),
        Err(_) => None,
    }
}

#[test]
fn requests_are_read_or_refused(rt: HostRuntime) {
    all_hold(&rt, rt.alloc(), Rows::Worded(Worded::Requests), HEADS);
    all_hold(&rt, rt.alloc(), Rows::Worded(Worded::Requests), PATHS);
    all_hold(&rt, rt.alloc(), Rows::Worded(Worded::Requests), BODIES);
    all_hold(&rt, rt.alloc(), Rows::Worded(Worded::Requests), SCOPES);
    all_hold(&rt, rt.alloc(), Rows::Worded(Worded::Requests), CONFIGS);
}
