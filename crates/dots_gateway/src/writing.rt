//! Writing a message.

ghost use Rattle.std.specs.Prelude.{[], ◌≡◌, ◌≢◌, ◌≤◌, ◌++◌, ◌%◌, ◌^◌, length, IfOk, OnOk};
ghost use Rattle.coap_message.specs.Message.{payload_bytes, spelling};

use crate::options::OptionList;
use coap_message::{Kind, Parts, encode_into, encoded_len};
use dots_lists::{Bytes, NoMemory};
use std::alloc::Global;

/// Between the options of a message and its payload (RFC 7252, section 3).
const PAYLOAD_MARKER: u8 = 0xff;

/// What stands in front of the options of a message that isn't empty.
#[derive(Clone, Copy)]
pub struct Front<'a> {
    pub kind: Kind,
    pub code: u8,
    /// The Message ID.
    pub id: u16,
    /// At most 8 bytes.
    pub token: &'a [u8],
}

/// The message of these parts.
pub fn write(
    alloc: Global,
    front: &Front<'_>,
    options: &OptionList,
    payload: &[u8],
) -> Result<Bytes, NoMemory>
    requires code { front.now.code ≢ 0 }
    requires token { length front.now.token.now ≤ 8 }
    ensures { IfOk result (λ bytes. bytes ≡ spelling (record {
      kind = front.now.kind;
      code = front.now.code;
      identifier = front.now.id;
      token = front.now.token.now;
      options = options.now;
      payload = payload.now;
    })) }
{
    let mut bytes = write_front(alloc, front, options)?;
    push_payload(&mut bytes, payload)?;
    Ok(Bytes::from_vec(bytes))
}

/// The message without a payload.
fn write_front(alloc: Global, front: &Front<'_>, options: &OptionList) -> Result<Vec<u8>, NoMemory>
    requires code { front.now.code ≢ 0 }
    requires token { length front.now.token.now ≤ 8 }
    ensures { IfOk result (λ bytes. bytes.items ≡ spelling (record {
      kind = front.now.kind;
      code = front.now.code;
      identifier = front.now.id;
      token = front.now.token.now;
      options = options.now;
      payload = [];
    })) }
{
    let (parts, values) = options.parts();
    let parts = Parts {
        kind: front.kind,
        code: front.code,
        id: front.id,
        token: front.token,
        options: parts,
        values,
        payload: &[],
    };
    let mut bytes = vec![in alloc; 0; encoded_len(&parts)]?;
    let _len = encode_into(&parts, &mut bytes);
    Ok(bytes)
}

/// Puts the payload behind the rest of a message.
fn push_payload(message: &mut Vec<u8>, payload: &[u8]) -> Result<(), NoMemory>
    ensures { OnOk result (message.new.items ≡ message.old.items ++ payload_bytes payload.now) }
{
    if payload.is_empty() {
        return Ok(());
    }
    message.push(PAYLOAD_MARKER)?;
    message.extend_from_slice(payload)?;
    Ok(())
}
