//! Writing a request.

ghost use Rattle.std.specs.Prelude.{[], ◌≡◌, ◌≢◌, ◌++◌, ◌%◌, ◌^◌, IfOk, OnOk};
ghost use Rattle.std.specs.Int.{w64, to_be_bytes};
ghost use Rattle.coap_message.specs.declared.kind.Kind.TheVariants.{Non};
ghost use Rattle.coap_message.specs.Message.{payload_bytes, spelling};

use crate::options::OptionList;
use coap_message::{Kind, Parts, encode_into, encoded_len};
use dots_lists::{Bytes, NoMemory};
use std::alloc::Global;

/// Between the options of a message and its payload (RFC 7252, section 3).
const PAYLOAD_MARKER: u8 = 0xff;

/// The non-confirmable message of this number.
pub fn write(
    alloc: Global,
    code: u8,
    number: u64,
    options: &OptionList,
    payload: &[u8],
) -> Result<Bytes, NoMemory>
    requires { code ≢ 0 }
    ensures { IfOk result (λ bytes. bytes ≡ spelling (record {
      kind = Non;
      code = code;
      identifier = number % 2 ^ 16;
      token = to_be_bytes w64 number;
      options = options.now;
      payload = payload.now;
    })) }
{
    let mut bytes = write_front(alloc, code, number, options)?;
    push_payload(&mut bytes, payload)?;
    Ok(Bytes::from_vec(bytes))
}

/// The message without a payload.
fn write_front(
    alloc: Global,
    code: u8,
    number: u64,
    options: &OptionList,
) -> Result<Vec<u8>, NoMemory>
    requires { code ≢ 0 }
    ensures { IfOk result (λ bytes. bytes.items ≡ spelling (record {
      kind = Non;
      code = code;
      identifier = number % 2 ^ 16;
      token = to_be_bytes w64 number;
      options = options.now;
      payload = [];
    })) }
{
    let token = number.to_be_bytes();
    let (parts, values) = options.parts();
    let parts = Parts {
        kind: Kind::Non,
        code,
        id: (number % 65_536) as u16,
        token: &token,
        options: parts,
        values,
        payload: &[],
    };
    let mut bytes = vec![in alloc; 0; encoded_len(&parts)]?;
    let _len = encode_into(&parts, &mut bytes);
    Ok(bytes)
}

/// Puts the payload behind the rest of a message.
fn push_payload(message: &mut Vec<u8>, payload: &[u8]) -> Result<(), NoMemory>
    ensures { OnOk result (message.new.items ≡ message.old.items ++ payload_bytes payload.now) }
{
    if payload.is_empty() {
        return Ok(());
    }
    message.push(PAYLOAD_MARKER)?;
    message.extend_from_slice(payload)?;
    Ok(())
}
