ghost use Rattle.std.specs.Prelude.{◌≡◌, Some, IfErr};
ghost use Rattle.coap_message.specs.Breaks.{head_break};
ghost use Rattle.coap_message.specs.MessageReading.{Reads, head_at, kind_of};
ghost use Rattle.coap_message.specs.CodeValues.{head_value};

use crate::fault::CoapFault;
use crate::head::Head;
use crate::kind::Kind;

/// The type that two bits stand for.
pub(crate) fn kind_of(bits: u8) -> Kind
    ensures { result ≡ kind_of bits }
{
    match bits {
        0 => Kind::Con,
        1 => Kind::Non,
        2 => Kind::Ack,
        _ => Kind::Rst,
    }
}

/// The header and the token in front of the bytes, and the bytes behind them.
#[tactic(auto, unfolding(crate::specs::MessageReading::head_at))]
pub(crate) fn read_head(bytes: &[u8]) -> Result<(Head<'_>, &[u8]), CoapFault>
    ensures read { Reads (λ x. (head_value x.0, x.1.now)) result (head_at bytes.now) }
    ensures fault { IfErr result (λ fault. head_break bytes.now ≡ Some fault) }
{
    let [first, code, high, low, rest @ ..] = bytes else {
        return Err(CoapFault::Short { at: bytes.len() });
    };
    let (version, token_length) = (*first / 64, (*first % 16) as usize);
    if version != 1 {
        return Err(CoapFault::Version { at: 0 });
    }
    if token_length > 8 {
        return Err(CoapFault::TokenLength { at: 0 });
    }
    if *code == 0 && token_length > 0 {
        return Err(CoapFault::EmptyWithMore { at: 0 });
    }
    if *code == 0 && !rest.is_empty() {
        return Err(CoapFault::EmptyWithMore { at: 4 });
    }
    if rest.len() < token_length {
        return Err(CoapFault::Short { at: bytes.len() });
    }
    let (token, rest) = rest.split_at(token_length);
    let head = Head {
        kind: kind_of(*first / 16 % 4),
        code: *code,
        id: u16::from_be_bytes([*high, *low]),
        token,
    };
    Ok((head, rest))
}
