ghost use Rattle.std.specs.Prelude.{◌≡◌, ◌==◌, ◌||◌, ◌/◌, ◌%◌, ◌≤◌, length, Some, IfSome, IfErr};
ghost use Rattle.coap_message.specs.Breaks.{option_break};
ghost use Rattle.coap_message.specs.MessageReading.{Gives, Reads, extended_at, option_at};
ghost use Rattle.coap_message.specs.CodeValues.{option_value};

use crate::fault::CoapFault;
use crate::option::OptionRow;

/// A delta or a length with this nibble, its extension in front of the bytes, and the bytes behind that.
#[tactic(auto, unfolding(crate::specs::MessageReading::extended_at))]
fn read_extended(nibble: u8, bytes: &[u8]) -> Option<(usize, &[u8])>
    ensures value { Gives (λ x. (x.0, x.1.now)) result (extended_at nibble bytes.now) }
    ensures bound { IfSome result (λ x. x.0 ≤ 65804) }
{
    match nibble {
        0..=12 => Some((nibble as usize, bytes)),
        13 => match bytes {
            [] => None,
            [byte, rest @ ..] => Some((*byte as usize + 13, rest)),
        },
        14 => match bytes {
            [high, low, rest @ ..] => {
                Some((u16::from_be_bytes([*high, *low]) as usize + 269, rest))
            }
            _ => None,
        },
        _ => None,
    }
}

fn has_reserved_nibble(first: u8) -> bool
    ensures { result ≡ (first / 16 == 15 || first % 16 == 15) }
{
    first / 16 == 15 || first % 16 == 15
}

/// The option in front of the bytes, behind one with the number `previous`, and the bytes behind it. The bytes
/// end at the place `end`.
#[tactic(auto, unfolding(crate::specs::MessageReading::option_at, crate::specs::Breaks::option_break))]
pub(crate) fn read_option<'a>(
    end: usize,
    previous: u16,
    bytes: &'a [u8],
) -> Result<(OptionRow<'a>, &'a [u8]), CoapFault>
    requires { length bytes.now ≤ end }
    ensures read { Reads (λ x. (option_value x.0, x.1.now)) result (option_at previous bytes.now) }
    ensures fault { IfErr result (λ fault. option_break end previous bytes.now ≡ Some fault) }
{
    let Some((first, rest)) = bytes.split_first() else {
        return Err(CoapFault::Short { at: end });
    };
    let at = end - bytes.len();
    if has_reserved_nibble(*first) {
        return Err(CoapFault::ReservedNibble { at });
    }
    let Some((delta, rest)) = read_extended(*first / 16, rest) else {
        return Err(CoapFault::Short { at: end });
    };
    let Some((len, rest)) = read_extended(*first % 16, rest) else {
        return Err(CoapFault::Short { at: end });
    };
    let Ok(number) = u16::try_from(previous as usize + delta) else {
        return Err(CoapFault::NumberTooLarge { at });
    };
    if rest.len() < len {
        return Err(CoapFault::Short { at: end });
    }
    let (value, rest) = rest.split_at(len);
    Ok((OptionRow { number, value }, rest))
}
