//! Options of a message that is written, one after the other.

ghost use Rattle.std.specs.Prelude.{◌≡◌, ◌+◌, ◌<◌, ◌≤◌, ◌++◌, ◌∷◌, [], length, IfOk};
ghost use Rattle.coap_message.specs.Message.{last_number};
ghost use Rattle.coap_message.specs.Parts.{options_of};
ghost use Rattle.dots_client.specs.Options.{AreWritten};

use coap_message::OptionPart;
use dots_lists::NoMemory;
use std::alloc::Global;
use std::marker::Model;

/// At most 16 options of at most 255 bytes, in an order in which their numbers don't fall.
#[derive(Drop)]
pub struct OptionList {
    parts: Vec<OptionPart>,
    values: Vec<u8>,
}

impl Model for OptionList {
    ghost use Rattle.std.specs.Prelude.{List};
    ghost use Rattle.coap_message.specs.Message.{CoapOption};
    ghost use Rattle.coap_message.specs.Parts.{options_of};
    ghost use Rattle.dots_client.specs.Options.{AreWritten};

    ghost Value = { List CoapOption };

    ghost view = { λ list. options_of list.parts.items list.values.items };

    ghost invariant = { λ list. AreWritten list.parts.items list.values.items };
}

impl OptionList {
    /// No options. Takes no memory.
    pub fn new(alloc: Global) -> Self
        ensures { result ≡ [] }
    {
        OptionList {
            parts: Vec::new(alloc),
            values: Vec::new(alloc),
        }
    }

    /// The list with one more behind the others, whose value is a name and what stands behind it.
    pub fn with(self, number: u16, name: &[u8], value: &[u8]) -> Result<Self, NoMemory>
        requires order { last_number 0 self ≤ number }
        requires short { length name.now + length value.now ≤ 255 }
        requires few { length self < 16 }
        ensures { IfOk result (λ list. list ≡ self ++ record { number = number; value = name.now ++ value.now } ∷ []) }
    {
        let OptionList {
            mut parts,
            mut values,
        } = self;
        parts.push(OptionPart {
            number,
            length: name.len() + value.len(),
        })?;
        values.extend_from_slice(name)?;
        values.extend_from_slice(value)?;
        Ok(OptionList { parts, values })
    }

    pub(crate) fn parts(&self) -> (&[OptionPart], &[u8])
        ensures are { AreWritten result.0.now result.1.now }
        ensures options { options_of result.0.now result.1.now ≡ self.now }
    {
        (self.parts.as_slice(), self.values.as_slice())
    }
}
