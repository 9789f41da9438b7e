//! Laws about messages and their spellings. No program needs to call these functions.

ghost use Rattle.std.specs.Prelude.{◌≡◌, ℕ, List, length, sum_by};
ghost use Rattle.coap_message.specs.declared.fault.CoapFault.{CoapFault};
ghost use Rattle.coap_message.specs.declared.parts.Parts.{Parts};
ghost use Rattle.coap_message.specs.Breaks.{Breaks};
ghost use Rattle.coap_message.specs.Message.{CoapMessage, IsMessage, spelling};
ghost use Rattle.coap_message.specs.Parts.{AreParts, IsValid, InRange, message_of, options_of, parts_of, values_of};

/// No bytes spell two messages.
pub fn one_message()
    ensures { (m n : CoapMessage) → IsMessage m → IsMessage n → spelling m ≡ spelling n → m ≡ n }
{}

/// No bytes have two first faults, or spell a message and have one.
pub fn one_fault()
    ensures alone { (bytes : List ℕ) (fault other : CoapFault) → Breaks bytes fault → Breaks bytes other → fault ≡ other }
    ensures no_message { (bytes : List ℕ) (fault : CoapFault) (m : CoapMessage) → Breaks bytes fault → IsMessage m → bytes ≡ spelling m → ⊥ }
{}

/// The options of each message have valid parts. So [`encode_into`](crate::encode_into) of the parts of what
/// [`decode`](crate::decode) read gives the bytes again.
pub fn parts_of_message()
    ensures same { (m : CoapMessage) → options_of (parts_of m.options) (values_of m.options) ≡ m.options }
    ensures are { (m : CoapMessage) → IsMessage m → AreParts 0 (parts_of m.options) }
    ensures values { (m : CoapMessage) → sum_by (λ part. part.length) (parts_of m.options) ≡ length (values_of m.options) }
{}

/// Valid parts stand for a message. So [`decode`](crate::decode) of what [`encode_into`](crate::encode_into) wrote
/// gives this message again.
pub fn valid_parts()
    ensures { (parts : Parts) → IsValid parts → InRange parts → IsMessage (message_of parts) }
{}
