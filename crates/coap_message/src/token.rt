ghost use Rattle.std.specs.Prelude.{◌≡◌, ◌≤◌, length, Some, None, nat_le, if◌then◌else◌};

use std::marker::Model;

/// A token: at most 8 bytes (RFC 7252, section 5.3.1).
#[derive(Clone, Copy)]
pub struct Token {
    bytes: [u8; 8],
    size: usize,
}

impl Model for Token {
    ghost use Rattle.std.specs.Prelude.{ℕ, List, ◌≡◌, ◌≤◌, take, length};
    ghost use Rattle.std.proofs.Common.{ap, sym, ◌∙◌};
    ghost use Rattle.coap_message.specs.Padding.{padded, take_size};

    ghost Value = { List ℕ };

    ghost view = { λ token. take token.size token.bytes };

    // The bytes behind the token are zeros.
    ghost invariant = { λ token. (token.size ≤ 8) × (length token.bytes ≡ 8) × (token.bytes ≡ padded (take token.size token.bytes)) };

    ghost inverse = { λ bytes. record { bytes = padded bytes; size = length bytes } };

    ghost inverse_ok = { λ a h. ap (λ n. record { bytes = padded (take a.size a.bytes); size = n }) (take_size a.size a.bytes h.0 h.1) ∙ ap (λ b. record { bytes = b; size = a.size }) (sym h.2) };
}

impl Token {
    /// The token of these bytes. None exactly where there are more than 8.
    pub fn new(bytes: &[u8]) -> Option<Token>
        ensures { result ≡ (if nat_le (length bytes.now) 8 then Some bytes.now else None) }
    {
        if bytes.len() > 8 {
            return None;
        }
        let mut padded = [0; 8];
        padded[..bytes.len()].copy_from_slice(bytes);
        Some(Token {
            bytes: padded,
            size: bytes.len(),
        })
    }

    pub fn bytes(&self) -> &[u8]
        ensures value { result.now ≡ self.now }
        ensures size { length self.now ≤ 8 }
    {
        &self.bytes[..self.size]
    }
}
