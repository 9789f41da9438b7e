//! The bytes of a head.

ghost use Rattle.std.specs.Prelude.{◌≡◌};
ghost use Rattle.cbor_profile.specs.Head.{head};
ghost use Rattle.cbor_profile.specs.Parts.{number_of};

use crate::major::Major;
use std::marker::Model;

/// The numbers of the simple values (RFC 8949, section 3.3).
pub const FALSE: u64 = 20;

pub const TRUE: u64 = 21;

pub const NULL: u64 = 22;

/// A head in its shortest form.
#[derive(Drop)]
pub(crate) struct HeadBytes {
    bytes: [u8; 9],
    len: usize,
}

impl Model for HeadBytes {
    ghost use Rattle.std.specs.Prelude.{ℕ, List, take, ◌≤◌};

    ghost Value = { List ℕ };

    ghost view = { λ head. take head.len head.bytes };

    ghost invariant = { λ head. head.len ≤ 9 };
}

impl HeadBytes {
    pub(crate) fn new(major: Major, argument: u64) -> Self
        ensures { result ≡ head (number_of major) argument }
    {
        let kind = 32 * major.number();
        if argument < 24 {
            return HeadBytes {
                bytes: [kind + argument as u8, 0, 0, 0, 0, 0, 0, 0, 0],
                len: 1,
            };
        }
        if argument < 0x100 {
            return HeadBytes {
                bytes: [kind + 24, argument as u8, 0, 0, 0, 0, 0, 0, 0],
                len: 2,
            };
        }
        if argument < 0x1_0000 {
            let [a, b] = (argument as u16).to_be_bytes();
            return HeadBytes {
                bytes: [kind + 25, a, b, 0, 0, 0, 0, 0, 0],
                len: 3,
            };
        }
        if argument < 0x1_0000_0000 {
            let [a, b, c, d] = (argument as u32).to_be_bytes();
            return HeadBytes {
                bytes: [kind + 26, a, b, c, d, 0, 0, 0, 0],
                len: 5,
            };
        }
        let [a, b, c, d, e, f, g, h] = argument.to_be_bytes();
        HeadBytes {
            bytes: [kind + 27, a, b, c, d, e, f, g, h],
            len: 9,
        }
    }

    pub(crate) fn as_slice(&self) -> &[u8]
        ensures { result.now ≡ self.now }
    {
        &self.bytes[..self.len]
    }
}
