ghost use Rattle.std.specs.Prelude.{◌≡◌, ◌≤◌, length};
ghost use Rattle.coap_tcp.specs.Turns.{pong_bytes};

use crate::codes::PONG;
use std::marker::Model;

/// The frame that answers a Ping: a Pong with its token and nothing else (RFC 8323, section 5.4).
#[derive(Drop)]
pub struct Pong {
    bytes: [u8; 10],
    len: usize,
}

impl Model for Pong {
    ghost use Rattle.std.specs.Prelude.{ℕ, List, take, ◌≤◌};

    ghost Value = { List ℕ };

    ghost view = { λ pong. take pong.len pong.bytes };

    ghost invariant = { λ pong. pong.len ≤ 10 };
}

impl Pong {
    /// The Pong of a Ping with this token.
    pub(crate) fn new(token: &[u8]) -> Pong
        requires { length token.now ≤ 8 }
        ensures { result ≡ pong_bytes token.now }
    {
        let len = 2 + token.len();
        let mut bytes = [0; 10];
        bytes[0] = token.len() as u8;
        bytes[1] = PONG;
        bytes[2..len].copy_from_slice(token);
        Pong { bytes, len }
    }

    /// Its bytes: at most 10.
    pub fn as_slice(&self) -> &[u8]
        ensures { result.now ≡ self.now }
    {
        &self.bytes[..self.len]
    }
}
