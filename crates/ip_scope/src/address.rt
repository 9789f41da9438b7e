ghost use Rattle.std.specs.Prelude.{◌^◌, ◌<◌};
ghost use Rattle.ip_scope.specs.Family.{width};

use crate::family::Family;

/// An address: a number below 2^32, or below 2^128.
#[derive(Clone, Copy)]
pub struct Addr {
    pub family: Family,
    pub number: u128,
    pub ghost fits: { number < 2 ^ width family },
}
