//! Names that take no memory.

ghost use Rattle.std.specs.Prelude.{◌≡◌, ◌≤◌, length};

use arrayvec::ArrayVec;
use dots_lists::Name;
use std::marker::Model;

/// The greatest length of a name, in bytes.
const MAX_NAME: usize = 64;

/// A name of at most 64 bytes, or none at all.
#[derive(Drop)]
pub struct ShortName {
    bytes: ArrayVec<u8, MAX_NAME>,
}

impl Model for ShortName {
    ghost use Rattle.std.specs.Prelude.{ℕ, List};

    ghost Value = { List ℕ };

    ghost view = { λ name. name.bytes.items };
}

impl ShortName {
    /// These bytes, of which there are at most 64.
    pub fn new(bytes: &[u8]) -> Self
        requires { length bytes.now ≤ 64 }
        ensures { result ≡ bytes.now }
    {
        ShortName {
            bytes: ArrayVec::try_from(bytes).unwrap(),
        }
    }

    /// The same name.
    #[tactic(auto, using(crate::proofs::Names::is_short))]
    pub fn of(name: &Name) -> Self
        ensures { result ≡ name.now }
    {
        Self::new(name.bytes())
    }

    pub fn bytes(&self) -> &[u8]
        ensures { result.now ≡ self.now }
    {
        self.bytes.as_slice()
    }
}
