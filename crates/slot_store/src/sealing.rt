ghost use Rattle.std.specs.Prelude.{◌≡◌};
ghost use Rattle.slot_store.specs.Formats.{seal};

use sha2::{Digest, Sha256};

/// The length of a seal, in bytes.
pub const SEAL: usize = 8;

/// The seal of these bytes: the first eight bytes of their SHA-256 (FIPS 180-4). Takes no memory.
pub fn seal(bytes: &[u8]) -> [u8; SEAL]
    ensures { result ≡ seal bytes.now }
{
    let digest = Sha256::digest(bytes);
    let mut seal = [0; SEAL];
    seal.copy_from_slice(&digest[..SEAL]);
    seal
}
