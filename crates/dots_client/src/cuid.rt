ghost use Rattle.std.specs.Prelude.{◌≡◌};
ghost use Rattle.dots_client.specs.Cuid.{cuid_text};

use base64::engine::general_purpose::URL_SAFE_NO_PAD;
use sha2::{Digest, Sha256};

/// The name of a client by its public key, as `SubjectPublicKeyInfo` in DER: the base64url text without padding of the first 16 bytes of
/// the key's SHA-256 (RFC 9132, section 4.4.1). Takes no memory.
pub fn cuid_of(spki: &[u8]) -> [u8; 22]
    ensures { result ≡ cuid_text spki.now }
{
    let digest = Sha256::digest(spki);
    let mut text = [0; 22];
    match URL_SAFE_NO_PAD.encode_slice(&digest[..16], &mut text) {
        Ok(_) => text,
        Err(_) => unreachable!(),
    }
}
