//! Reading a source.

ghost use Rattle.std.specs.Prelude.{◌≡◌, ◌<◌, ◌≤◌, length, take, IfOk, IfSome, OnOk};
ghost use Rattle.dots_host.specs.Causes.{Rose};

use crate::checked::Unchecked;
use dots_host::Source;
use std::alloc::Global;

/// How many bytes are asked for at a time.
const BLOCK: usize = 4096;

/// The bytes of the source, or the first of them, so many.
pub fn read_front<S: Source>(
    alloc: Global,
    source: &mut S,
    most: usize,
) -> Result<Vec<u8>, Unchecked>
    ensures bytes { IfOk result (λ bytes. IfSome (S.left source.old) (λ left. bytes.items ≡ take most left)) }
    ensures few { IfOk result (λ bytes. length bytes.items ≤ most) }
    ensures whole { IfOk result (λ bytes. length bytes.items < most → IfSome (S.left source.old) (λ left. bytes.items ≡ left)) }
    ensures same { OnOk result (S.faults source.new ≡ S.faults source.old) }
    ensures cause { result ≡ Err Unchecked.ReadFailed → Rose (S.faults source.old) (S.faults source.new) }
{
    let mut block = [0; BLOCK];
    let mut bytes = Vec::new(alloc);
    while bytes.len() < most {
        let Ok(count) = source.read(&mut block) else {
            return Err(Unchecked::ReadFailed);
        };
        if count == 0 {
            return Ok(bytes);
        }
        bytes.extend_from_slice(&block[..count])?;
    }
    bytes.truncate(most);
    Ok(bytes)
}

/// All the bytes of the source.
pub fn read_whole<S: Source>(alloc: Global, source: &mut S) -> Result<Vec<u8>, Unchecked>
    ensures bytes { IfOk result (λ bytes. IfSome (S.left source.old) (λ left. bytes.items ≡ left)) }
    ensures same { OnOk result (S.faults source.new ≡ S.faults source.old) }
    ensures cause { result ≡ Err Unchecked.ReadFailed → Rose (S.faults source.old) (S.faults source.new) }
{
    match read_front(alloc, source, usize::MAX) {
        Ok(bytes) => {
            if bytes.len() == usize::MAX {
                return Err(Unchecked::NoMemory);
            }
            return Ok(bytes);
        }
        Err(fault) => return Err(fault),
    }
}
