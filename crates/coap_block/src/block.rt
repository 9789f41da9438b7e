//! The value of a Block2 option (RFC 7959, section 2.2).

ghost use Rattle.std.specs.Prelude.{◌≡◌, ◌≤◌, ◌<◌, ◌^◌, length, Some, None, IfSome, nat_le, if◌then◌else◌};
ghost use Rattle.coap_block.specs.Option.{number_in, block_of, block_number, shortest, IsBlock, block_size, uint_bytes};

/// A number of a block, whether more follow, and the exponent of the size.
#[derive(Clone, Copy)]
pub struct BlockOption {
    /// Below 2^20.
    pub number: u32,
    pub more: bool,
    /// 0 to 7. A block has 2^(exponent + 4) bytes, and 7 is reserved.
    pub exponent: u8,
}

/// The number in the value of an option, which may have leading zeros (RFC 7252, section 3.2).
fn number_in(value: &[u8]) -> u32
    requires { length value.now ≤ 3 }
    ensures value { result ≡ number_in value.now }
    ensures bound { result < 2 ^ 24 }
{
    match value {
        [] => 0,
        [a] => u32::from(*a),
        [a, b] => 256 * u32::from(*a) + u32::from(*b),
        [a, b, c] => 256 * (256 * u32::from(*a) + u32::from(*b)) + u32::from(*c),
        _ => unreachable!(),
    }
}

/// A number in as few bytes as there can be (RFC 7252, section 3.2).
#[derive(Clone, Copy)]
pub enum Uint {
    None,
    One([u8; 1]),
    Two([u8; 2]),
    Three([u8; 3]),
}

impl Uint {
    fn new(number: u32) -> Uint
        requires { number < 2 ^ 24 }
        ensures { uint_bytes result ≡ shortest number }
    {
        if number == 0 {
            Uint::None
        } else if number < 256 {
            Uint::One([number as u8])
        } else if number < 65536 {
            Uint::Two([(number / 256) as u8, (number % 256) as u8])
        } else {
            Uint::Three([
                (number / 65536) as u8,
                (number / 256 % 256) as u8,
                (number % 256) as u8,
            ])
        }
    }

    /// The bytes, the highest first.
    pub fn bytes(&self) -> &[u8]
        ensures { result.now ≡ uint_bytes self.now }
    {
        match self {
            Uint::None => &[],
            Uint::One(bytes) => bytes,
            Uint::Two(bytes) => bytes,
            Uint::Three(bytes) => bytes,
        }
    }
}

impl BlockOption {
    /// The block that a value stands for. None exactly where it has more than 3 bytes.
    pub fn read(value: &[u8]) -> Option<BlockOption>
        ensures value { result ≡ (if nat_le (length value.now) 3 then Some (block_of value.now) else None) }
        ensures is { IfSome result IsBlock }
    {
        if value.len() > 3 {
            return None;
        }
        let number = number_in(value);
        Some(BlockOption {
            number: number / 16,
            more: number / 8 % 2 == 1,
            exponent: (number % 8) as u8,
        })
    }

    /// The value that stands for it.
    pub fn value(&self) -> Uint
        requires { IsBlock self.now }
        ensures { uint_bytes result ≡ shortest (block_number self.now) }
    {
        let more = if self.more { 8 } else { 0 };
        Uint::new(16 * self.number + more + u32::from(self.exponent))
    }

    /// How many bytes a block has.
    pub fn size(&self) -> usize
        requires { self.now.exponent < 7 }
        ensures value { result ≡ block_size self.now.exponent }
        ensures bound { result ≤ 1024 }
    {
        match self.exponent {
            0 => 16,
            1 => 32,
            2 => 64,
            3 => 128,
            4 => 256,
            5 => 512,
            _ => 1024,
        }
    }
}
