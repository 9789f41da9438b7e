//! The keys of the maps in a body.

ghost use Rattle.std.specs.Prelude.{◌≡◌};
ghost use Rattle.dots_keys.specs.Keys.{key_role, is_known, is_ignored};

/// What a number is as a key.
#[derive(Clone, Copy)]
pub enum Role {
    /// A key of the table.
    Known(u8),
    /// A key that is passed over wherever it stands.
    Ignored,
    /// Any other number.
    Unknown(u64),
}

/// What the number is as a key.
pub fn key_role(number: u64) -> Role
    ensures { result ≡ key_role number }
{
    match number {
        1..=45 | 49..=51 => Role::Known(number as u8),
        128..=255 | 16384..=65535 => Role::Ignored,
        _ => Role::Unknown(number),
    }
}
