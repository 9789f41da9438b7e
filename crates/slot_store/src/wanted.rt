ghost use Rattle.std.specs.Prelude.{◌≡◌};
ghost use Rattle.slot_store.specs.Gates.{is_wanted};

/// The byte of an open gate.
pub const OPEN: u8 = 0xa5;

/// Which gates are looked for.
#[derive(Clone, Copy)]
pub enum Wanted {
    Open,
    NotOpen,
    NotZero,
}

/// Whether a gate with this byte is one of those that are looked for.
pub fn is_wanted(what: Wanted, byte: u8) -> bool
    ensures { result ≡ is_wanted what byte }
{
    match what {
        Wanted::Open => byte == OPEN,
        Wanted::NotOpen => byte != OPEN,
        Wanted::NotZero => byte != 0,
    }
}
