ghost use Rattle.std.specs.Prelude.{◌≡◌};
ghost use Rattle.dots_script.specs.declared.checked.Unchecked.TheVariants as unchecked;

use dots_lists::Bytes;
use std::alloc::AllocError;

/// What is told of a file, its lines.
#[derive(Drop)]
pub enum Checked {
    /// What the file comes to.
    Good(Bytes),
    /// Its first fault, and why it is one.
    AtFault(Bytes),
}

/// Why nothing is told of a file.
#[derive(Clone, Copy)]
pub enum Unchecked {
    /// The source failed before the file was read.
    ReadFailed,
    /// Memory ran out.
    NoMemory,
}

impl From<AllocError> for Unchecked {
    ghost from_gives = { λ _ made. made ≡ unchecked.NoMemory };

    fn from(_: AllocError) -> Self {
        Unchecked::NoMemory
    }
}
