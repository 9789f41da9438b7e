ghost use Rattle.std.specs.Prelude.{◌≡◌};
ghost use Rattle.ask_agent.specs.declared.fault.AskSettingsFault.TheVariants as fault;

use dots_lists::NoMemory;
use std::alloc::AllocError;

/// Why there are no settings. Lines are counted from 1 on.
#[derive(Clone, Copy, Debug)]
pub enum AskSettingsFault {
    /// The first line that has none of the forms or can't stand where it does, or the line behind the last where one is missing.
    Line { n: u32 },
    /// The source failed before the file was read.
    ReadFault,
    /// Memory ran out.
    NoMemory,
}

impl From<NoMemory> for AskSettingsFault {
    ghost from_gives = { λ _ made. made ≡ fault.NoMemory };

    fn from(_: NoMemory) -> Self {
        AskSettingsFault::NoMemory
    }
}

impl From<AllocError> for AskSettingsFault {
    ghost from_gives = { λ _ made. made ≡ fault.NoMemory };

    fn from(_: AllocError) -> Self {
        AskSettingsFault::NoMemory
    }
}
