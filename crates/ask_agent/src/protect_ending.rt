ghost use Rattle.std.specs.Prelude.{◌≡◌};
ghost use Rattle.ask_agent.specs.Protecting.{protect_status};

use crate::settings_protecting::ProtectWord;
use crate::verdict::Verdict;

/// How a run of a client ends that asks once.
#[derive(Clone, Copy)]
pub enum ProtectEnding {
    /// No request waits any more, or End came before, and what became of the ask is written.
    Judged(Verdict),
    /// The same, and it couldn't be written.
    ReportFailed,
    /// The wire failed.
    NextFailed,
    /// 2^40 events came, and a request waits.
    TooMany,
    /// This word is the first one that isn't of its form.
    WrongWord(ProtectWord),
    /// Memory ran out before the first event.
    NoMemory,
}

impl ProtectEnding {
    /// The exit status.
    pub fn status(self) -> u8
        ensures { result ≡ protect_status self }
    {
        match self {
            ProtectEnding::Judged(verdict) => verdict.status(),
            ProtectEnding::WrongWord(_) => 2,
            ProtectEnding::NoMemory => 4,
            ProtectEnding::NextFailed => 5,
            ProtectEnding::ReportFailed => 9,
            ProtectEnding::TooMany => 11,
        }
    }
}
