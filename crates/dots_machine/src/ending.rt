ghost use Rattle.std.specs.Prelude.{◌≡◌};
ghost use Rattle.dots_machine.specs.Endings.{status_of, recovery_status};

use dots_settings::SettingsFault;
use slot_journal::JournalFault;

/// How a run ends.
#[derive(Clone, Copy)]
pub enum Ending {
    /// The words are no command.
    WrongWords,
    /// A word was shown.
    Printed(Printing),
    /// The settings were read and are refused.
    Refused(SettingsFault),
    /// The settings couldn't be read.
    SettingsFailed,
    /// Memory ran out for the settings, or for the lines of a message.
    NoMemory,
    /// The disk wasn't recovered at the opening.
    Unrecovered(JournalFault),
    /// The events were served, and where End came the report is written.
    Served(Stop),
    /// End came, and the report couldn't be written.
    ReportFailed,
}

/// What came of a word that was to be shown.
#[derive(Clone, Copy)]
pub enum Printing {
    /// The lines of the message that it writes are written.
    Written,
    /// They couldn't be written.
    Failed,
    /// It writes no message, and its fault is shown.
    Unreadable,
}

/// How the events of a host stop.
#[derive(Clone, Copy)]
pub enum Stop {
    /// End came.
    Ended,
    /// The host failed.
    NextFailed,
    /// 2^40 events came and none was End.
    TooMany,
    /// The disk failed.
    DiskFailed,
    /// The disk wasn't recovered at a restart.
    Unrecovered(JournalFault),
}

impl Ending {
    /// The exit status of the program.
    pub fn status(self) -> u8
        ensures { result ≡ status_of self }
    {
        match self {
            Ending::Printed(Printing::Written) | Ending::Served(Stop::Ended) => 0,
            Ending::Printed(Printing::Unreadable) => 1,
            Ending::WrongWords => 2,
            Ending::Refused(_) => 3,
            Ending::NoMemory => 4,
            Ending::SettingsFailed | Ending::Served(Stop::NextFailed) => 5,
            Ending::ReportFailed | Ending::Printed(Printing::Failed) => 9,
            Ending::Served(Stop::DiskFailed) => 6,
            Ending::Served(Stop::TooMany) => 11,
            Ending::Unrecovered(fault) | Ending::Served(Stop::Unrecovered(fault)) => {
                recovery_status(fault)
            }
        }
    }
}

/// The exit status of the program where the disk isn't recovered.
fn recovery_status(fault: JournalFault) -> u8
    ensures { result ≡ recovery_status fault }
{
    match fault {
        JournalFault::NoMemory => 4,
        JournalFault::DiskFault => 6,
        JournalFault::NotOurs { .. } => 7,
        JournalFault::SettingsChanged { .. } => 8,
        JournalFault::TooSmall { .. } => 10,
    }
}
