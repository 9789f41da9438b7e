ghost use Rattle.std.specs.Prelude.{◌≡◌};
ghost use Rattle.ask_agent.specs.Running.{status_of};

/// How a run of a client ends.
#[derive(Clone, Copy)]
pub enum AskEnding {
    /// End came, and the report is written.
    Reported,
    /// End came, and the report couldn't be written.
    ReportFailed,
    /// The wire failed.
    NextFailed,
    /// 2^40 events came, and none was End.
    TooMany,
    /// The settings were read, and this line of them is the first at fault.
    Refused { line: u32 },
    /// The settings couldn't be read.
    SettingsFailed,
    /// Memory ran out before the first event.
    NoMemory,
}

impl AskEnding {
    /// The exit status.
    pub fn status(self) -> u8
        ensures { result ≡ status_of self }
    {
        match self {
            AskEnding::Reported => 0,
            AskEnding::Refused { .. } => 3,
            AskEnding::NoMemory => 4,
            AskEnding::SettingsFailed | AskEnding::NextFailed => 5,
            AskEnding::ReportFailed => 9,
            AskEnding::TooMany => 11,
        }
    }
}
