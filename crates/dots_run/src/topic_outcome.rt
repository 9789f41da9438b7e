ghost use Rattle.std.specs.Prelude.{◌≡◌};
ghost use Rattle.dots_run.specs.Reporting.{outcome_status};

/// How telling ended.
#[derive(Clone, Copy)]
pub enum TopicOutcome {
    /// There is no fault, and what is to be told is written.
    Written,
    /// There is no fault, and what is to be told couldn't be written.
    Failed,
    /// The file is at fault.
    AtFault,
    /// The file couldn't be read, and nothing is written.
    Unread,
    /// Memory ran out, and nothing is written.
    NoMemory,
}

impl TopicOutcome {
    /// The exit status of the program.
    pub fn status(self) -> u8
        ensures { result ≡ outcome_status self }
    {
        match self {
            TopicOutcome::Written => 0,
            TopicOutcome::AtFault => 3,
            TopicOutcome::NoMemory => 4,
            TopicOutcome::Unread => 5,
            TopicOutcome::Failed => 9,
        }
    }
}
