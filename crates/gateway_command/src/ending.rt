ghost use Rattle.std.specs.Prelude.{◌≡◌};
ghost use Rattle.gateway_command.specs.Running.{status_of, halt_status};

use dots_machine::Ending;
use dots_settings::SettingsFault;
use gateway_agent::{GatewayEnding, GatewayHalt};

/// How the command of a gateway ends.
#[derive(Clone, Copy)]
pub enum CommandEnding {
    /// The settings were read and are refused.
    Refused(SettingsFault),
    /// The settings couldn't be read.
    SettingsFailed,
    /// Memory ran out for the settings.
    NoMemory,
    /// The gateway ran. Where it came to the end, how many exchanges waited is written.
    Ran(GatewayEnding),
    /// The gateway came to the end when so many exchanges waited, and that couldn't be written.
    ReportFailed { waiting: usize },
}

impl CommandEnding {
    /// The exit status. That of a disk that isn't recovered is a server's.
    pub fn status(self) -> u8
        ensures { result ≡ status_of self }
    {
        match self {
            CommandEnding::Ran(GatewayEnding::Ended { .. }) => 0,
            CommandEnding::Refused(_) => 3,
            CommandEnding::NoMemory => 4,
            CommandEnding::SettingsFailed => 5,
            CommandEnding::ReportFailed { .. } => 9,
            CommandEnding::Ran(GatewayEnding::Unopened(fault)) => {
                Ending::Unrecovered(fault).status()
            }
            CommandEnding::Ran(GatewayEnding::Halted(how)) => halt_status(how),
        }
    }
}

/// The exit status where the events of the gateway stopped before the end.
fn halt_status(how: GatewayHalt) -> u8
    ensures { result ≡ halt_status how }
{
    match how {
        GatewayHalt::NextFailed => 5,
        GatewayHalt::DiskFailed => 6,
        GatewayHalt::TooMany => 11,
        GatewayHalt::Unrecovered(fault) => Ending::Unrecovered(fault).status(),
    }
}
