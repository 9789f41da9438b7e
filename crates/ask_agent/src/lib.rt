//! The client of a network as an agent: it takes the events of a wire, makes the asks of its settings at their times, and at the end
//! reports what was granted.
//!
//! [`run_ask`] reads the settings, takes the events of a wire until the end, and writes the report. [`Asker`] is the agent, whose
//! turns [`ask_over`] takes over any wire. [`run_client`] does so for the words of a command line, and [`check_ask_settings`] tells what
//! settings come to. [`run_protect`] asks once, as words say, and ends when that is answered or given up.
//!
//! Start reading at `specs/Asking.antt`, which has the client as a machine over events: what is heard, what is asked, and what is
//! sent. `specs/Report.antt` has the report, and `specs/Running.antt` what a run has done by its ending; `specs/Outcomes.antt`
//! has what a status says. `specs/Protecting.antt` has all of this for a client that asks once.
//!
//! The settings have lines of these forms, their fields separated by one space:
//!
//! - `server PEER`, and one of `cuid NAME` and `spki HEX`, the key of which the name is made;
//! - at most one each of `mid N`, the mid of the first new ask, and `number N`, that of the first request;
//! - then up to 64 of `at T new LIFETIME PREFIXES`, `at T refresh MID LIFETIME` and `at T withdraw MID`, whose times don't fall.
//!
//! [`read_ask_settings`] reads a file and answers the [`AskSettings`], or the first line at fault. [`protect_settings`] makes those of one
//! ask by words. `specs/Lines.antt` has the forms, `specs/SettingsSaid.antt` which line may stand behind others, `specs/File.antt` puts these
//! together, and `specs/SettingsProtecting.antt` has the settings of one ask.
//!
//! [`laws`] has what these come to: that the server said what is reported, in `specs/Said.antt`, and that the numbers of runs stay apart.
#![tactic(auto)]

mod asker;
mod checking;
mod command;
mod draft;
mod ending;
mod fault;
mod fields;
mod firsts;
pub mod laws;
mod line;
mod making;
mod planned;
mod protect_ending;
mod protecting;
mod reading;
mod refusal;
mod report;
mod running;
mod sending;
mod settings;
mod settings_protecting;
mod source;
mod unsent;
mod until_answered;
mod verdict;
mod words;

pub use asker::{Asker, ROOM};
pub use checking::check_ask_settings;
pub use command::run_client;
pub use ending::AskEnding;
pub use fault::AskSettingsFault;
pub use firsts::Firsts;
pub use planned::{MAX_ASKS, Planned};
pub use protect_ending::ProtectEnding;
pub use protecting::run_protect;
pub use refusal::Refusal;
pub use running::{ask_over, run_ask};
pub use settings::AskSettings;
pub use settings_protecting::{ProtectFault, ProtectWord, protect_settings};
pub use source::read_ask_settings;
pub use unsent::{Unsent, Why};
pub use verdict::Verdict;
pub use words::{ask_names, checked_name, is_ask, is_check_ask, is_protect, protect_host};
