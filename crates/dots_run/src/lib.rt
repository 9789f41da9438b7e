//! The top call, [`run`], and that of the program, [`run_blocks`], from which long replies leave in blocks; the same over a script,
//! [`run_script`]; over the streams that the program is handed, [`run_program`]; and over sockets and a journal in a file,
//! [`run_sockets`]. [`run_again`] runs twice, the second time over what a crash left.
//!
//! What the program tells without serving, [`report_topic`] writes: what a settings file or a script comes to, or its first fault and why it is one;
//! how the program is called; and its version. That text is a function of the [`Topic`] and of the bytes of the source ([`one_text`]):
//! `specs/Reporting.antt` says which, `specs/Usage.antt` has the texts that no file decides, and those of files are in `dots_script`.
//!
//! A client over sockets is [`ask_sockets`], one that asks once [`protect_sockets`], and what the settings of a client come to
//! [`check_client`] tells: `specs/Clients.antt`. A gateway over sockets is [`gateway_sockets`]: `specs/Gateways.antt`.
//!
//! What stands in a journal goes over to other settings with [`migrate`]: `specs/Migrate.antt`.
//!
//! A generated run, [`run_load`], has a host of its own. Its report is a function of its number ([`one_load_text`]), and `specs/Load.antt` says which.
#![tactic(auto)]

mod again;
mod blocks;
mod client;
mod client_report;
mod figure_file;
mod filter_files;
mod gateway;
mod host_report;
mod laws;
mod load;
mod migrate_words;
mod outcome;
mod program;
mod protect;
mod reporting;
mod running;
mod scripted;
mod server_files;
mod sockets;
mod topic;
mod topic_outcome;
mod topics;
mod wording;
mod words;

pub use again::run_again;
pub use ask_agent::{is_ask, is_check_ask, is_protect};
pub use blocks::{Ended, run_blocks};
pub use client::ask_sockets;
pub use client_report::{ClientChecked, check_client};
pub use dots_script::ScriptHost;
pub use figure_file::FigureFile;
pub use filter_files::{FilterFile, FilterFiles, NamedFiles, Refreshed};
pub use gateway::gateway_sockets;
pub use gateway_command::is_gateway;
pub use host_report::{HostChecked, check_host, host_task};
pub use laws::{one_load_text, one_text};
pub use load::run_load;
pub use migrate_words::{is_migrate, migrate};
pub use program::{Finished, run_program};
pub use protect::{Protected, protect_sockets};
pub use reporting::report_topic;
pub use running::{run, run_shown};
pub use scripted::{Scripted, run_script};
pub use server_files::ServerFiles;
pub use sockets::{Over, Served, run_sockets};
pub use topic::Topic;
pub use topic_outcome::TopicOutcome;
pub use words::{is_serve, settings_name};
