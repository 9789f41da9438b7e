//! The settings of a server: what the lines of its settings file say.
//!
//! [`read_settings`] reads the file whole and answers its [`Settings`], or the [`SettingsFault`] of its first line that
//! has one. A domain's number is its place in the file's order.
//! [`Settings`] and its readers take no memory once they are made. [`read_form`] reads one line by its fields, and answers
//! its [`Form`], or the [`Complaint`] that says why it has none.
//!
//! Contracts speak of the bytes of the file. Start reading at `specs/Form.antt`, which has the ten forms of a line, and why a line has none of them;
//! `specs/Faults.antt` says what is wrong with a line that has one, by what the lines before it have said;
//! `specs/Settings.antt` what the lines come to; and `specs/File.antt` puts these together.
#![tactic(auto)]

mod capacity;
mod complaint;
mod domains;
mod draft;
mod fault;
mod finishing;
mod form;
mod judging;
pub mod laws;
mod limits;
mod line;
mod mistake;
mod names;
mod peer;
mod reading;
mod settings;
mod source;
mod spelling;

pub use capacity::Capacity;
pub use complaint::Complaint;
pub use domains::DomainRow;
pub use fault::{MAX_FAULT_LINE, SettingsFault};
pub use form::Form;
pub use limits::Limits;
pub use line::read_form;
pub use mistake::Mistake;
pub use names::NameRow;
pub use peer::{NO_DOMAIN, PeerRow, Role};
pub use reading::{MAX_FILE, is_past, settings_of};
pub use settings::Settings;
pub use source::read_settings;
