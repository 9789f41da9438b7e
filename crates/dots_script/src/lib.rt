//! A host whose events come from a script: it reads lines from a source and writes its sends to a sink. Its disk is in
//! memory.
//!
//! A script has one event a line. `at 1000 from 0 50030002`: at second 1000 a datagram of these bytes comes from peer 0.
//! `at 1000 open 5 0`: peer 0 opens connection 5. `at 1000 piece 5 474554`: these bytes come on connection 5. `at 1000 close 5`:
//! connection 5 is closed. `at 1001 tick`: second 1001 has come. `at 1002 restart`: at second 1002 the server lost all but its
//! disk and begins again. Blank lines and lines that begin with `#` are skipped, and any other line is a fault.
//!
//! A send is one line: `to 0 60450002` a datagram to peer 0, `conn 5 485454` bytes on connection 5, and `close 5` its end.
//!
//! What is told of a settings file and of a script without serving them is here, too: [`check_settings`] and [`check_script`] read a source to its
//! end and answer what it comes to, or its first fault with the reason in plain words and the field that has to be mended; [`read_front`] reads
//! the front of one. `specs/Checks.antt` has the texts, `specs/Reason.antt` the reasons in words, `specs/Remarks.antt` the one that a line of
//! the settings has, and `specs/ScriptRemarks.antt` that of a line of a script.
//!
//! Read [`ScriptHost`] first, then `specs/Script.antt` (the lines of a script), `specs/Lines.antt` (what a call
//! answers) and `specs/Sends.antt` (the line of a send).
#![tactic(auto)]

mod block;
mod checked;
mod event_line;
mod hex_digits;
mod laws;
mod lines;
mod mistakes;
mod pieces;
mod quoting;
mod reading;
mod reason;
mod remark;
mod script_check;
mod script_host;
mod script_remarks;
mod send_line;
mod settings_check;
mod settings_remarks;
mod summary;

pub use checked::{Checked, Unchecked};
pub use event_line::parse_event;
pub use laws::{a_fault_stays, a_script_has_one_answer, lines_say_one_list};
pub use lines::{MAX_LINE_BYTES, MAX_SKIPPED};
pub use quoting::end_quoted;
pub use reading::read_front;
pub use script_check::check_script;
pub use script_host::{DISK_BYTES, ScriptHost};
pub use settings_check::{check_content, check_settings, quoted_part};
pub use summary::add_count;
