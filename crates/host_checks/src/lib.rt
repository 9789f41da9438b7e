//! What is told of a host file without serving it: what it comes to beside the settings that it is used with, what stands in the journal
//! that it names, and what a server would refuse, with its status then; or the first fault of its lines and why it is one.
//!
//! [`check_files`] reads both files and looks at the journal. [`check_host`] answers the text of the two files and of what was found of
//! the journal, which [`look_at`] reads off a disk, and [`host_fault_report`] that of a host file with a fault. Start reading at
//! `specs/HostChecks.antt`; `specs/Findings.antt` has the remarks and faults of the lines, and `specs/Journals.antt` what is said of the
//! journal. [`list_journal`] lists its entries (`specs/EntryLines.antt`), and [`filters_journal`] writes its filters (`specs/Filters.antt`).
//!
//! [`report_of`] writes the filters of a registry as the lines that a server prints at its end, and [`report_at`] those of the journal of a disk
//! (`specs/Lines.antt`). [`script_of`] and [`script_at`] write them as a script for `nft`, each with its end: `specs/Ends.antt` says which rows
//! and lists these are, and how many seconds are left of each.
#![tactic(auto)]

mod checking;
mod ends;
mod entry_line;
mod files;
mod filtering;
mod findings;
mod host_fault;
mod journal_state;
mod kept_entry;
mod left_out;
mod listing;
mod lists;
mod looking;
mod made_journal;
mod migrating;
pub mod migrating_laws;
mod moving_files;
mod new_journal;
mod reading;
mod reasons;
mod report;
mod returning;
mod script;
mod shown;
mod timed;
mod whole_image;
mod words;

pub use checking::check_host;
pub use files::{Task, check_files};
pub use filtering::{FilterForm, filters_journal};
pub use host_fault::host_fault_report;
pub use journal_state::JournalState;
pub use listing::list_journal;
pub use looking::look_at;
pub use made_journal::{MadeJournal, MakeFault, make_journal};
pub use moving_files::{Aim, MigrateEnd, Migration, migrate_files};
pub use reading::report_at;
pub use report::report_of;
pub use script::{script_at, script_of};
pub use shown::Shown;
pub use whole_image::write_whole;
