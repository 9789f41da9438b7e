//! The figures of a server, as the text of a file for Prometheus' textfile collector.
//!
//! [`figures_text`] takes what was counted on the wire (a `Tally`), the settings, the tables and the journal, and at how many ticks the wall clock had
//! strayed. Each figure stands with a line on what it is and one on its kind. Read `specs/Figures.antt` first.
#![tactic(auto)]

mod domains;
mod figures;
mod lines;
mod rows;
mod sent;
mod spelling;

pub use figures::figures_text;
