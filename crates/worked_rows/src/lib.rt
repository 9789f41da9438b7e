//! Worked rows: whole runs of the program, with the bytes that are expected of them; and prefixes and texts, with what reading them
//! says.
//!
//! Each run is made through `dots_run::run`, as a user would: over a script, over a disk in memory, and over real sockets and a real
//! journal. What runs find on their disks, what they leave there, and what another run finds then, is told whichever call failed, and
//! whatever a crash left. The expected bytes come from the protocol's documents, the RFCs and the layout of a journal, and not
//! from the program.
//!
//! Rows are text: [`tables`] says how they are read, and [`texts`] has the names that stand in them.
//!
//! Calls that no run makes as they are made here stand in two modules of their own: [`hosts`] has those of hosts, and [`registry`] those of the
//! registry's libraries. A crate of tests is linked and checked with all that it reaches, so one crate is cheaper than three.
#![tactic(auto)]

#[cfg(test)]
mod acts;
#[cfg(test)]
mod alike;
#[cfg(test)]
mod ask_rows;
#[cfg(test)]
mod block_rows;
#[cfg(test)]
mod checks;
#[cfg(test)]
mod connection_rows;
#[cfg(test)]
mod crashes;
#[cfg(test)]
mod datagram_rows;
#[cfg(test)]
mod disk_rows;
#[cfg(test)]
mod disks;
#[cfg(test)]
mod domain_rows;
#[cfg(test)]
mod events;
#[cfg(test)]
mod faults;
#[cfg(test)]
mod filter_file_rows;
#[cfg(test)]
mod first_format;
#[cfg(test)]
mod hosts;
#[cfg(test)]
mod http_texts;
#[cfg(test)]
mod images;
#[cfg(test)]
mod journal_rows;
#[cfg(test)]
mod list_rows;
#[cfg(test)]
mod load_rows;
#[cfg(test)]
mod long_lists;
#[cfg(test)]
mod many;
#[cfg(test)]
mod mitigation_rows;
#[cfg(test)]
mod name_rows;
#[cfg(test)]
mod observer_rows;
#[cfg(test)]
mod option_rows;
#[cfg(test)]
mod plain_texts;
#[cfg(test)]
mod prefixes;
#[cfg(test)]
mod refusal_rows;
#[cfg(test)]
mod refusals;
#[cfg(test)]
mod registry;
#[cfg(test)]
mod repeat_rows;
#[cfg(test)]
mod rest_rows;
#[cfg(test)]
mod restart_rows;
#[cfg(test)]
mod rows;
#[cfg(test)]
mod runs;
#[cfg(test)]
mod script_rows;
#[cfg(test)]
mod scripted;
#[cfg(test)]
mod serving;
#[cfg(test)]
mod session_rows;
#[cfg(test)]
mod shown_rows;
#[cfg(test)]
mod signal_rows;
#[cfg(test)]
mod tables;
#[cfg(test)]
mod texts;
#[cfg(test)]
mod topic_rows;
