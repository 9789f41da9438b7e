//! Worked bytes and runs of agents: what a gateway of the signal channel passes on and answers, what it keeps on its disk, and whole runs of its
//! command; and worlds of clients, a gateway and a server, in which a mitigation is granted once, whatever comes twice and whoever restarts.
//!
//! Each row is put to public calls. What is expected comes from the RFCs and the protocol's documents, and not from the program.
#![tactic(auto)]

#[cfg(test)]
mod crash_rows;
#[cfg(test)]
mod gateway_rows;
#[cfg(test)]
mod generated;
#[cfg(test)]
mod granting;
#[cfg(test)]
mod row;
#[cfg(test)]
mod run_rows;
#[cfg(test)]
mod store_rows;
