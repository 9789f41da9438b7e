//! Worked calls of hosts: the memory forms, the adapters of std's readers and writers, the host of a script, and the host of real
//! sockets and a real file, over loopback and in the folder that it is run in.
//!
//! What a socket or a file does no contract says, so each call is made here. The expected values come from the documents of scripts, of
//! host files and of reports, and not from the program.
//!
//! Runs of a host are text: [`acts`] says how a line is read.

mod acts;
mod around;
mod edges;
mod faults;
mod late_reader;
mod scripts;
mod set_clock;
mod streams;
mod whole_files;
mod words;
