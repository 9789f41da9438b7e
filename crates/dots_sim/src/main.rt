//! The program `dots_sim world N`: it hands [`run_world`] the words of its command line and standard output, and ends with its status. So it
//! plays a generated world, of clients, a gateway and a server over a bad network, and prints what became of it: docs/PROTOCOL.md.
#![tactic(auto)]

use dots_host::StdSink;
use dots_lists::NoMemory;
use std::io::ErrorKind;
use std::process::ExitCode;
use std::{env, io};
use world_play::run_world;

/// The exit status where no memory is found.
const NO_MEMORY: u8 = 4;

/// The words of the command line, without the program's name. Where one of them isn't UTF-8 there are none, and
/// so no command.
fn words_of(rt: &HostRuntime) -> Result<Vec<String>, NoMemory> {
    match env::args(rt) {
        Ok(words) => Ok(words.skip(1).collect(rt.alloc())?),
        Err(error) => match error.kind() {
            ErrorKind::OutOfMemory => Err(NoMemory),
            _ => Ok(Vec::new(rt.alloc())),
        },
    }
}

fn main(rt: HostRuntime) -> ExitCode {
    let Ok(words) = words_of(&rt) else {
        return ExitCode::from(NO_MEMORY);
    };
    let mut report = StdSink::new(io::writer(&rt));
    ExitCode::from(run_world(rt.alloc(), words.as_slice(), &mut report))
}
