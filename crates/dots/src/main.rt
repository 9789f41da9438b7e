//! The program `dots`: it hands [`run_program`], or with the words `serve ..` [`run_sockets`], with `gateway ..` [`gateway_sockets`], with
//! `ask ..` [`ask_sockets`], with `protect ..` [`protect_sockets`], with `check-ask ..` [`check_client`], with `migrate ..` [`migrate`], and with
//! those that ask about a host file [`check_host`], the words of its command line, the real files and streams, and the runtime, and ends with its
//! status.
#![tactic(auto)]

use dots_lists::NoMemory;
use dots_run::{
    ask_sockets, check_client, check_host, gateway_sockets, host_task, is_ask, is_check_ask,
    is_gateway, is_migrate, is_protect, is_serve, migrate, protect_sockets, run_program,
    run_sockets,
};
use std::io::ErrorKind;
use std::process::ExitCode;
use std::{env, fs, io};

/// The words of the command line, without the program's name. Where one of them isn't UTF-8 there are none, and
/// so no command.
fn words_of(rt: &HostRuntime) -> Result<Vec<String>, NoMemory> {
    match env::args(rt) {
        Ok(words) => Ok(words.skip(1).collect(rt.alloc())?),
        Err(error) => match error.kind() {
            ErrorKind::OutOfMemory => Err(NoMemory),
            _ => Ok(Vec::new(rt.alloc())),
        },
    }
}

fn main(rt: HostRuntime) -> ExitCode {
    let words = words_of(&rt);
    let opening = |name: &str| fs::open(&rt, name).ok();
    let report = io::writer(&rt);
    if let Ok(list) = &words {
        if host_task(list.as_slice()).is_some() {
            let checked = check_host(rt.alloc(), list.as_slice(), opening, &rt, report);
            return ExitCode::from(checked.into_status());
        }
        if is_migrate(list.as_slice()) {
            return ExitCode::from(migrate(rt.alloc(), list.as_slice(), opening, &rt, report));
        }
        if is_serve(list.as_slice()) {
            let served = run_sockets(rt.alloc(), list.as_slice(), opening, &rt, &rt, report);
            return ExitCode::from(served.into_status());
        }
        if is_gateway(list.as_slice()) {
            let passed = gateway_sockets(rt.alloc(), list.as_slice(), opening, &rt, report);
            return ExitCode::from(passed.into_status());
        }
        if is_ask(list.as_slice()) {
            let asked = ask_sockets(rt.alloc(), list.as_slice(), opening, &rt, report);
            return ExitCode::from(asked.into_status());
        }
        if is_protect(list.as_slice()) {
            let asked = protect_sockets(rt.alloc(), list.as_slice(), opening, &rt, report);
            return ExitCode::from(asked.into_status());
        }
        if is_check_ask(list.as_slice()) {
            let checked = check_client(rt.alloc(), list.as_slice(), opening, report);
            return ExitCode::from(checked.into_status());
        }
    }
    let sends = io::writer(&rt);
    let finished = run_program(rt.alloc(), &words, opening, rt.reader(), sends, report);
    ExitCode::from(finished.into_status())
}
