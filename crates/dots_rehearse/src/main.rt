//! The program `dots_rehearse WORDS..`: it does what `dots` does with the words, over a script that it reads from standard input in place of
//! real sockets. With `ask SETTINGS HOSTFILE` it hands [`run_client`] the words and the script's host, with `protect HOSTFILE ..`
//! [`run_protect`], with `gateway SETTINGS HOSTFILE` [`run_gateway_command`], and the host file isn't opened; with all others it hands [`run_program`] them. So what a client would send at which time, and what it makes of answers, is replayed by
//! people and by tests: docs/PROTOCOL.md has the lines of a script. The numbers of a client that its settings don't say begin at 1, so that
//! the same script always gives the same. It ends with the status of the run.
#![tactic(auto)]

ghost use Rattle.std.specs.Prelude.{◌≡◌, map, string_bytes, true};
ghost use Rattle.ask_agent.specs.Commands.{is_ask, is_protect};
ghost use Rattle.gateway_command.specs.Commands.{is_gateway};

use ask_agent::{Firsts, ask_names, run_client, run_protect};
use dots_host::{StdSink, StdSource};
use dots_lists::NoMemory;
use dots_run::{ScriptHost, is_ask, is_gateway, is_protect, run_program};
use gateway_command::{gateway_names, run_gateway_command};
use std::io::ErrorKind;
use std::process::ExitCode;
use std::{env, fs, io};

/// The exit status where no memory is found.
const NO_MEMORY: u8 = 4;

/// The words of the command line, without the program's name. Where one of them isn't UTF-8 there are none, and
/// so no command.
fn words_of(rt: &HostRuntime) -> Result<Vec<String>, NoMemory> {
    match env::args(rt) {
        Ok(words) => Ok(words.skip(1).collect(rt.alloc())?),
        Err(error) => match error.kind() {
            ErrorKind::OutOfMemory => Err(NoMemory),
            _ => Ok(Vec::new(rt.alloc())),
        },
    }
}

/// Runs the client of the words `ask SETTINGS HOSTFILE`, and answers the exit status.
fn rehearse(rt: &HostRuntime, words: &[String]) -> u8
    requires { is_ask (map string_bytes words.now) ≡ true }
{
    let (name, _) = ask_names(words);
    let mut settings = StdSource::new(fs::open(rt, name).ok());
    let script = StdSource::new(Some(rt.reader()));
    let sends = StdSink::new(io::writer(rt));
    let Ok(mut host) = ScriptHost::new(rt.alloc(), script, sends) else {
        return NO_MEMORY;
    };
    let mut report = StdSink::new(io::writer(rt));
    run_client(
        rt.alloc(),
        words,
        &mut settings,
        Firsts::ones(),
        &mut host,
        &mut report,
    )
}

/// Runs the gateway of the words `gateway SETTINGS HOSTFILE`, and answers the exit status.
fn rehearse_gateway(rt: &HostRuntime, words: &[String]) -> u8
    requires { is_gateway (map string_bytes words.now) ≡ true }
{
    let (name, _) = gateway_names(words);
    let mut settings = StdSource::new(fs::open(rt, name).ok());
    let script = StdSource::new(Some(rt.reader()));
    let sends = StdSink::new(io::writer(rt));
    let Ok(mut host) = ScriptHost::new(rt.alloc(), script, sends) else {
        return NO_MEMORY;
    };
    let mut report = StdSink::new(io::writer(rt));
    run_gateway_command(rt.alloc(), words, &mut settings, &mut host, &mut report)
}

/// Runs the client of the words `protect HOSTFILE SERVER NAME LIFETIME PREFIXES`, and answers the exit status.
fn rehearse_once(rt: &HostRuntime, words: &[String]) -> u8
    requires { is_protect (map string_bytes words.now) ≡ true }
{
    let script = StdSource::new(Some(rt.reader()));
    let sends = StdSink::new(io::writer(rt));
    let Ok(mut host) = ScriptHost::new(rt.alloc(), script, sends) else {
        return NO_MEMORY;
    };
    let mut report = StdSink::new(io::writer(rt));
    run_protect(rt.alloc(), words, Firsts::ones(), &mut host, &mut report).status()
}

fn main(rt: HostRuntime) -> ExitCode {
    let words = words_of(&rt);
    if let Ok(list) = &words {
        if is_ask(list.as_slice()) {
            return ExitCode::from(rehearse(&rt, list.as_slice()));
        }
        if is_protect(list.as_slice()) {
            return ExitCode::from(rehearse_once(&rt, list.as_slice()));
        }
        if is_gateway(list.as_slice()) {
            return ExitCode::from(rehearse_gateway(&rt, list.as_slice()));
        }
    }
    let opening = |name: &str| fs::open(&rt, name).ok();
    let sends = io::writer(&rt);
    let report = io::writer(&rt);
    let finished = run_program(rt.alloc(), &words, opening, rt.reader(), sends, report);
    ExitCode::from(finished.into_status())
}
