//! The program `dots_bench`: `codec CASEFILE REPS` decodes the bytes of each case of a file so often; `filter ROWS PACKETS
//! REPS` asks so often for the fate of each packet of a file by the rows of another; and `cycle KEYS REPS` gives each of so many keys a
//! deadline, and then takes the key with the least time out and sets it anew, so often. How long that takes is for the caller to
//! measure. `fates SEED COUNT` draws so many tables of filters, each with packets, and prints of each its script for `nft` and the fate of
//! each packet by the table; `script ROWS` prints the script of a table of so many rows.
//!
//! A case is a line `KIND.NAME HEX`, with the kind `coap`, `cbor`, `json`, `http`, `whole` or `single`. `json` is a body of the data
//! channel with an alias or an access list. The last three are bytes of a stream: `http` cuts a stream that holds them, `whole` takes them in one piece and cuts then, and `single` takes them one by
//! one and cuts behind each. A row is a line `PREFIX MID`, a packet a line of an IPv4 address. For each case the program prints its name and what its decodes add up to. A cycle prints
//! the two numbers, how many of the dues were answered, and what the keys that were answered come to, in their order: no two deadlines
//! have the same time, so that order is the only one. It ends with status 0 only where there is a case and every decode of every case went well.
//!
//! A drawn table is a line `table N`, the script, a line `packet FAMILY SOURCE DESTINATION PROTOCOL SOURCEPORT DESTINATIONPORT FATE NUMBER`
//! for each packet, and a line `end`. Addresses are decimal numbers. Ports are 0 where the protocol has none. The fates are `pass`,
//! `accepted`, `dropped` and `scrubbed`. The number is that of the list among all lists of the table, the mid, or 0.
#![tactic(auto)]

mod bodies;
mod codec;
mod cycle;
mod drawing;
mod draws;
mod filter;
mod fronts;
mod lists;
mod packets;
mod rows;
mod tables;

use anyhow::{Context, Result, bail, ensure};
use codec::Codec;
use drawing::{draw_tables, print_script};
use std::alloc::Global;
use std::{env, fs};

/// The command line.
const USAGE: &str =
    "usage: dots_bench codec CASEFILE REPS | filter ROWS PACKETS REPS | cycle KEYS REPS | fates SEED COUNT | script ROWS";

/// The decimal number of repetitions, at least one.
fn parse_repetitions(word: &str) -> Result<u64> {
    let repetitions = word.parse::<u64>().context(USAGE)?;
    ensure!(repetitions != 0, "{USAGE}");
    Ok(repetitions)
}

fn decode_digits(alloc: Global, digits: &str) -> Result<Vec<u8>> {
    hex::decode(alloc, digits).context("reading the bytes of a case")
}

/// Decodes the bytes that these digits write so often, and adds up what each decode read.
fn decode_case(alloc: Global, codec: Codec, digits: &str, repetitions: u64) -> Result<u64> {
    let first = decode_digits(alloc, digits)?;
    let second = decode_digits(alloc, digits)?;
    codec.decode_times(alloc, [first.as_slice(), second.as_slice()], repetitions)
}

/// Decodes the case of a line so often, and prints its name and the sum.
fn run_case(rt: &HostRuntime, line: &str, repetitions: u64) -> Result<()> {
    let Some((name, digits)) = line.split_once(' ') else {
        bail!("a case is a line KIND.NAME HEX");
    };
    let Some(codec) = Codec::of_case(name) else {
        bail!("no decoder for the case {name}");
    };
    let sum = decode_case(rt.alloc(), codec, digits, repetitions)?;
    println!(rt; "{name} {sum}")?;
    Ok(())
}

/// Runs the cases of these lines, of which there is at least one.
fn run_lines(rt: &HostRuntime, text: &str, repetitions: u64) -> Result<()> {
    ensure!(!text.is_empty(), "the case file is empty");
    for line in text.lines() {
        run_case(rt, line, repetitions)?;
    }
    Ok(())
}

/// Runs the cases of a file.
fn run_cases(rt: &HostRuntime, words: &[String]) -> Result<()> {
    let [file, repetitions] = words else {
        bail!("{USAGE}");
    };
    let repetitions = parse_repetitions(repetitions.as_str())?;
    let text = fs::read_to_string(rt, file.as_str()).context("reading the case file")?;
    run_lines(rt, text.as_str(), repetitions)
}

/// Asks so often for the fate of a packet to each address of a file by the rows of another, and answers the sum of the
/// winning mids of one round.
fn sum_of_files(rt: &HostRuntime, rows: &str, packets: &str, repetitions: u64) -> Result<u64> {
    let rows = fs::read_to_string(rt, rows).context("reading the rows")?;
    let packets = fs::read_to_string(rt, packets).context("reading the packets")?;
    filter::repeat_filter(rt.alloc(), rows.as_str(), packets.as_str(), repetitions)
}

/// The same, and prints the sum.
fn run_filter(rt: &HostRuntime, words: &[String]) -> Result<()> {
    let [rows, packets, repetitions] = words else {
        bail!("{USAGE}");
    };
    let repetitions = parse_repetitions(repetitions.as_str())?;
    let sum = sum_of_files(rt, rows.as_str(), packets.as_str(), repetitions)?;
    println!(rt; "sum {sum}")?;
    Ok(())
}

/// The decimal number of keys, at least one.
fn parse_keys(word: &str) -> Result<u32> {
    let keys = word.parse::<u32>().context(USAGE)?;
    ensure!(keys != 0, "{USAGE}");
    Ok(keys)
}

/// Sets deadlines and takes them out again, so often, and prints what was answered.
fn run_cycles(rt: &HostRuntime, words: &[String]) -> Result<()> {
    let [keys, repetitions] = words else {
        bail!("{USAGE}");
    };
    let keys = parse_keys(keys.as_str())?;
    let repetitions = repetitions.as_str().parse::<u32>().context(USAGE)?;
    let order = cycle::run(rt.alloc(), keys, repetitions)?;
    println!(rt; "{keys} {repetitions} {} {}", order.answered, order.sum)?;
    Ok(())
}

/// Does what the words of the command line say.
fn run(rt: &HostRuntime, words: &[String]) -> Result<()> {
    let [command, words @ ..] = words else {
        bail!("{USAGE}");
    };
    match command.as_str() {
        "codec" => run_cases(rt, words),
        "filter" => run_filter(rt, words),
        "cycle" => run_cycles(rt, words),
        "fates" => draw_tables(rt, words),
        "script" => print_script(rt, words),
        _ => bail!("{USAGE}"),
    }
}

fn main(rt: HostRuntime) -> Result<()> {
    let words = env::args(&rt)?.skip(1).collect::<Vec<String>>(rt.alloc())?;
    run(&rt, words.as_slice())
}
