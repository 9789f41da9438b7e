//! From the bytes of a host file to what its lines say.

ghost use Rattle.std.specs.Prelude.{◌≡◌, map, IfOk, IfErr, OnOk};
ghost use Rattle.std.specs.List.{list_any};
ghost use Rattle.dots_lists.specs.Lines.{lines_of};
ghost use Rattle.dots_edge.specs.HostLine.{line_value, same_thing, same_kind, crowds, how_many};
ghost use Rattle.dots_edge.specs.HostFile.{Stand, HasFault, IsAdded, IsRefused, Takes};

use crate::host_fault::HostFault;
use crate::host_line::{HostLine, crowds, same_kind, same_thing};
use crate::host_lines::parse_line;
use dots_lists::{is_skipped, split_line};
use std::alloc::Global;

/// How many `signal` lines a file may have, and how many `http` lines.
const MAX_OF_KIND: u64 = 4;

/// What the lines of a host file say, in order, or the fault of the first line that has one. Empty lines and lines
/// that begin with `#` are skipped.
pub fn read_host_file(alloc: Global, file: &[u8]) -> Result<Vec<HostLine<'_>>, HostFault>
    ensures ok { IfOk result (λ said. Stand (lines_of file.now) (map line_value said.items)) }
    ensures refused { IfErr result (IsRefused file.now) }
{
    let mut said = Vec::new(alloc);
    let mut number = 0;
    let mut rest = file;
    while let Some((line, behind)) = split_line(rest) {
        number += 1;
        if let Err(fault) = take_line(&mut said, number, line) {
            return Err(fault);
        }
        rest = behind;
    }
    Ok(said)
}

/// Adds what the line of this number says to what the lines before it said.
fn take_line<'a>(said: &mut Vec<HostLine<'a>>, number: u64, text: &'a [u8]) -> Result<(), HostFault>
    ensures ok { OnOk result (Takes text.now (map line_value said.old.items) (map line_value said.new.items)) }
    ensures refused { IfErr result (HasFault (map line_value said.old.items) number text.now) }
{
    if is_skipped(text) {
        return Ok(());
    }
    match parse_line(text) {
        Some(line) => add_line(said, number, line),
        None => Err(HostFault::Line { n: number }),
    }
}

/// Adds a line of this number to those before it, where it may stand behind them.
fn add_line<'a>(
    said: &mut Vec<HostLine<'a>>,
    number: u64,
    line: HostLine<'a>,
) -> Result<(), HostFault>
    ensures { IsAdded (line_value line.entry) number (map line_value said.old.items) (map line_value said.new.items) result }
{
    if is_said(said.as_slice(), &line) {
        return Err(HostFault::Twice { n: number });
    }
    if count_of_kind(said.as_slice(), &line) >= MAX_OF_KIND {
        return Err(HostFault::Many { n: number });
    }
    if is_crowded(said.as_slice(), &line) {
        return Err(HostFault::Wildcard { n: number });
    }
    match said.push(line) {
        Ok(()) => Ok(()),
        Err(_) => Err(HostFault::NoMemory),
    }
}

/// Whether one of the lines says the same thing.
fn is_said(said: &[HostLine<'_>], line: &HostLine<'_>) -> bool
    ensures { result ≡ list_any (λ other. same_thing other (line_value line.now)) (map line_value said.now) }
{
    for other in said {
        if same_thing(other, line) {
            return true;
        }
    }
    false
}

/// How many of the lines are of its kind.
fn count_of_kind(said: &[HostLine<'_>], line: &HostLine<'_>) -> u64
    ensures { result ≡ how_many (λ other. same_kind other (line_value line.now)) (map line_value said.now) }
{
    let mut count = 0;
    for other in said {
        if same_kind(other, line) {
            count += 1;
        }
    }
    count
}

/// Whether one of the lines is of its kind, and it or that one is for all addresses.
fn is_crowded(said: &[HostLine<'_>], line: &HostLine<'_>) -> bool
    ensures { result ≡ list_any (λ other. crowds other (line_value line.now)) (map line_value said.now) }
{
    for other in said {
        if crowds(other, line) {
            return true;
        }
    }
    false
}
