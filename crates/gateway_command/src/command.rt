//! The command of a gateway over any host.

ghost use Rattle.std.specs.Prelude.{◌≡◌, ◌≤◌, map, string_bytes, true, codes};
ghost use Rattle.dots_host.specs.Causes.{Rose};
ghost use Rattle.dots_host.specs.Writing.{Writes};
ghost use Rattle.dots_machine.specs.Outside.{outside};
ghost use Rattle.gateway_command.specs.Commands.{is_gateway};
ghost use Rattle.gateway_command.specs.Outcomes.{RunsGateway, GatewayOutcome};

use crate::running::gateway_over;
use crate::words::is_gateway;
use dots_host::{Host, Sink, Source, write_all};
use std::alloc::Global;

/// The exit status of words that ask for no gateway.
const WRONG_WORDS: u8 = 2;

/// Does what the words `gateway SETTINGS HOSTFILE` ask for, and answers the exit status: the settings are read from the source, the store of the
/// gateway is opened on the host's disk, the events are taken from the host, and at End `waiting N` is written to the report, where N
/// exchanges wait. Other words are refused, and neither source nor host is called.
pub fn run_gateway_command<H: Host, S: Source, K: Sink>(
    alloc: Global,
    words: &[String],
    settings: &mut S,
    host: &mut H,
    report: &mut K,
) -> u8
    // What the run has done. Where it didn't come to its host, that was not called.
    ensures machine { is_gateway (map string_bytes words.now) ≡ true → RunsGateway result
        (outside (S.left settings.old) (S.faults settings.old) (H.acts host.old) (H.Wire.faults host.old) (H.media host.old) (H.extent host.old) (H.Disk.faults host.old) (K.holds report.old) (K.faults report.old))
        (outside (S.left settings.new) (S.faults settings.new) (H.acts host.new) (H.Wire.faults host.new) (H.media host.new) (H.extent host.new) (H.Disk.faults host.new) (K.holds report.new) (K.faults report.new))
        (host.new ≡ host.old) }
    // What the status says of the words, of the settings, of the disk and of what failed.
    ensures outcome { GatewayOutcome (map string_bytes words.now) result
        (outside (S.left settings.old) (S.faults settings.old) (H.acts host.old) (H.Wire.faults host.old) (H.media host.old) (H.extent host.old) (H.Disk.faults host.old) (K.holds report.old) (K.faults report.old))
        (outside (S.left settings.new) (S.faults settings.new) (H.acts host.new) (H.Wire.faults host.new) (H.media host.new) (H.extent host.new) (H.Disk.faults host.new) (K.holds report.new) (K.faults report.new)) }
    // What is written of other words, and what isn't called.
    ensures refusal { result ≡ 2 → Writes (K.holds report.old) (K.holds report.new) (codes "words\n") (Rose (K.faults report.old) (K.faults report.new)) }
    ensures unread { result ≡ 2 → settings.new ≡ settings.old }
    ensures uncalled { 1 ≤ result → result ≤ 3 → host.new ≡ host.old }
    // What the host says of its own calls.
    ensures leads { H.leads host.old host.new }
{
    if !is_gateway(words) {
        let _ = write_all(report, b"words\n");
        return WRONG_WORDS;
    }
    gateway_over(alloc, settings, host, report).status()
}
