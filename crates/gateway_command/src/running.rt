//! The whole run of a gateway.

ghost use Rattle.std.specs.Prelude.{◌≡◌, ℕ, ◌+◌, ◌⊎◌, List, Option, true, false};
ghost use Rattle.dots_host.specs.Causes.{Rose};
ghost use Rattle.dots_host.specs.Writing.{Writes};
ghost use Rattle.gateway_agent.specs.declared.stopping.GatewayEnding.TheVariants as gateway;
ghost use Rattle.dots_machine.specs.Endings.{fault_line};
ghost use Rattle.dots_machine.specs.Outside.{outside};
ghost use Rattle.gateway_command.specs.declared.ending.CommandEnding.TheVariants as ending;
ghost use Rattle.gateway_command.specs.Running.{has_hosted, Behaves, Runs, Reports, ReportsEnd};

use crate::ending::CommandEnding;
use crate::report::write_waiting;
use dots_host::{Failed, Host, Sink, Source, write_all};
use dots_machine::write_refusal;
use dots_settings::{Settings, SettingsFault, read_settings};
use gateway_agent::{GatewayEnding, GatewayHalt, run_gateway};
use std::alloc::Global;

/// Reads the settings, runs the gateway over the events of the host until the end, and writes how many exchanges wait then. Settings that
/// name no upstream are at fault behind their last line.
pub fn gateway_over<H: Host, S: Source, K: Sink>(
    alloc: Global,
    settings: &mut S,
    host: &mut H,
    report: &mut K,
) -> CommandEnding
    // What the run has done, by its ending. Where it didn't come to its host, that was not called.
    ensures machine { Behaves result
        (outside (S.left settings.old) (S.faults settings.old) (H.acts host.old) (H.Wire.faults host.old) (H.media host.old) (H.extent host.old) (H.Disk.faults host.old) (K.holds report.old) (K.faults report.old))
        (outside (S.left settings.new) (S.faults settings.new) (H.acts host.new) (H.Wire.faults host.new) (H.media host.new) (H.extent host.new) (H.Disk.faults host.new) (K.holds report.new) (K.faults report.new)) }
    ensures uncalled { has_hosted result ≡ false → host.new ≡ host.old }
    // What the host says of its own calls.
    ensures leads { H.leads host.old host.new }
    // Where no read of the settings failed.
    ensures heard { (result ≡ ending.NoMemory) ⊎ (result ≡ ending.SettingsFailed) ⊎ (S.faults settings.new ≡ S.faults settings.old) }
{
    match read_settings(alloc, settings) {
        Ok(settings) => match settings.upstream() {
            Some(upstream) => return pass_requests(alloc, &settings, upstream, host, report),
            None => return refuse(behind(&settings), report),
        },
        Err(SettingsFault::ReadFault) => return CommandEnding::SettingsFailed,
        Err(SettingsFault::NoMemory) => return CommandEnding::NoMemory,
        Err(fault) => return refuse(fault, report),
    }
}

/// The fault of settings that name no upstream.
fn behind(settings: &Settings) -> SettingsFault
    ensures { result ≡ SettingsFault.Line (settings.now.lines + 1) }
{
    SettingsFault::Line {
        n: settings.lines() + 1,
    }
}

/// Writes the line of a fault. Where the sink fails, a beginning of it is written.
fn refuse<K: Sink>(fault: SettingsFault, report: &mut K) -> CommandEnding
    ensures ending { result ≡ ending.Refused fault }
    ensures writes { Writes (K.holds report.old) (K.holds report.new) (fault_line fault) (Rose (K.faults report.old) (K.faults report.new)) }
{
    let line = fault.line();
    let _ = write_all(report, line.as_bytes());
    CommandEnding::Refused(fault)
}

/// Runs the gateway of these settings, and writes how many exchanges wait at the end, or why its disk isn't recovered.
fn pass_requests<H: Host, K: Sink>(
    alloc: Global,
    settings: &Settings,
    upstream: u32,
    host: &mut H,
    report: &mut K,
) -> CommandEnding
    ensures runs { (left left_now : Option (List ℕ)) (faults faults_now : ℕ) → Runs result settings.now upstream
        (outside left faults (H.acts host.old) (H.Wire.faults host.old) (H.media host.old) (H.extent host.old) (H.Disk.faults host.old) (K.holds report.old) (K.faults report.old))
        (outside left_now faults_now (H.acts host.new) (H.Wire.faults host.new) (H.media host.new) (H.extent host.new) (H.Disk.faults host.new) (K.holds report.new) (K.faults report.new)) }
    ensures hosted { has_hosted result ≡ true }
    ensures leads { H.leads host.old host.new }
{
    let how = run_gateway(alloc, settings, upstream, host);
    report_end(how, report)
}

/// Writes how many exchanges wait at the end, or why the disk isn't recovered.
fn report_end<K: Sink>(how: GatewayEnding, report: &mut K) -> CommandEnding
    ensures tells { ReportsEnd how result (K.holds report.old) (K.holds report.new) (Rose (K.faults report.old) (K.faults report.new)) }
    ensures hosted { has_hosted result ≡ true }
{
    match how {
        GatewayEnding::Ended { waiting } => match write_waiting(waiting, report) {
            Ok(()) => {}
            Err(Failed) => return CommandEnding::ReportFailed { waiting },
        },
        GatewayEnding::Unopened(fault) => write_refusal(&fault, report),
        GatewayEnding::Halted(stopped) => report_halt(stopped, report),
    }
    CommandEnding::Ran(how)
}

/// Writes why the disk wasn't recovered at a restart, where that stopped the events.
fn report_halt<K: Sink>(how: GatewayHalt, report: &mut K)
    ensures { Reports (gateway.Halted how) (K.holds report.old) (K.holds report.new) (Rose (K.faults report.old) (K.faults report.new)) }
{
    match how {
        GatewayHalt::Unrecovered(fault) => write_refusal(&fault, report),
        GatewayHalt::NextFailed | GatewayHalt::DiskFailed | GatewayHalt::TooMany => {}
    }
}
