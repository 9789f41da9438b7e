//! The session configurations of peers.

ghost use Rattle.std.specs.Prelude.{◌≡◌, map, IfOk};
ghost use Rattle.held_resources.specs.Tables.{no_configuration, configuration_with, configured};

use dots_history::{Change, Config, Entry};
use dots_lists::NoMemory;
use dots_settings::PeerRow;
use std::alloc::Global;

/// A peer of the settings, and the session configuration that is held of it, with its sid.
#[derive(Clone, Copy)]
pub struct Configuration {
    pub peer: u32,
    pub config: Option<(u32, Config)>,
}

/// For each peer no configuration.
pub fn no_configurations(alloc: Global, peers: &[PeerRow]) -> Result<Vec<Configuration>, NoMemory>
    ensures { IfOk result (λ configurations. configurations.items ≡ map no_configuration peers.now) }
{
    let mut configurations = Vec::new(alloc);
    for row in peers {
        configurations.push(Configuration {
            peer: row.peer,
            config: None,
        })?;
    }
    Ok(configurations)
}

/// What an entry makes of the sessions.
#[tactic(auto, using(crate::proofs::Configs::as_before), unfolding(dots_history::specs::Entries::is_configuration))]
pub fn configure(configurations: &mut Vec<Configuration>, entry: &Entry)
    ensures { configurations.new.items ≡ map (configuration_with entry.now) configurations.old.items }
{
    match &entry.change {
        Change::SetConfig { .. } | Change::ClearConfig => configure_all(
            configurations.as_mut_slice(),
            entry,
        ),
        _ => {}
    }
}

fn configure_all(configurations: &mut [Configuration], entry: &Entry)
    ensures { configurations.new ≡ map (configuration_with entry.now) configurations.old }
{
    for configuration in configurations.iter_mut() {
        configure_one(configuration, entry);
    }
}

fn configure_one(configuration: &mut Configuration, entry: &Entry)
    ensures { configuration.new ≡ configuration_with entry.now configuration.old }
{
    if entry.peer == configuration.peer {
        configuration.config = configured(&entry.change, configuration.config);
    }
}

/// The configuration of a peer after a change of it.
fn configured(change: &Change, before: Option<(u32, Config)>) -> Option<(u32, Config)>
    ensures { result ≡ configured change.now before }
{
    match change {
        Change::SetConfig { sid, config } => Some((*sid, *config)),
        Change::ClearConfig => None,
        _ => before,
    }
}
