//! What the heartbeats of peers go by.

ghost use Rattle.std.specs.Prelude.{◌≡◌, true, List, option_map};
ghost use Rattle.std.specs.List.{list_all};
ghost use Rattle.dots_history.specs.declared.entry.Entry.{Entry};
ghost use Rattle.dots_history.specs.Calm.{is_own};
ghost use Rattle.held_resources.specs.Tables.{config_now};
ghost use Rattle.dots_registry.specs.RegistryValues.{Represents};
ghost use Rattle.dots_machine.specs.ConfiguredPeers.{configured_by, values_in_force};

use crate::configurations::config_in;
use dots_history::{Config, Values};
use dots_registry::Registry;
use dots_settings::{Role, Settings};
use session_core::Configs;

/// The configurations of all sessions, and which peers are mitigating.
#[derive(Drop)]
pub(crate) struct PeerBeats<'a> {
    pub settings: &'a Settings,
    pub registry: &'a Registry,
}

impl Configs for PeerBeats<'_> {
    ghost use Rattle.dots_server.specs.HearingPeers.{SaysBeat};

    ghost Says = { λ beats. λ peer. λ beat. SaysBeat beats.settings.now beats.registry.now peer beat };

    fn beat(&self, peer: u32) -> (u64, u64) {
        let config = config_in(configured_by(self.settings, self.registry, peer));
        let values = values_in_force(self.registry.mitigating(peer), &config);
        (values.interval, values.missing)
    }
}

/// What a peer has configured for its session, with its sid; a stranger nothing.
fn configured_by<'a>(
    settings: &Settings,
    registry: &'a Registry,
    peer: u32,
) -> Option<(u32, &'a Config)>
    ensures { (entries : List Entry) → Represents registry.now entries → list_all (is_own settings.now) entries ≡ true
        → option_map config_now result ≡ configured_by settings.now entries peer }
{
    match settings.domain_of(peer) {
        Role::Stranger => None,
        Role::Client(_) | Role::Gateway => registry.config(peer),
    }
}

/// The values that hold while a mitigation of the peer filters, or at other times (RFC 9132, section 4.5).
fn values_in_force(mitigating: bool, config: &Config) -> Values
    ensures { result ≡ values_in_force mitigating config.now }
{
    if mitigating {
        return config.mitigating;
    }
    config.idle
}
