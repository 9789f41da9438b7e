//! The configuration of a session, as a peer has it.

ghost use Rattle.std.specs.Prelude.{◌≡◌, option_map};
ghost use Rattle.dots_machine.specs.Replies.{current_of, session_view};
ghost use Rattle.dots_machine.specs.ConfiguredPeers.{default_values, config_in};

use dots_history::{Config, Values};
use reply_bodies::{Current, SessionView};
use session_core::Setting;

/// The configuration that a peer has, or what holds where it has none (RFC 9132, section 4.5.2).
pub fn config_in(configured: Option<(u32, &Config)>) -> Config
    ensures { result ≡ config_in (option_map (λ held. (held.0, held.1.now)) configured.entry) }
{
    match configured {
        Some((_, config)) => *config,
        None => Config {
            mitigating: default_values(),
            idle: default_values(),
        },
    }
}

fn default_values() -> Values
    ensures { result ≡ default_values }
{
    Values {
        interval: Setting::Interval.default_value(),
        missing: Setting::Missing.default_value(),
        retransmit: Setting::Retransmit.default_value(),
        timeout: Setting::Timeout.default_value(),
        factor: Setting::Factor.default_value(),
        rate: Setting::Rate.default_value(),
    }
}

/// What is told of it.
pub(crate) fn session_view(configured: Option<(u32, &Config)>) -> SessionView
    ensures { result ≡ session_view (option_map (λ held. (held.0, held.1.now)) configured.entry) }
{
    let sid = match configured {
        Some((sid, _)) => Some(sid),
        None => None,
    };
    let config = config_in(configured);
    SessionView {
        sid,
        mitigating: current_of(&config.mitigating),
        idle: current_of(&config.idle),
    }
}

fn current_of(values: &Values) -> Current
    ensures { result ≡ current_of values.now }
{
    Current {
        interval: values.interval,
        missing: values.missing,
        retransmit: values.retransmit,
        timeout: values.timeout,
        factor: values.factor,
        rate: values.rate,
    }
}
