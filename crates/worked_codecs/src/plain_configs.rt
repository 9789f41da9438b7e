//! One interval and number for all clients.

ghost use Rattle.std.specs.Prelude.{◌≡◌, ◌==◌, if◌then◌else◌};

use session_core::Configs;

/// What the heartbeats of clients go by; those of a gateway, peer 3, go by 15 seconds and 3.
#[derive(Clone, Copy)]
pub struct PlainConfigs {
    pub interval: u64,
    pub missing: u64,
}

impl Configs for PlainConfigs {
    ghost Says = { λ configs peer beat. beat ≡ (if peer == 3 then (15, 3) else (configs.interval, configs.missing)) };

    fn beat(&self, peer: u32) -> (u64, u64) {
        if peer == 3 {
            return (15, 3);
        }
        (self.interval, self.missing)
    }
}
