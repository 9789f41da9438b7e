//! Messages that came before.

ghost use Rattle.std.specs.Prelude.{◌≡◌, option_map};
ghost use Rattle.dots_settings.specs.Settings.{SettingsValue};
ghost use Rattle.dots_machine.specs.MessageRepeats.{sent_for};
ghost use Rattle.dots_machine.specs.Machine.{State, facts_in};
ghost use Rattle.dots_server.specs.ServerValues.{Represents};

use crate::server::Server;
use dots_keys::{Exchange, ShortMessage};

impl Server {
    /// The reply to a repeat of a message that was accepted: one of this peer for this domain with this Message ID (RFC 7252, section
    /// 4.5).
    pub(crate) fn remembered(
        &self,
        peer: u32,
        domain: u16,
        exchange: &Exchange,
    ) -> Option<ShortMessage>
        ensures { (settings : SettingsValue) (state : State) → Represents self.now settings state
            → result ≡ option_map (λ entry. entry.reply) ((facts_in settings state).repeated (sent_for peer exchange.now domain)) }
    {
        let reply = self.ledger.registry().repeat(peer, domain, exchange.id)?;
        Some(ShortMessage::copy_of(reply))
    }
}
