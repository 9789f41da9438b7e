//! The settings of a client that asks once.

ghost use Rattle.std.specs.Prelude.{◌≡◌, length, IfOk, IfErr, Ok};
ghost use Rattle.ask_agent.specs.declared.settings_protecting.ProtectFault.TheVariants as fault;
ghost use Rattle.ask_agent.specs.File.{IsMidFit};
ghost use Rattle.ask_agent.specs.SettingsProtecting.{protect_settings, IsWordFault, with_ask};

use crate::fields::{lifetime_in, prefixes_in, word_in};
use crate::line::new_ask;
use crate::planned::Planned;
use crate::settings::AskSettings;
use dots_client::Ask;
use dots_lists::{List, Name, NoMemory};
use std::alloc::Global;

/// A word of a command that asks once.
#[derive(Clone, Copy, Debug)]
pub enum ProtectWord {
    /// The number of the server's peer.
    Server,
    /// The name of the client.
    Name,
    /// The lifetime in seconds, or -1.
    Lifetime,
    /// The prefixes, with commas between them.
    Prefixes,
}

/// Why there are no settings.
#[derive(Clone, Copy, Debug)]
pub enum ProtectFault {
    /// The first word that isn't of its form.
    Word(ProtectWord),
    /// Memory ran out.
    NoMemory,
}

impl From<NoMemory> for ProtectFault {
    ghost from_gives = { λ _ made. made ≡ fault.NoMemory };

    fn from(_: NoMemory) -> Self {
        ProtectFault::NoMemory
    }
}

/// The settings of a client of this name that asks the server with this peer number once, at the first event, for these prefixes and
/// this lifetime. The words are written as in the lines of settings, and the first that isn't is answered.
pub fn protect_settings(
    alloc: Global,
    server: &[u8],
    name: &[u8],
    lifetime: &[u8],
    prefixes: &[u8],
) -> Result<AskSettings, ProtectFault>
    ensures ok { IfOk result (λ settings. protect_settings server.now name.now lifetime.now prefixes.now ≡ Ok settings) }
    ensures refused { IfErr result (IsWordFault (protect_settings server.now name.now lifetime.now prefixes.now)) }
    ensures mid { IfOk result IsMidFit }
    ensures one { IfOk result (λ settings. length settings.asks ≡ 1) }
{
    let Some(server) = word_in(server) else {
        return Err(ProtectFault::Word(ProtectWord::Server));
    };
    let Some(cuid) = Name::new(alloc, name)? else {
        return Err(ProtectFault::Word(ProtectWord::Name));
    };
    let Some(lifetime) = lifetime_in(lifetime) else {
        return Err(ProtectFault::Word(ProtectWord::Lifetime));
    };
    let Some(prefixes) = prefixes_in(alloc, prefixes)? else {
        return Err(ProtectFault::Word(ProtectWord::Prefixes));
    };
    once(alloc, server, cuid, new_ask(alloc, prefixes, lifetime))
}

/// The settings with this ask alone, whose time is reached at the first event.
fn once(alloc: Global, server: u32, cuid: Name, ask: Ask) -> Result<AskSettings, ProtectFault>
    ensures ok { IfOk result (λ settings. settings ≡ with_ask server cuid ask) }
    ensures lacks { IfErr result (λ why. why ≡ fault.NoMemory) }
{
    let mut asks = List::new(alloc);
    asks.push(Planned { at: 0, ask })?;
    Ok(AskSettings {
        server,
        cuid,
        mid: None,
        number: None,
        asks,
    })
}
