//! Making one ask.

ghost use Rattle.std.specs.Prelude.{◌≡◌};
ghost use Rattle.std.specs.List.{list_any};
ghost use Rattle.dots_client.specs.Client.{has_mid};
ghost use Rattle.ask_agent.specs.Asking.{unknown_mid, Makes};

use crate::unsent::Why;
use dots_client::{Ask, ClientCore, Granted};

/// Makes an ask at the time `now`, in seconds, and says why where it isn't sent. The client is then as it was.
pub fn make(core: &mut ClientCore, ask: &Ask, now: u64) -> Option<Why>
    ensures { Makes core.old ask.now now result core.new }
{
    if let Some(mid) = unknown_mid(core.ledger(), ask) {
        return Some(Why::Unknown { mid });
    }
    let word = u32::from(core.next_id());
    match core.ask(ask, now, word) {
        Ok(_) => return None,
        Err(fault) => return Some(Why::Refused(fault)),
    }
}

/// The mid that is refreshed or withdrawn, where no row of the ledger has it.
fn unknown_mid(ledger: &[Granted], ask: &Ask) -> Option<u32>
    ensures { result ≡ unknown_mid ledger.now ask.now }
{
    match ask {
        Ask::New { .. } => None,
        Ask::Refresh { mid, .. } | Ask::Withdraw { mid } => {
            if is_granted(ledger, *mid) {
                return None;
            }
            Some(*mid)
        }
    }
}

/// Whether a row has this mid.
fn is_granted(ledger: &[Granted], mid: u32) -> bool
    ensures { result ≡ list_any (has_mid mid) ledger.now }
{
    ledger.iter().any(|row| row.mid == mid)
}
