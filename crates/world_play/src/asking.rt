//! A client asks.

ghost use Rattle.std.specs.Prelude.{◌≡◌, ◌%◌, ◌^◌, IsTrue, IfOk, MatchBool, find, option_map, true, false};
ghost use Rattle.std.specs.List.{list_any};
ghost use Rattle.dots_client.specs.Client.{ClientValue, IsKnown, has_mid, asked_at};
ghost use Rattle.dots_client.specs.declared.granted.Granted.{Granted};
ghost use Rattle.dots_world.specs.Worlds.{MayAsk, CanSay, aim_for};

use crate::askable::can_say;
use acl_lists::Asked;
use dots_client::{Ask, AskFault, ClientCore, Granted};
use dots_lists::NoMemory;
use std::alloc::Global;

/// The client asks at the time `now`, in seconds, where it may. The Message ID of its request is the random word.
pub fn ask(alloc: Global, client: &mut ClientCore, what: &Ask, now: u64) -> Result<bool, NoMemory>
    ensures { IfOk result (λ made. MatchBool made
        (MayAsk client.old what.now × (client.new ≡ asked_at client.old what.now now (client.old.number % 2 ^ 16)))
        ((MayAsk client.old what.now → ⊥) × (client.new ≡ client.old))) }
{
    if !is_known(client.ledger(), what) {
        return Ok(false);
    }
    if !can_say_it(alloc, client.ledger(), what)? {
        return Ok(false);
    }
    let word = u32::from(client.next_id());
    match client.ask(what, now, word) {
        Ok(_) => Ok(true),
        Err(AskFault::NoMemory) => Err(NoMemory),
        Err(AskFault::Busy { .. }) => Ok(false),
        Err(AskFault::MidSpent) => Ok(false),
        Err(AskFault::Full { .. }) => Ok(false),
    }
}

/// Whether what is refreshed or withdrawn stands in the ledger.
fn is_known(ledger: &[Granted], what: &Ask) -> bool
    ensures { MatchBool result (IsKnown what.now ledger.now) (IsKnown what.now ledger.now → ⊥) }
{
    match what {
        Ask::New { .. } => true,
        Ask::Refresh { mid, .. } | Ask::Withdraw { mid } => has_mid(ledger, *mid),
    }
}

fn has_mid(ledger: &[Granted], mid: u32) -> bool
    ensures { result ≡ list_any (has_mid mid) ledger.now }
{
    ledger.iter().any(|row| row.mid == mid)
}

/// The scope of the mitigation of this mid.
fn scope_in(ledger: &[Granted], mid: u32) -> Option<&Asked>
    ensures { option_map (λ scope. scope.now) result ≡ option_map (λ (row : Granted). row.asked) (find (has_mid mid) ledger.now) }
{
    match ledger.iter().find(|row| row.mid == mid) {
        Some(row) => Some(&row.asked),
        None => None,
    }
}

/// Whether a request can say what is asked. A refresh asks for the scope that the ledger has.
fn can_say_it(alloc: Global, ledger: &[Granted], what: &Ask) -> Result<bool, NoMemory>
    requires { IsKnown what.now ledger.now }
    ensures { (client : ClientValue) → client.ledger ≡ ledger.now
        → IfOk result (λ can. MatchBool can (CanSay (aim_for client what.now)) (CanSay (aim_for client what.now) → ⊥)) }
{
    match what {
        Ask::New { asked, lifetime } => can_say(alloc, asked, *lifetime),
        Ask::Refresh { mid, lifetime } => match scope_in(ledger, *mid) {
            Some(asked) => can_say(alloc, asked, *lifetime),
            None => unreachable!(),
        },
        Ask::Withdraw { .. } => Ok(true),
    }
}
