//! What a request can say.

ghost use Rattle.std.specs.Prelude.{◌≡◌, ◌≤◌, ◌<◌, ◌^◌, ℕ, ℤ, List, IsTrue, IfOk, MatchBool, true, false, length, pos};
ghost use Rattle.std.specs.List.{AllByRecursion};
ghost use Rattle.dots_lists.specs.Name.{is_name};
ghost use Rattle.ip_scope.specs.Prefix.{IsPrefix};
ghost use Rattle.dots_client.specs.Asked.{IsRange, CanAsk};
ghost use Rattle.dots_client.specs.Grants.{IsGranted};
ghost use Rattle.dots_keys.specs.Askable.{AreFew};
ghost use Rattle.dots_world.specs.Worlds.{mitigates, CanSay};

use acl_lists::{Asked, MAX_ITEMS, MAX_NAMES};
use dots_lists::{Name, NoMemory};
use ip_scope::{PortRange, Prefix};
use reply_bodies::request_body;
use std::alloc::Global;

/// Whether a request can say that it asks for this, for a lifetime in seconds.
pub fn can_say(alloc: Global, asked: &Asked, lifetime: i32) -> Result<bool, NoMemory>
    ensures { IfOk result (λ can. MatchBool can (CanSay (mitigates asked.now lifetime)) (CanSay (mitigates asked.now lifetime) → ⊥)) }
{
    if !is_granted(lifetime) || !can_ask(asked) {
        return Ok(false);
    }
    let _body = request_body(alloc, asked, lifetime)?;
    Ok(true)
}

/// Whether a lifetime can be granted: 1 second or more, or an indefinite one, which is -1.
fn is_granted(lifetime: i32) -> bool
    ensures { MatchBool result (IsGranted lifetime) (IsGranted lifetime → ⊥) }
{
    lifetime == -1 || lifetime >= 1
}

/// Whether the lists are within their numbers. What their items say, their types say.
fn can_ask(asked: &Asked) -> bool
    ensures { MatchBool result (CanAsk asked.now) (CanAsk asked.now → ⊥) }
{
    are_prefixes(asked.prefixes.items());
    are_ranges(asked.ports.items());
    are_protocols(asked.protocols.items());
    are_names(asked.names.items());
    are_names(asked.aliases.items());
    are_few(asked)
}

fn are_few(asked: &Asked) -> bool
    ensures { MatchBool result (AreFew asked.now) (AreFew asked.now → ⊥) }
{
    asked.prefixes.items().len() <= MAX_ITEMS
        && asked.ports.items().len() <= MAX_ITEMS
        && asked.protocols.items().len() <= MAX_ITEMS
        && asked.names.items().len() <= MAX_NAMES
        && asked.aliases.items().len() <= MAX_NAMES
}

fn are_prefixes(prefixes: &[Prefix])
    ensures { AllByRecursion IsPrefix prefixes.now }
{
    for prefix in prefixes {
        is_prefix(prefix);
    }
}

fn is_prefix(prefix: &Prefix)
    ensures { IsPrefix prefix.now }
{
    let _number = prefix.number();
}

fn are_ranges(ranges: &[PortRange])
    ensures { AllByRecursion IsRange ranges.now }
{
    for range in ranges {
        is_range(range);
    }
}

fn is_range(range: &PortRange)
    ensures { IsRange range.now }
{
    let _lower = range.lower();
    let _upper = range.upper();
}

fn are_names(names: &[Name])
    ensures { AllByRecursion (λ (name : List ℕ). IsTrue (is_name name)) names.now }
{
    for name in names {
        is_name(name);
    }
}

fn is_name(name: &Name)
    ensures { IsTrue (is_name name.now) }
{
    let _bytes = name.bytes();
}

fn are_protocols(protocols: &[u8])
    ensures { AllByRecursion (λ (n : ℕ). n < 256) protocols.now }
{}
