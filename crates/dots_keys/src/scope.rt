//! The scope of a mitigation (RFC 9132, section 4.4.1).

ghost use Rattle.std.specs.Prelude.{◌≡◌};
ghost use Rattle.cbor_profile.specs.ItemTrees.{tree_of};
ghost use Rattle.dots_keys.specs.Fields.{each_field};
ghost use Rattle.dots_keys.specs.FieldValues.{fields_left};
ghost use Rattle.dots_keys.specs.Mitigations.{scope_key_of, scope_field, nothing_asked, whole_scope, has_target, lifetime_of, trigger_of, scope_of};
ghost use Rattle.dots_keys.specs.Results.{Gives, Stores};

use crate::fields::Fields;
use crate::refusing::{invalid, missing};
use crate::reject::Reject;
use crate::request::MitigationBody;
use crate::targets::{
    ALIAS_NAME, TARGET_FQDN, TARGET_PORT_RANGE, TARGET_PREFIX, TARGET_PROTOCOL, names_of, ports_of,
    prefixes_in, protocols_of,
};
use acl_lists::Asked;
use cbor_profile::Item;
use dots_lists::{Bytes, List};
use std::alloc::Global;

/// `lifetime` and `trigger-mitigation`.
const LIFETIME: u8 = 14;

const TRIGGER_MITIGATION: u8 = 45;

/// The greatest lifetime in seconds, 2^31 - 1.
const MAX_LIFETIME: u64 = 2147483647;

/// The keys of a scope.
#[derive(Clone, Copy)]
pub enum ScopeKey {
    Prefixes,
    Ports,
    Protocols,
    Names,
    Aliases,
    Lifetime,
    Trigger,
}

/// What the fields of a scope said so far.
#[derive(Drop)]
pub struct Scope {
    pub asked: Asked,
    pub lifetime: Option<i32>,
    pub trigger: bool,
}

fn scope_key_of(key: u8) -> Option<ScopeKey>
    ensures { result ≡ scope_key_of key }
{
    match key {
        TARGET_PREFIX => Some(ScopeKey::Prefixes),
        TARGET_PORT_RANGE => Some(ScopeKey::Ports),
        TARGET_PROTOCOL => Some(ScopeKey::Protocols),
        TARGET_FQDN => Some(ScopeKey::Names),
        ALIAS_NAME => Some(ScopeKey::Aliases),
        LIFETIME => Some(ScopeKey::Lifetime),
        TRIGGER_MITIGATION => Some(ScopeKey::Trigger),
        _ => None,
    }
}

/// A lifetime in seconds, or -1.
fn lifetime_of(item: &Item) -> Result<i32, Reject>
    ensures { result ≡ lifetime_of (tree_of item.now) }
{
    match item {
        Item::Unsigned(seconds) => {
            if *seconds < 1 || *seconds > MAX_LIFETIME {
                return Err(invalid(LIFETIME));
            }
            Ok(*seconds as i32)
        }
        Item::Negative(number) => {
            if *number != 0 {
                return Err(invalid(LIFETIME));
            }
            Ok(-1)
        }
        _ => Err(invalid(LIFETIME)),
    }
}

/// A truth value, which isn't false from a gateway.
fn trigger_of(gateway: bool, item: &Item) -> Result<bool, Reject>
    ensures { result ≡ trigger_of gateway (tree_of item.now) }
{
    match item {
        Item::Bool(true) => Ok(true),
        Item::Bool(false) => {
            if gateway {
                return Err(invalid(TRIGGER_MITIGATION));
            }
            Ok(false)
        }
        _ => Err(invalid(TRIGGER_MITIGATION)),
    }
}

/// Whether there is a prefix, a name or an alias.
fn has_target(asked: &Asked) -> bool
    ensures { result ≡ has_target asked.now }
{
    !(asked.prefixes.items().is_empty()
        && asked.names.items().is_empty()
        && asked.aliases.items().is_empty())
}

impl Scope {
    /// What is said before the first field. Takes no memory.
    fn new(alloc: Global) -> Self
        ensures { result ≡ nothing_asked }
    {
        Scope {
            asked: Asked {
                prefixes: List::new(alloc),
                ports: List::new(alloc),
                protocols: Bytes::new(alloc),
                names: List::new(alloc),
                aliases: List::new(alloc),
            },
            lifetime: None,
            trigger: true,
        }
    }

    /// Adds what a field says.
    fn take(&mut self, alloc: Global, gateway: bool, key: u8, value: &Item) -> Result<(), Reject>
        ensures { Stores result self.new (scope_field gateway self.old key (tree_of value.now)) }
    {
        match scope_key_of(key) {
            Some(ScopeKey::Prefixes) => {
                self.asked.prefixes = prefixes_in(alloc, value)?;
                Ok(())
            }
            Some(ScopeKey::Ports) => {
                self.asked.ports = ports_of(alloc, value)?;
                Ok(())
            }
            Some(ScopeKey::Protocols) => {
                self.asked.protocols = protocols_of(alloc, value)?;
                Ok(())
            }
            Some(ScopeKey::Names) => {
                self.asked.names = names_of(alloc, TARGET_FQDN, value)?;
                Ok(())
            }
            Some(ScopeKey::Aliases) => {
                self.asked.aliases = names_of(alloc, ALIAS_NAME, value)?;
                Ok(())
            }
            Some(ScopeKey::Lifetime) => {
                self.lifetime = Some(lifetime_of(value)?);
                Ok(())
            }
            Some(ScopeKey::Trigger) => {
                self.trigger = trigger_of(gateway, value)?;
                Ok(())
            }
            None => Err(invalid(key)),
        }
    }

    /// The body of the request, if nothing mandatory is missing.
    fn whole(self) -> Result<MitigationBody, Reject>
        ensures { result ≡ whole_scope self }
    {
        if !has_target(&self.asked) {
            return Err(missing(TARGET_PREFIX));
        }
        let Some(lifetime) = self.lifetime else {
            return Err(missing(LIFETIME));
        };
        Ok(MitigationBody {
            asked: self.asked,
            lifetime,
            trigger: self.trigger,
        })
    }
}

/// What all fields say.
fn each_field(alloc: Global, gateway: bool, fields: &mut Fields<'_>) -> Result<Scope, Reject>
    ensures { Gives result (each_field (scope_field gateway) nothing_asked (fields_left fields.old)) }
{
    let mut said = Scope::new(alloc);
    while let Some((key, value)) = fields.next()? {
        said.take(alloc, gateway, key, value)?;
    }
    Ok(said)
}

/// The body of the request of a client or a gateway in a scope.
pub fn scope_of(alloc: Global, gateway: bool, item: &Item) -> Result<MitigationBody, Reject>
    ensures { Gives result (scope_of gateway (tree_of item.now)) }
{
    let mut fields = Fields::of(item, 2)?;
    let said = each_field(alloc, gateway, &mut fields)?;
    said.whole()
}
