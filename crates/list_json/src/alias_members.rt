//! The members of an alias (RFC 8783, section 6.1), found in one pass over the object.

ghost use Rattle.std.specs.Prelude.{◌≡◌, ◌&&◌};
ghost use Rattle.serde_json.specs.Data.{Members, no_members, member};
ghost use Rattle.serde_json.specs.View.{view, members_view};
ghost use Rattle.list_json.specs.declared.shape.Shape.TheVariants as shape;
ghost use Rattle.list_json.specs.Found.{IsAsBefore, FindsMembers, nothing};
ghost use Rattle.list_json.specs.Shapes.{may_have, only};

use crate::fault::{ListFault, Member};
use serde_json::{Map, Value};

/// The values of the members that are there.
#[derive(Clone, Copy)]
pub(crate) struct AliasMembers<'a> {
    /// Whether every member is one that an alias may have.
    is_whole: bool,
    pub(crate) name: Option<&'a Value>,
    pub(crate) prefixes: Option<&'a Value>,
    pub(crate) ports: Option<&'a Value>,
    pub(crate) protocols: Option<&'a Value>,
    pub(crate) names: Option<&'a Value>,
}

impl<'a> AliasMembers<'a> {
    fn new() -> Self
        ensures { result ≡ nothing }
    {
        AliasMembers {
            is_whole: true,
            name: None,
            prefixes: None,
            ports: None,
            protocols: None,
            names: None,
        }
    }

    /// These and a member that comes behind them.
    fn with(&self, name: &str, value: &'a Value) -> AliasMembers<'a>
        ensures known { result.is_whole ≡ (self.now.is_whole && may_have shape.Alias name.now) }
        ensures found { (rest : Members) → IsAsBefore self.now (member name.now (view value.now) rest) result rest }
    {
        let mut more = *self;
        match name {
            "name" => more.name = self.name.or(Some(value)),
            "target-prefix" => more.prefixes = self.prefixes.or(Some(value)),
            "target-port-range" => more.ports = self.ports.or(Some(value)),
            "target-protocol" => more.protocols = self.protocols.or(Some(value)),
            "target-fqdn" => more.names = self.names.or(Some(value)),
            _ => more.is_whole = false,
        }
        more
    }
}

/// The members of an object that an alias may have.
fn found_in(members: &Map<String, Value>) -> AliasMembers<'_>
    ensures known { result.is_whole ≡ only (may_have shape.Alias) (members_view members.now.entries) }
    ensures found { IsAsBefore nothing (members_view members.now.entries) result no_members }
{
    let mut found = AliasMembers::new();
    for (name, value) in members.iter() {
        found = found.with(name.as_str(), value);
    }
    found
}

/// The members of an alias; refuses what is no object, and an object with another member.
pub(crate) fn members_of(alias: &Value) -> Result<AliasMembers<'_>, ListFault>
    ensures { FindsMembers (view alias.now) result }
{
    let Some(members) = alias.as_object() else {
        return Err(ListFault::Invalid(Member::Alias));
    };
    let found = found_in(members);
    if !found.is_whole {
        return Err(ListFault::Unknown);
    }
    Ok(found)
}
