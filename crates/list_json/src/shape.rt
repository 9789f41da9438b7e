//! Which members an object may have.

ghost use Rattle.std.specs.Prelude.{◌≡◌, ◌||◌, bytes_eq};
ghost use Rattle.serde_json.specs.View.{view, members_view};
ghost use Rattle.list_json.specs.declared.shape.Shape.TheVariants as shape;
ghost use Rattle.list_json.specs.Shapes.{may_have, only, whole_object};

use crate::fault::{ListFault, Member};
use serde_json::{Map, Value};

/// The objects in the bodies of the data channel.
#[derive(Clone, Copy)]
pub enum Shape {
    /// The body of a client, and the client in it.
    ClientBody,
    Client,
    /// A body with one alias, and all aliases in it.
    AliasBody,
    Aliases,
    /// A body with one access list, and all access lists in it.
    AclBody,
    Acls,
    Alias,
    /// A range in `target-port-range`.
    Range,
    List,
    Aces,
    Entry,
    Actions,
    Matches,
    Ipv4,
    Ipv6,
    /// `tcp` or `udp`.
    Transport,
    /// A range of ports, or an operator with its port.
    PortTest,
}

impl Shape {
    /// Whether such an object may have a member of this name.
    fn may_have(self, name: &str) -> bool
        ensures { result ≡ may_have self name.now }
    {
        match self {
            Shape::ClientBody => name == "ietf-dots-data-channel:dots-client",
            Shape::Client => name == "cuid",
            Shape::AliasBody => is_either(
                name,
                "ietf-dots-data-channel:alias",
                "ietf-dots-data-channel:aliases",
            ),
            Shape::Aliases => name == "alias",
            Shape::AclBody => is_either(
                name,
                "ietf-dots-data-channel:acl",
                "ietf-dots-data-channel:acls",
            ),
            Shape::Acls => name == "acl",
            Shape::Alias => alias_may_have(name),
            Shape::Range => is_either(name, "lower-port", "upper-port"),
            Shape::List => is_one_of_four(name, "name", "type", "activation-type", "aces"),
            Shape::Aces => name == "ace",
            Shape::Entry => is_one_of_three(name, "name", "matches", "actions"),
            Shape::Actions => name == "forwarding",
            Shape::Matches => is_one_of_four(name, "ipv4", "ipv6", "tcp", "udp"),
            Shape::Ipv4 => is_one_of_three(
                name,
                "source-ipv4-network",
                "destination-ipv4-network",
                "protocol",
            ),
            Shape::Ipv6 => is_one_of_three(
                name,
                "source-ipv6-network",
                "destination-ipv6-network",
                "protocol",
            ),
            Shape::Transport => is_one_of_four(
                name,
                "source-port",
                "source-port-range-or-operator",
                "destination-port",
                "destination-port-range-or-operator",
            ),
            Shape::PortTest => {
                is_one_of_four(name, "operator", "port", "lower-port", "upper-port")
            }
        }
    }
}

/// Whether an alias may have a member of this name.
fn alias_may_have(name: &str) -> bool
    ensures { result ≡ may_have shape.Alias name.now }
{
    name == "name"
        || is_one_of_four(
            name,
            "target-prefix",
            "target-port-range",
            "target-protocol",
            "target-fqdn",
        )
}

fn is_either(name: &str, first: &str, second: &str) -> bool
    ensures { result ≡ bytes_eq name.now first.now || bytes_eq name.now second.now }
{
    name == first || name == second
}

fn is_one_of_three(name: &str, first: &str, second: &str, third: &str) -> bool
    ensures { result ≡ bytes_eq name.now first.now || bytes_eq name.now second.now || bytes_eq name.now third.now }
{
    name == first || name == second || name == third
}

fn is_one_of_four(name: &str, first: &str, second: &str, third: &str, fourth: &str) -> bool
    ensures { result ≡ bytes_eq name.now first.now || bytes_eq name.now second.now || bytes_eq name.now third.now || bytes_eq name.now fourth.now }
{
    name == first || name == second || name == third || name == fourth
}

/// Whether every member is one that such an object may have.
fn has_only(members: &Map<String, Value>, shape: Shape) -> bool
    ensures { result ≡ only (may_have shape) (members_view members.now.entries) }
{
    for (name, _) in members.iter() {
        if !shape.may_have(name.as_str()) {
            return false;
        }
    }
    true
}

/// Refuses what is no object, as a value of this member, and an object with a member that it can't have.
pub fn check_members(value: &Value, shape: Shape, member: Member) -> Result<(), ListFault>
    ensures { result ≡ whole_object shape member (view value.now) }
{
    let Some(members) = value.as_object() else {
        return Err(ListFault::Invalid(member));
    };
    if !has_only(members, shape) {
        return Err(ListFault::Unknown);
    }
    Ok(())
}
