//! The bodies of replies (RFC 8783, sections 4.3, 6 and 7).

ghost use Rattle.std.specs.Prelude.{◌≡◌, map, false, IfOk};
ghost use Rattle.serde_json.specs.View.{view};
ghost use Rattle.serde_json.specs.Written.{has_float, compact_text};
ghost use Rattle.list_json.specs.AliasPrinting.{alias_data};
ghost use Rattle.list_json.specs.ListPrinting.{acl_data};
ghost use Rattle.data_channel.specs.Replies.{wrapped, alone, aliases_data, acls_data, client_data, body_data};

use acl_lists::{Acl, Alias};
use dots_lists::{Bytes, List, Name, NoMemory};
use list_json::{acl_value, alias_value, name_value};
use serde_json::{Map, Value, put};
use std::alloc::Global;

/// Aliases, in the order of their writing.
pub type AliasList = List<Alias>;

/// Access lists, in the order of their writing.
pub type AclList = List<Acl>;

/// The body of a reply to a GET.
#[derive(Drop)]
pub enum RestBody {
    Client {
        cuid: Name,
        aliases: AliasList,
        acls: AclList,
    },
    Aliases(AliasList),
    OneAlias(Alias),
    Acls(AclList),
    OneAcl(Acl),
}

/// An object with one member.
fn wrapped(alloc: Global, name: &str, value: Value) -> Result<Value, NoMemory>
    ensures { IfOk result (λ object. view object ≡ wrapped name.now (view value)) }
{
    let mut members = Map::new(alloc);
    put(&mut members, alloc, name, value)?;
    Ok(Value::Object(members))
}

/// An array of one item.
fn alone(alloc: Global, value: Value) -> Result<Value, NoMemory>
    ensures { IfOk result (λ array. view array ≡ alone (view value)) }
{
    let mut items = Vec::new(alloc);
    items.push(value)?;
    Ok(Value::Array(items))
}

fn alias_values(alloc: Global, aliases: &[Alias]) -> Result<Vec<Value>, NoMemory>
    ensures { IfOk result (λ values. map view values.items ≡ map alias_data aliases.now) }
{
    let mut values = Vec::new(alloc);
    for alias in aliases {
        values.push(alias_value(alloc, alias)?)?;
    }
    Ok(values)
}

fn aliases_value(alloc: Global, aliases: &[Alias]) -> Result<Value, NoMemory>
    ensures { IfOk result (λ value. view value ≡ aliases_data aliases.now) }
{
    let values = alias_values(alloc, aliases)?;
    wrapped(alloc, "alias", Value::Array(values))
}

fn acl_values(alloc: Global, acls: &[Acl]) -> Result<Vec<Value>, NoMemory>
    ensures { IfOk result (λ values. map view values.items ≡ map acl_data acls.now) }
{
    let mut values = Vec::new(alloc);
    for acl in acls {
        values.push(acl_value(alloc, acl)?)?;
    }
    Ok(values)
}

fn acls_value(alloc: Global, acls: &[Acl]) -> Result<Value, NoMemory>
    ensures { IfOk result (λ value. view value ≡ acls_data acls.now) }
{
    let values = acl_values(alloc, acls)?;
    wrapped(alloc, "acl", Value::Array(values))
}

fn client_value(
    alloc: Global,
    cuid: &Name,
    aliases: &[Alias],
    acls: &[Acl],
) -> Result<Value, NoMemory>
    ensures { IfOk result (λ value. view value ≡ client_data cuid.now aliases.now acls.now) }
{
    let mut members = Map::new(alloc);
    put(&mut members, alloc, "cuid", name_value(alloc, cuid)?)?;
    put(
        &mut members,
        alloc,
        "aliases",
        aliases_value(alloc, aliases)?,
    )?;
    put(&mut members, alloc, "acls", acls_value(alloc, acls)?)?;
    Ok(Value::Object(members))
}

/// One value as the only item of a member.
fn only(alloc: Global, name: &str, value: Value) -> Result<Value, NoMemory>
    ensures { IfOk result (λ body. view body ≡ wrapped name.now (alone (view value))) }
{
    wrapped(alloc, name, alone(alloc, value)?)
}

fn body_value(alloc: Global, body: &RestBody) -> Result<Value, NoMemory>
    ensures { IfOk result (λ value. view value ≡ body_data body.now) }
{
    match body {
        RestBody::Client {
            cuid,
            aliases,
            acls,
        } => {
            let client = client_value(alloc, cuid, aliases.items(), acls.items())?;
            only(alloc, "ietf-dots-data-channel:dots-client", client)
        }
        RestBody::Aliases(aliases) => {
            let all = aliases_value(alloc, aliases.items())?;
            wrapped(alloc, "ietf-dots-data-channel:aliases", all)
        }
        RestBody::OneAlias(alias) => {
            only(
                alloc,
                "ietf-dots-data-channel:alias",
                alias_value(alloc, alias)?,
            )
        }
        RestBody::Acls(acls) => {
            let all = acls_value(alloc, acls.items())?;
            wrapped(alloc, "ietf-dots-data-channel:acls", all)
        }
        RestBody::OneAcl(acl) => {
            only(alloc, "ietf-dots-data-channel:acl", acl_value(alloc, acl)?)
        }
    }
}

/// The compact text of a body, its members in the bytewise order of their names.
pub fn body_text(alloc: Global, body: &RestBody) -> Result<Bytes, NoMemory>
    ensures { IfOk result (λ text. text ≡ compact_text (body_data body.now)) }
{
    let value = body_value(alloc, body)?;
    let text = value.to_vec(alloc)?;
    Ok(Bytes::from_vec(text))
}
