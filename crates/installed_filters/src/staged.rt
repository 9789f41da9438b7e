//! An entry with the copies that its rows need.

ghost use Rattle.std.specs.Prelude.{◌≡◌, ◌++◌, ℕ, true, false, map, option_map, IfOk, OnOk, OnErr};
ghost use Rattle.dots_history.specs.Rows.{acl_of};
ghost use Rattle.installed_filters.specs.Filters.{rows_put, rows_of_target, putting, scrub_row_with, list_put, acl_row_with, needs_rows};

use acl_lists::{Acl, AclRow, ScrubRow};
use dots_history::{Change, Entry, Put, Target};
use dots_lists::{NoMemory, Text};
use ip_scope::Prefix;
use std::alloc::Global;
use std::marker::Model;

/// An entry whose rows can be installed without memory. Contracts see it as the entry.
#[derive(Drop)]
pub struct Staged {
    entry: Entry,
    scrubs: Vec<ScrubRow>,
    list: Option<AclRow>,
}

impl Model for Staged {
    ghost use Rattle.dots_history.specs.declared.entry.Entry.{Entry};
    ghost use Rattle.installed_filters.specs.Filters.{IsStaged};

    ghost Value = { Entry };

    ghost view = { λ staged. staged.entry };

    ghost invariant = { λ staged. IsStaged staged.entry staged.scrubs.items staged.list };
}

impl Staged {
    /// Makes the copies. This takes memory only for an entry that puts a mitigation or writes an access list.
    pub fn of(alloc: Global, entry: Entry) -> Result<Self, NoMemory>
        ensures value { IfOk result (λ staged. staged ≡ entry) }
        ensures no_memory { OnErr result (needs_rows entry.change ≡ true) }
    {
        match copies(alloc, &entry) {
            Ok((scrubs, list)) => Ok(Staged {
                entry,
                scrubs,
                list,
            }),
            Err(fault) => {
                drop(entry);
                Err(fault)
            }
        }
    }

    /// The entry.
    pub fn entry(&self) -> &Entry
        ensures { result.now ≡ self.now }
    {
        &self.entry
    }

    /// The entry, the rows of the mitigation that it puts, and that of the list that it writes.
    pub fn into_parts(self) -> (Entry, Vec<ScrubRow>, Option<AclRow>)
        ensures entry { result.0 ≡ self }
        ensures scrubs { result.1.items ≡ rows_put self }
        ensures list { result.2 ≡ list_put self }
    {
        (self.entry, self.scrubs, self.list)
    }
}

/// A row for each prefix of each target of the mitigation that the entry puts, and the row of the list that it writes.
#[tactic(auto, using(crate::proofs::Copies::put_alike))]
fn copies(alloc: Global, entry: &Entry) -> Result<(Vec<ScrubRow>, Option<AclRow>), NoMemory>
    ensures scrubs { IfOk result (λ copies. copies.0.items ≡ rows_put entry.now) }
    ensures list { IfOk result (λ copies. copies.1 ≡ list_put entry.now) }
    ensures no_memory { OnErr result (needs_rows entry.now.change ≡ true) }
{
    match &entry.change {
        Change::Put(put) => Ok((rows_of_put(alloc, entry.domain, &entry.cuid, put)?, None)),
        Change::SetAcl(acl) => {
            let row = row_of_acl(alloc, entry, acl)?;
            Ok((Vec::new(alloc), Some(row)))
        }
        _ => Ok((Vec::new(alloc), None)),
    }
}

/// A row for each prefix of each target of a mitigation of this client, which isn't active yet.
pub(crate) fn rows_of_put(
    alloc: Global,
    domain: u16,
    cuid: &Text,
    put: &Put,
) -> Result<Vec<ScrubRow>, NoMemory>
    ensures { IfOk result (λ rows. rows.items ≡ rows_put (putting domain cuid.now put.now)) }
{
    let mut rows = Vec::new(alloc);
    for target in put.targets.items() {
        push_rows(&mut rows, domain, cuid, put, target)?;
    }
    Ok(rows)
}

/// Puts the rows of a target behind the others.
fn push_rows(
    rows: &mut Vec<ScrubRow>,
    domain: u16,
    cuid: &Text,
    put: &Put,
    target: &Target,
) -> Result<(), NoMemory>
    ensures { OnOk result (rows.new.items ≡ rows.old.items ++ rows_of_target (putting domain cuid.now put.now) target.now) }
{
    for prefix in target.prefixes.items() {
        rows.push(row_of_prefix(domain, cuid, put, target, *prefix)?)?;
    }
    Ok(())
}

/// A row that isn't active yet.
fn row_of_prefix(
    domain: u16,
    cuid: &Text,
    put: &Put,
    target: &Target,
    prefix: Prefix,
) -> Result<ScrubRow, NoMemory>
    ensures { IfOk result (λ row. row ≡ scrub_row_with false (record { put = putting domain cuid.now put.now; target = target.now; prefix = prefix })) }
{
    Ok(ScrubRow {
        domain,
        cuid: cuid.copy()?,
        mid: put.mid,
        prefix,
        ports: target.ports.copy()?,
        protocols: target.protocols.copy()?,
        active: false,
    })
}

/// A row that isn't active yet.
fn row_of_acl(alloc: Global, entry: &Entry, acl: &Acl) -> Result<AclRow, NoMemory>
    ensures { IfOk result (λ row. row ≡ acl_row_with false entry.now acl.now) }
{
    Ok(AclRow {
        domain: entry.domain,
        cuid: entry.cuid.copy()?,
        acl: acl.copy(alloc)?,
        active: false,
    })
}
