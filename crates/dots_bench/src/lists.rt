//! Drawn access lists.

use crate::draws::Draws;
use crate::rows::client;
use acl_lists::{Ace, AceList, Acl, AclRow, Activation, PortTest};
use anyhow::{Result, bail};
use dots_lists::{List, Name};
use std::alloc::Global;

fn test(draws: &mut Draws) -> PortTest {
    let port = draws.port();
    match draws.of_sixteen() {
        0 | 1 => PortTest::Eq(port),
        2 | 3 => PortTest::Neq(port),
        4 => PortTest::Lte(port),
        5 => PortTest::Gte(port),
        6 | 7 | 8 => match draws.ports() {
            Some(range) => PortTest::Range(range),
            None => PortTest::Any,
        },
        _ => PortTest::Any,
    }
}

fn name(alloc: Global, number: u32) -> Result<Name> {
    let digits = format!(in alloc; "{number}")?;
    match Name::new(alloc, digits.as_bytes())? {
        Some(name) => Ok(name),
        None => bail!("no name"),
    }
}

fn ace(alloc: Global, draws: &mut Draws) -> Result<Ace> {
    let name = name(alloc, 0)?;
    let family = draws.family();
    let other = if draws.of_eight() == 0 {
        draws.family()
    } else {
        family
    };
    Ok(Ace {
        name,
        source: draws.some_prefix(other),
        destination: draws.some_prefix(family),
        protocol: if draws.coin() {
            Some(draws.protocol())
        } else {
            None
        },
        source_port: test(draws),
        destination_port: test(draws),
        accept: draws.coin(),
    })
}

fn aces(alloc: Global, draws: &mut Draws) -> Result<AceList> {
    let mut aces = List::new(alloc);
    for _ in 0..draws.of_sixteen() {
        aces.push(ace(alloc, draws)?)?;
    }
    Ok(aces)
}

/// A list of this number as its name.
fn list(alloc: Global, draws: &mut Draws, number: u32) -> Result<AclRow> {
    let aces = aces(alloc, draws)?;
    let name = name(alloc, number)?;
    let cuid = client(alloc)?;
    Ok(AclRow {
        domain: draws.of_four() as u16,
        cuid,
        acl: Acl {
            name,
            family: draws.family(),
            activation: Activation::Immediate,
            aces,
        },
        active: draws.of_four() != 0,
    })
}

/// Up to three lists, named from 1 on.
pub fn lists(alloc: Global, draws: &mut Draws) -> Result<List<AclRow>> {
    let mut lists = List::new(alloc);
    for number in 0..draws.of_four() {
        lists.push(list(alloc, draws, number + 1)?)?;
    }
    Ok(lists)
}
