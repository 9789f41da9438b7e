//! Drawn rows of mitigations.

use crate::draws::Draws;
use acl_lists::ScrubRow;
use anyhow::{Result, bail};
use dots_lists::{Bytes, List, Text};
use ip_scope::PortRange;
use std::alloc::Global;

/// Up to three ranges of ports, mostly few.
fn ports(alloc: Global, draws: &mut Draws) -> Result<List<PortRange>> {
    let mut ports = List::new(alloc);
    for _ in 0..draws.of_four() {
        if let Some(range) = draws.ports() {
            ports.push(range)?;
        }
    }
    Ok(ports)
}

/// Up to three protocols.
fn protocols(alloc: Global, draws: &mut Draws) -> Result<Bytes> {
    let mut protocols = Vec::new(alloc);
    for _ in 0..draws.of_four() {
        protocols.push(draws.protocol())?;
    }
    Ok(Bytes::from_vec(protocols))
}

/// The cuid that all rows and lists have.
pub fn client(alloc: Global) -> Result<Text> {
    match Text::new(alloc, b"client")? {
        Some(cuid) => Ok(cuid),
        None => bail!("no text"),
    }
}

fn row(alloc: Global, draws: &mut Draws) -> Result<ScrubRow> {
    let family = draws.family();
    let prefix = draws.prefix(family);
    let ports = ports(alloc, draws)?;
    let protocols = protocols(alloc, draws)?;
    let cuid = client(alloc)?;
    Ok(ScrubRow {
        domain: 0,
        cuid,
        mid: draws.of_eight(),
        prefix,
        ports,
        protocols,
        active: draws.of_eight() != 0,
    })
}

/// Up to fifteen rows.
pub fn rows(alloc: Global, draws: &mut Draws) -> Result<List<ScrubRow>> {
    let mut rows = List::new(alloc);
    for _ in 0..draws.of_sixteen() {
        rows.push(row(alloc, draws)?)?;
    }
    Ok(rows)
}
