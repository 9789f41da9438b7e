//! The words `fates` and `script`, which draw tables of filters.

use crate::USAGE;
use crate::draws::Draws;
use crate::tables::{load, settings, table};
use anyhow::{Context, Result, bail};

/// Draws so many tables, and prints them.
fn draw(rt: &HostRuntime, seed: &str, count: &str) -> Result<()> {
    let mut draws = Draws::new(seed.parse::<u64>().context(USAGE)?);
    let count = count.parse::<u32>().context(USAGE)?;
    let settings = settings(rt.alloc())?;
    for number in 0..count {
        let text = table(rt.alloc(), &settings, &mut draws)?;
        println!(rt; "table {number}")?;
        print!(rt; "{}", text.as_str())?;
        println!(rt; "end")?;
    }
    Ok(())
}

/// Draws tables from a seed, as many as a number says, and prints of each its script and the fates of its packets.
pub fn draw_tables(rt: &HostRuntime, words: &[String]) -> Result<()> {
    let [seed, count] = words else {
        bail!("{USAGE}");
    };
    draw(rt, seed.as_str(), count.as_str())
}

/// Prints the script of a table of so many rows.
pub fn print_script(rt: &HostRuntime, words: &[String]) -> Result<()> {
    let [rows] = words else {
        bail!("{USAGE}");
    };
    let count = rows.as_str().parse::<u32>().context(USAGE)?;
    let text = load(rt.alloc(), count)?;
    print!(rt; "{}", text.as_str())?;
    Ok(())
}
