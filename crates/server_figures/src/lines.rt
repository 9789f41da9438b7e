//! The lines of a figure.

ghost use Rattle.std.specs.Prelude.{◌≡◌, ◌++◌, flat_map, codes, decimal, OnOk};
ghost use Rattle.server_figures.specs.Lines.{heading_lines, labelled_line, plain_line, plain_figure};
ghost use Rattle.server_figures.specs.Figures.{counter, gauge};

use dots_lists::NoMemory;
use itoa::Buffer;

/// Adds the pieces, one after the other.
fn add(text: &mut Vec<u8>, pieces: &[&[u8]]) -> Result<(), NoMemory>
    ensures { OnOk result (text.new.items ≡ text.old.items ++ flat_map (λ piece. piece.now) pieces.now) }
{
    for piece in pieces {
        text.extend_from_slice(piece)?;
    }
    Ok(())
}

/// Adds what the figure is, and of which kind.
#[tactic(auto, unfolding(crate::specs::Lines::heading_lines))]
fn add_heading(text: &mut Vec<u8>, name: &[u8], help: &[u8], kind: &[u8]) -> Result<(), NoMemory>
    ensures { OnOk result (text.new.items ≡ text.old.items ++ heading_lines (record { name = name.now; help = help.now; kind = kind.now })) }
{
    let pieces = [
        b"# HELP ".as_slice(),
        name,
        b" ".as_slice(),
        help,
        b"\n# TYPE ".as_slice(),
        name,
        b" ".as_slice(),
        kind,
        b"\n".as_slice(),
    ];
    add(text, &pieces)
}

/// Adds what a figure is that rises.
pub fn add_counter_heading(text: &mut Vec<u8>, name: &[u8], help: &[u8]) -> Result<(), NoMemory>
    ensures { OnOk result (text.new.items ≡ text.old.items ++ heading_lines (counter name.now help.now)) }
{
    add_heading(text, name, help, b"counter")
}

/// Adds what a figure is that doesn't only rise.
pub fn add_gauge_heading(text: &mut Vec<u8>, name: &[u8], help: &[u8]) -> Result<(), NoMemory>
    ensures { OnOk result (text.new.items ≡ text.old.items ++ heading_lines (gauge name.now help.now)) }
{
    add_heading(text, name, help, b"gauge")
}

/// Adds `NAME NUMBER`.
fn add_number(text: &mut Vec<u8>, name: &[u8], number: u64) -> Result<(), NoMemory>
    ensures { OnOk result (text.new.items ≡ text.old.items ++ plain_line name.now number) }
{
    let mut digits = Buffer::new();
    let pieces = [
        name,
        b" ".as_slice(),
        digits.format(number).as_bytes(),
        b"\n".as_slice(),
    ];
    add(text, &pieces)
}

/// Adds `NAME{LABEL`.
fn add_named(text: &mut Vec<u8>, name: &[u8], label: &[u8]) -> Result<(), NoMemory>
    ensures { OnOk result (text.new.items ≡ text.old.items ++ name.now ++ codes "{" ++ label.now) }
{
    let pieces = [name, b"{".as_slice(), label];
    add(text, &pieces)
}

/// Adds the number and the end of a line.
fn add_digits(text: &mut Vec<u8>, number: u64) -> Result<(), NoMemory>
    ensures { OnOk result (text.new.items ≡ text.old.items ++ decimal number ++ codes "\n") }
{
    let mut digits = Buffer::new();
    let pieces = [digits.format(number).as_bytes(), b"\n".as_slice()];
    add(text, &pieces)
}

/// Adds `NAME{LABEL="VALUE"} NUMBER`.
#[tactic(auto, unfolding(crate::specs::Lines::labelled_line))]
pub fn add_labelled(
    text: &mut Vec<u8>,
    name: &[u8],
    label: &[u8],
    value: &[u8],
    number: u64,
) -> Result<(), NoMemory>
    ensures { OnOk result (text.new.items ≡ text.old.items ++ labelled_line name.now label.now value.now number) }
{
    add_named(text, name, label)?;
    add(text, &[b"=\"".as_slice(), value, b"\"} ".as_slice()])?;
    add_digits(text, number)
}

/// Adds a figure of one number that rises.
#[tactic(auto, unfolding(crate::specs::Lines::plain_figure))]
pub fn add_counter(
    text: &mut Vec<u8>,
    name: &[u8],
    help: &[u8],
    number: u64,
) -> Result<(), NoMemory>
    ensures { OnOk result (text.new.items ≡ text.old.items ++ plain_figure (counter name.now help.now) number) }
{
    add_counter_heading(text, name, help)?;
    add_number(text, name, number)
}

/// Adds a figure of one number that doesn't only rise.
#[tactic(auto, unfolding(crate::specs::Lines::plain_figure))]
pub fn add_gauge(text: &mut Vec<u8>, name: &[u8], help: &[u8], number: u64) -> Result<(), NoMemory>
    ensures { OnOk result (text.new.items ≡ text.old.items ++ plain_figure (gauge name.now help.now) number) }
{
    add_gauge_heading(text, name, help)?;
    add_number(text, name, number)
}
