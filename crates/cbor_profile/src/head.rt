//! What the first byte of an item says (RFC 8949, section 3).

ghost use Rattle.std.specs.Prelude.{◌≡◌, ◌/◌};
ghost use Rattle.cbor_profile.specs.ItemReading.{major_of, simple_start, sized_start, start_with, start_of};

use crate::major::Major;

/// The first byte of an indefinite length's end (section 3.2.1).
pub(crate) const BREAK: u8 = 0xff;

/// What an item begins with.
#[derive(Clone, Copy)]
pub(crate) enum Start {
    /// A head, whose argument is or follows this additional information, up to 27.
    Value(Major, u8),
    /// A string, an array or a map of indefinite length.
    Indefinite(Major),
    /// A byte that means nothing here.
    Reserved,
    /// A float, or a simple value other than false, true and null.
    Unsupported,
}

/// What this initial byte begins.
pub(crate) fn start_of(first: u8) -> Start
    ensures { result ≡ start_of first }
{
    start_with(major_of(first / 32), first % 32)
}

/// The major type of this number.
fn major_of(number: u8) -> Major
    ensures { result ≡ major_of number }
{
    match number {
        0 => Major::Unsigned,
        1 => Major::Negative,
        2 => Major::Bytes,
        3 => Major::Text,
        4 => Major::Array,
        5 => Major::Map,
        6 => Major::Tag,
        _ => Major::Simple,
    }
}

#[tactic(auto, unfolding(crate::specs::ItemReading::start_with))]
fn start_with(major: Major, info: u8) -> Start
    ensures { result ≡ start_with major info }
{
    match major {
        Major::Unsigned | Major::Negative | Major::Tag => sized_start(major, info, false),
        Major::Bytes | Major::Text | Major::Array | Major::Map => sized_start(major, info, true),
        Major::Simple => simple_start(info),
    }
}

/// The start of a type whose length may be indefinite or may not.
fn sized_start(major: Major, info: u8, indefinite: bool) -> Start
    ensures { result ≡ sized_start major info indefinite }
{
    if info < 28 {
        return Start::Value(major, info);
    }
    if info == 31 && indefinite {
        return Start::Indefinite(major);
    }
    Start::Reserved
}

/// The start of a simple value: 20 is false, 21 true and 22 null (section 3.3).
fn simple_start(info: u8) -> Start
    ensures { result ≡ simple_start info }
{
    match info {
        20..=22 => Start::Value(Major::Simple, info),
        0..28 => Start::Unsupported,
        _ => Start::Reserved,
    }
}
