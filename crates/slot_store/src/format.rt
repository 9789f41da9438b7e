ghost use Rattle.std.specs.Prelude.{◌≡◌};
ghost use Rattle.slot_store.specs.Formats.{format_byte};

/// How the records of a half of a journal are spelled.
#[derive(Clone, Copy, PartialEq, Debug)]
pub enum Format {
    /// Without a seal. A waiting mitigation is a change of its own number.
    One,
    /// With a seal. A mitigation has its trigger value in a field.
    Two,
}

/// The byte of the header that says a half's format.
pub fn format_byte(format: Format) -> u8
    ensures { result ≡ format_byte format }
{
    match format {
        Format::One => 0,
        Format::Two => 2,
    }
}
