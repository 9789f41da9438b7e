use std::error::Error;
use std::fmt;

/// Why a text is no prefix.
#[derive(Clone, Copy, Debug)]
pub enum BadPrefix {
    /// It isn't an address, a slash and a length of one to three digits.
    NotPrefix,
    /// It is, but the length is above the width of the family.
    Length,
}

impl fmt::Display for BadPrefix {
    ghost use Rattle.std.specs.Prelude.{Some};
    ghost use Rattle.ip_scope.specs.BadPrefix.{refusal_text};

    ghost output = { λ e. Some (refusal_text e) };

    fn fmt<W: fmt::Write>(&self, f: &mut fmt::Formatter<W>) -> fmt::Result {
        f.write_str(match self {
            BadPrefix::NotPrefix => "not a prefix",
            BadPrefix::Length => "the length of the prefix is too large",
        })
    }
}

impl Error for BadPrefix {}
