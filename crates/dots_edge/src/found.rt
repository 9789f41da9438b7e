//! The lines of which a host file has one.

ghost use Rattle.std.specs.Prelude.{◌≡◌, map, Some, is_some, IfSome};
ghost use Rattle.dots_edge.specs.HostLine.{line_value};
ghost use Rattle.dots_edge.specs.Found.{events_in, has_journal, journal_in, reserve_in, filters_in, filters_nft_in, figures_in};

use crate::host_line::HostLine;

/// How many events the lines let come, where one says it.
pub fn events_in(lines: &[HostLine<'_>]) -> Option<u64>
    ensures { result ≡ events_in (map line_value lines.now) }
{
    for line in lines {
        if let HostLine::Events { count } = line {
            return Some(*count);
        }
    }
    None
}

/// The path of the journal, where a line has one.
pub fn journal_in<'a>(lines: &[HostLine<'a>]) -> Option<&'a str>
    ensures is_some { is_some result ≡ has_journal (map line_value lines.now) }
    ensures path { IfSome result (λ path. journal_in (map line_value lines.now) ≡ Some path.now) }
{
    for line in lines {
        if let HostLine::Journal { path } = line {
            return Some(*path);
        }
    }
    None
}

/// How much of the journal is reserved, where a line says it.
pub fn reserve_in(lines: &[HostLine<'_>]) -> Option<u64>
    ensures { result ≡ reserve_in (map line_value lines.now) }
{
    for line in lines {
        if let HostLine::Reserve { bytes } = line {
            return Some(*bytes);
        }
    }
    None
}

/// The path of the file for the filters, as lines of a report, where a line has one.
pub fn filters_in<'a>(lines: &[HostLine<'a>]) -> Option<&'a str>
    ensures is_some { is_some result ≡ is_some (filters_in (map line_value lines.now)) }
    ensures path { IfSome result (λ path. filters_in (map line_value lines.now) ≡ Some path.now) }
{
    for line in lines {
        if let HostLine::Filters { path } = line {
            return Some(*path);
        }
    }
    None
}

/// The path of the file for the filters, as a script for `nft -f`, where a line has one.
pub fn filters_nft_in<'a>(lines: &[HostLine<'a>]) -> Option<&'a str>
    ensures is_some { is_some result ≡ is_some (filters_nft_in (map line_value lines.now)) }
    ensures path { IfSome result (λ path. filters_nft_in (map line_value lines.now) ≡ Some path.now) }
{
    for line in lines {
        if let HostLine::FiltersNft { path } = line {
            return Some(*path);
        }
    }
    None
}

/// The path of the file for the figures, where a line has one.
pub fn figures_in<'a>(lines: &[HostLine<'a>]) -> Option<&'a str>
    ensures is_some { is_some result ≡ is_some (figures_in (map line_value lines.now)) }
    ensures path { IfSome result (λ path. figures_in (map line_value lines.now) ≡ Some path.now) }
{
    for line in lines {
        if let HostLine::Figures { path } = line {
            return Some(*path);
        }
    }
    None
}
