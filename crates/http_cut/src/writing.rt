ghost use Rattle.std.specs.Prelude.{◌≡◌, ◌≤◌, ◌+◌, length};
ghost use Rattle.http_cut.specs.Writing.{IsPut};

/// Writes the bytes at a place, and answers the place behind them.
pub(crate) fn put(into: &mut [u8], at: usize, bytes: &[u8]) -> usize
    requires { at + length bytes.now ≤ length into.old }
    ensures written { IsPut at bytes.now into.old into.new result }
    ensures behind { result ≡ at + length bytes.now }
{
    let behind = at + bytes.len();
    into[at..behind].copy_from_slice(bytes);
    behind
}
