ghost use Rattle.std.specs.Prelude.{◌≡◌, ◌+◌, ◌-◌, ◌*◌, ◌<◌, ◌≤◌, length, decimal};
ghost use Rattle.std.specs.Char.{digit_char};
ghost use Rattle.std.specs.Net.Text.{ipv4_text, hex, leading_zero_digits, groups_text, longest_zero_run, hex_groups_text};
ghost use Rattle.ip_scope.specs.Puts.{Puts};

use itoa::Buffer;

/// The longest text of a prefix: eight groups of four digits, seven colons, a slash and three digits.
pub const MAX_PREFIX_TEXT: usize = 43;

/// Puts the bytes at a place, and answers the place after them.
pub(crate) fn put_all(into: &mut [u8; MAX_PREFIX_TEXT], at: usize, bytes: &[u8]) -> usize
    requires { at + length bytes.now ≤ 43 }
    ensures { Puts into.old into.new at result bytes.now }
{
    let end = at + bytes.len();
    into[at..end].copy_from_slice(bytes);
    end
}

/// Puts a number in decimal.
pub(crate) fn put_decimal(into: &mut [u8; MAX_PREFIX_TEXT], at: usize, number: u8) -> usize
    requires { at + 3 ≤ 43 }
    ensures text { Puts into.old into.new at result (decimal number) }
    ensures within { result ≤ at + 3 }
{
    let mut buffer = Buffer::new();
    put_all(into, at, buffer.format(number).as_bytes())
}

/// Puts four octets in decimal, with dots between them.
pub(crate) fn put_dotted(into: &mut [u8; MAX_PREFIX_TEXT], octets: [u8; 4]) -> usize
    ensures text { Puts into.old into.new 0 result (ipv4_text octets) }
    ensures within { result ≤ 15 }
{
    let [a, b, c, d] = octets;
    let end = put_decimal(into, 0, a);
    let end = put_all(into, end, b".");
    let end = put_decimal(into, end, b);
    let end = put_all(into, end, b".");
    let end = put_decimal(into, end, c);
    let end = put_all(into, end, b".");
    put_decimal(into, end, d)
}

/// A hexadecimal digit in lower case.
fn hex_char(digit: u16) -> u8
    requires { digit < 16 }
    ensures { result ≡ digit_char digit }
{
    if digit < 10 {
        b'0' + digit as u8
    } else {
        b'a' + (digit - 10) as u8
    }
}

/// How many of a group's four digits are leading zeros, the last digit apart.
fn leading_zero_digits(group: u16) -> usize
    ensures value { result ≡ leading_zero_digits group }
    ensures within { result < 4 }
{
    match group {
        0x1000.. => 0,
        0x100.. => 1,
        0x10.. => 2,
        _ => 3,
    }
}

/// Puts a group in hexadecimal, with no leading zeros.
fn put_group(into: &mut [u8; MAX_PREFIX_TEXT], at: usize, group: u16) -> usize
    requires { at + 4 ≤ 43 }
    ensures text { Puts into.old into.new at result (hex group) }
    ensures within { result ≤ at + 4 }
{
    let digits = [
        hex_char(group / 0x1000),
        hex_char(group / 0x100 % 16),
        hex_char(group / 0x10 % 16),
        hex_char(group % 16),
    ];
    let zeros = leading_zero_digits(group);
    put_all(into, at, &digits[zeros..])
}

/// Puts groups with colons between them.
fn put_groups(into: &mut [u8; MAX_PREFIX_TEXT], at: usize, groups: &[u16]) -> usize
    requires { at + 5 * length groups.now ≤ 43 }
    ensures text { Puts into.old into.new at result (groups_text groups.now) }
    ensures within { result ≤ at + (5 * length groups.now - 1) }
{
    let [first, rest @ ..] = groups else {
        return at;
    };
    let mut end = put_group(into, at, *first);
    for group in rest {
        end = put_all(into, end, b":");
        end = put_group(into, end, *group);
    }
    end
}

/// The start and the length of the longest run of zeros, the first one of that length.
fn longest_zero_run(groups: &[u16]) -> (usize, usize)
    ensures value { result ≡ longest_zero_run groups.now }
    ensures within { result.0 + result.1 ≤ length groups.now }
{
    let mut start = groups.len();
    let mut len = 0;
    let mut run = 0;
    for i in (0..groups.len()).rev() {
        run = if groups[i] == 0 { run + 1 } else { 0 };
        if run >= len {
            start = i;
            len = run;
        }
    }
    (start, len)
}

/// Puts eight groups, with `::` in place of the first of the longest runs of two zero groups or more.
pub(crate) fn put_hex_groups(into: &mut [u8; MAX_PREFIX_TEXT], groups: &[u16]) -> usize
    requires { length groups.now ≡ 8 }
    ensures text { Puts into.old into.new 0 result (hex_groups_text groups.now) }
    ensures within { result ≤ 39 }
{
    let (start, len) = longest_zero_run(groups);
    if len < 2 {
        return put_groups(into, 0, groups);
    }
    let end = put_groups(into, 0, &groups[..start]);
    let end = put_all(into, end, b"::");
    put_groups(into, end, &groups[start + len..])
}
