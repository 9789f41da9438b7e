//! Bytes of field values.
ghost use Rattle.std.specs.Prelude.{◌≡◌};
ghost use Rattle.httparse.specs.Grammar.{is_ows, skip_ows, trim_ows};
ghost use Rattle.http_cut.specs.Fields.{is_same_word, skip_back, media_type, is_close, has_close};

/// Whether the bytes are the same, but for the case of ASCII letters.
pub(crate) fn is_same_word(one: &[u8], other: &[u8]) -> bool
    ensures { result ≡ is_same_word one.now other.now }
{
    one.eq_ignore_ascii_case(other)
}

fn is_blank(byte: u8) -> bool
    ensures { result ≡ is_ows byte }
{
    byte == b'\t' || byte == b' '
}

fn trim_front(bytes: &[u8]) -> &[u8]
    ensures { result.now ≡ skip_ows bytes.now }
{
    let mut rest = bytes;
    while let Some((first, behind)) = rest.split_first() {
        if !is_blank(*first) {
            return rest;
        }
        rest = behind;
    }
    rest
}

fn trim_back(bytes: &[u8]) -> &[u8]
    ensures { result.now ≡ skip_back bytes.now }
{
    let mut rest = bytes;
    while let Some((last, before)) = rest.split_last() {
        if !is_blank(*last) {
            return rest;
        }
        rest = before;
    }
    rest
}

/// The bytes without the spaces and tabs at both ends (RFC 9110, section 5.6.3).
fn trim(bytes: &[u8]) -> &[u8]
    ensures { result.now ≡ trim_ows bytes.now }
{
    trim_back(trim_front(bytes))
}

/// The media type of a Content-Type field, without its parameters (RFC 9110, section 8.3.1).
pub(crate) fn media_type(value: &[u8]) -> &[u8]
    ensures { result.now ≡ media_type value.now }
{
    let mut at = 0;
    while at < value.len() {
        if value[at] == b';' {
            return trim(&value[..at]);
        }
        at += 1;
    }
    trim(value)
}

fn is_close(option: &[u8]) -> bool
    ensures { result ≡ is_close option.now }
{
    is_same_word(trim(option), b"close")
}

/// Whether `close` is one of the options of a Connection field (RFC 9110, section 7.6.1).
pub(crate) fn has_close(value: &[u8]) -> bool
    ensures { result ≡ has_close value.now }
{
    value
        .split(|byte| *byte == b',')
        .any(|option| is_close(option))
}
