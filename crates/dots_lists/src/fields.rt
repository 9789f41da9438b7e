ghost use Rattle.std.specs.Prelude.{◌≡◌, ◌≢◌, ℕ, List, [], ◌∷◌, map, bytes_eq, IfOk, MatchOption};
ghost use Rattle.dots_lists.specs.Lines.{fields_of};

use memchr::memchr;
use std::alloc::{AllocError, Global};

/// The fields of a line: at least one.
pub fn fields_of(alloc: Global, line: &[u8]) -> Result<Vec<&[u8]>, AllocError>
    ensures { IfOk result (λ fields. map (λ field. field.now) fields.items ≡ fields_of line.now) }
{
    line.split(|byte| *byte == b' ').collect(alloc)
}

/// Whether the field is this word.
pub fn is_word(field: &[u8], word: &[u8]) -> bool
    ensures { result ≡ bytes_eq field.now word.now }
{
    field == word
}

/// The first field and the other fields of a line, or None where the line is one field.
pub fn split_field(line: &[u8]) -> Option<(&[u8], &[u8])>
    ensures { MatchOption result (fields_of line.now ≡ line.now ∷ [])
        (λ split. fields_of line.now ≡ split.0.now ∷ fields_of split.1.now) }
{
    let end = memchr(b' ', line)?;
    Some((&line[..end], &line[end + 1..]))
}

/// The field of a line that is one.
pub fn one_field(line: &[u8]) -> Option<&[u8]>
    ensures { MatchOption result ((field : List ℕ) → fields_of line.now ≢ field ∷ [])
        (λ field. fields_of line.now ≡ field.now ∷ []) }
{
    match split_field(line) {
        Some(_) => None,
        None => Some(line),
    }
}

/// The fields of a line that is two.
pub fn two_fields(line: &[u8]) -> Option<(&[u8], &[u8])>
    ensures { MatchOption result ((one two : List ℕ) → fields_of line.now ≢ one ∷ two ∷ [])
        (λ fields. fields_of line.now ≡ fields.0.now ∷ fields.1.now ∷ []) }
{
    let (one, rest) = split_field(line)?;
    let two = one_field(rest)?;
    Some((one, two))
}
