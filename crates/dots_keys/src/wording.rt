//! Short texts for an operator.

ghost use Rattle.std.specs.Prelude.{◌≡◌, ◌≤◌, ◌++◌, None, Some, length, take, decimal};
ghost use Rattle.dots_keys.specs.Wordings.{wording_text, IsShort};

use itoa::Buffer;
use std::fmt;

/// The greatest number of bytes of the text of a refusal: 8 of a word and 20 of a number.
pub const MAX_TEXT: usize = 28;

/// A word, and a number behind some.
#[derive(Clone, Copy)]
pub struct Wording {
    word: &'static str,
    number: Option<u64>,
}

impl Wording {
    pub fn plain(word: &'static str) -> Wording
        ensures word { result.word.now ≡ word.now }
        ensures number { result.number ≡ None }
    {
        Wording { word, number: None }
    }

    pub fn numbered(word: &'static str, number: u64) -> Wording
        ensures word { result.word.now ≡ word.now }
        ensures number { result.number ≡ Some number }
    {
        Wording {
            word,
            number: Some(number),
        }
    }

    /// Puts the text to the front of the bytes, and answers how many bytes it has.
    pub fn put(&self, into: &mut [u8]) -> usize
        requires short { IsShort self.now }
        requires room { 28 ≤ length into.old }
        ensures front { take result into.new ≡ wording_text self.now }
        ensures within { result ≤ 28 }
    {
        match self.number {
            None => put_word(into, self.word.as_bytes()),
            Some(number) => put_numbered(into, self.word.as_bytes(), number),
        }
    }
}

impl fmt::Display for Wording {
    ghost use Rattle.std.specs.Prelude.{Some};
    ghost use Rattle.dots_keys.specs.Wordings.{wording_text};

    ghost output = { λ wording. Some (wording_text wording) };

    fn fmt<W: fmt::Write>(&self, f: &mut fmt::Formatter<W>) -> fmt::Result {
        match self.number {
            None => f.write_str(self.word),
            Some(number) => write!(f, "{}{}", self.word, number),
        }
    }
}

fn put_word(into: &mut [u8], word: &[u8]) -> usize
    requires word { length word.now ≤ 28 }
    requires room { 28 ≤ length into.old }
    ensures front { take result into.new ≡ word.now }
    ensures within { result ≤ 28 }
{
    into[..word.len()].copy_from_slice(word);
    word.len()
}

/// A word and a number behind it.
fn put_numbered(into: &mut [u8], word: &[u8], number: u64) -> usize
    requires word { length word.now ≤ 8 }
    requires room { 28 ≤ length into.old }
    ensures front { take result into.new ≡ word.now ++ decimal number }
    ensures within { result ≤ 28 }
{
    let mut buffer = Buffer::new();
    let digits = buffer.format(number).as_bytes();
    let (front, rest) = into.split_at_mut(word.len());
    front.copy_from_slice(word);
    rest[..digits.len()].copy_from_slice(digits);
    word.len() + digits.len()
}
