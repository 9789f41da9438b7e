//! A row of a table.

use std::alloc::Global;
use std::str::FromStr;

/// What is left of the front of a row, which is read from its beginning, and what is wanted of it.
///
/// What isn't there is an empty text. What should be a number and is none counts as the default, what should be hexadecimal and isn't
/// counts as no bytes, and such a row isn't read.
#[derive(Drop)]
pub struct Row<'a> {
    front: &'a str,
    want: &'a str,
    is_read: bool,
}

impl<'a> Row<'a> {
    /// The row of a text, where what is wanted stands behind a mark.
    pub fn new(text: &'a str, mark: &str) -> Self {
        let (front, want) = text.split_once(mark).unwrap_or((text, ""));
        Row {
            front,
            want,
            is_read: true,
        }
    }

    /// What stands in front of the next mark, or all that is left where there is none.
    pub fn text(&mut self, mark: &str) -> &'a str {
        let (text, rest) = self.front.split_once(mark).unwrap_or((self.front, ""));
        self.front = rest;
        text
    }

    pub fn want(&self) -> &'a str {
        self.want
    }

    pub fn is_read(&self) -> bool {
        self.is_read
    }

    /// The number that a word of the row is.
    pub fn read<N: FromStr + Default>(&mut self, word: &str) -> N
    where
        N::Err: Drop,
    {
        match word.parse::<N>() {
            Ok(number) => number,
            Err(_) => {
                self.is_read = false;
                N::default()
            }
        }
    }

    /// The number in front of the next mark.
    pub fn number<N: FromStr + Default>(&mut self, mark: &str) -> N
    where
        N::Err: Drop,
    {
        let word = self.text(mark);
        self.read::<N>(word)
    }

    /// The bytes that a word of the row is in hexadecimal.
    pub fn bytes(&mut self, alloc: Global, word: &str) -> Vec<u8> {
        match hex::decode(alloc, word) {
            Ok(bytes) => bytes,
            Err(_) => {
                self.is_read = false;
                Vec::new(alloc)
            }
        }
    }
}
