//! An answer as it is told, letter by letter.

use itoa::{Buffer, Integer};

/// More letters than a row has.
const ROOM: usize = 64;

/// The letters that were told so far. Where there are more than there is room for, the answer is no row's.
#[derive(Clone, Copy)]
pub struct Spelled {
    letters: [u8; ROOM],
    count: usize,
}

impl Spelled {
    pub fn new() -> Spelled {
        Spelled {
            letters: [0; ROOM],
            count: 0,
        }
    }

    pub fn push(&mut self, letter: u8) {
        if self.count < ROOM {
            self.letters[self.count] = letter;
        }
        self.count = self.count.saturating_add(1);
    }

    pub fn extend(&mut self, letters: &[u8]) {
        for letter in letters {
            self.push(*letter);
        }
    }

    /// Tells all digits of a number.
    pub fn push_number<I: Integer>(&mut self, number: I) {
        let mut digits = Buffer::new();
        self.extend(digits.format(number).as_bytes());
    }

    /// Forgets what was told.
    pub fn clear(&mut self) {
        self.count = 0;
    }

    /// Whether this and nothing else was told.
    pub fn spells(&self, want: &str) -> bool {
        self.count <= ROOM && &self.letters[..self.count] == want.as_bytes()
    }
}
