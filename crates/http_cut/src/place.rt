ghost use Rattle.std.specs.Prelude.{◌≡◌};
ghost use Rattle.http_cut.specs.Places.{place_behind, place_from, is_end};

/// How far the head at the front of a stream came. It ends with the first empty line behind a line that isn't empty (RFC
/// 9112, sections 2.1 and 2.2).
#[derive(Clone, Copy)]
pub(crate) enum Place {
    /// Empty lines alone came.
    Blank,
    /// In a line that isn't empty, or at its start.
    Line,
    /// Behind the line feed of a line.
    LineFeed,
    /// Behind the line feed of a line and a carriage return.
    Return,
    /// The head ended here or before.
    End,
}

impl Place {
    pub(crate) fn is_end(self) -> bool
        ensures { result ≡ is_end self }
    {
        matches!(self, Place::End)
    }

    fn behind_byte(self, byte: u8) -> Place
        ensures { result ≡ place_behind self byte }
    {
        match (self, byte) {
            (Place::End, _) => Place::End,
            (Place::Blank, b'\r' | b'\n') => Place::Blank,
            (Place::LineFeed | Place::Return, b'\n') => Place::End,
            (Place::LineFeed, b'\r') => Place::Return,
            (Place::Line, b'\n') => Place::LineFeed,
            _ => Place::Line,
        }
    }

    /// The place behind these bytes. None is looked at behind the end.
    pub(crate) fn behind(self, bytes: &[u8]) -> Place
        ensures { result ≡ place_from self bytes.now }
    {
        let mut place = self;
        for byte in bytes {
            if place.is_end() {
                return place;
            }
            place = place.behind_byte(*byte);
        }
        place
    }
}
