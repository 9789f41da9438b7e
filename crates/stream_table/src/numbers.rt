ghost use Rattle.std.specs.Prelude.{◌≡◌, ℕ, List, MatchOption, Some, option_map, false};
ghost use Rattle.std.specs.List.{list_any};
ghost use Rattle.stream_table.specs.Lines.{is_number};
ghost use Rattle.stream_table.specs.Numbers.{numbered_lines, line_in};
ghost use Rattle.stream_table.specs.Places.{conn_of};

use crate::seat::Seat;

/// The numbers of the connections of a peer, in the order in which they were opened.
#[derive(Clone, Copy)]
pub enum Numbers {
    Free,
    One(u32),
    Two(u32, u32),
}

impl Numbers {
    /// Where the connection of this number stands.
    pub fn seat_of(self, conn: u32) -> Option<Seat>
        ensures { (older newer : List ℕ) → MatchOption result (list_any (is_number conn) (numbered_lines self older newer) ≡ false)
            (λ seat. option_map conn_of (line_in seat (numbered_lines self older newer)) ≡ Some conn) }
    {
        match self {
            Numbers::Free => None,
            Numbers::One(only) if only == conn => Some(Seat::Older),
            Numbers::One(_) => None,
            Numbers::Two(older, _) if older == conn => Some(Seat::Older),
            Numbers::Two(_, newer) if newer == conn => Some(Seat::Newer),
            Numbers::Two(_, _) => None,
        }
    }
}
