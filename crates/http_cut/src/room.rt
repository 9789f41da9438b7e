ghost use Rattle.std.specs.Prelude.{◌≡◌, vec_len, length};

use dots_lists::NoMemory;
use httparse::spans::{EMPTY_HEADER_SPAN, HeaderSpan};
use std::alloc::Global;

/// More fields than a head of 8,192 bytes can have, at three bytes each.
pub(crate) const MOST_FIELDS: usize = 2_731;

/// Room for the fields of a head. One serves all streams.
#[derive(Drop)]
pub struct HeadRoom {
    pub(crate) spans: Vec<HeaderSpan>,
    ghost sized: { vec_len spans ≡ 2731 },
}

impl HeadRoom {
    /// `NoMemory` only where the room isn't found.
    pub fn new(alloc: Global) -> Result<HeadRoom, NoMemory> {
        let spans = vec![in alloc; EMPTY_HEADER_SPAN; MOST_FIELDS]?;
        Ok(HeadRoom { spans })
    }
}
