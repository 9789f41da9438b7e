//! A connection on which nothing came yet.

use http_cut::{HeadRoom, Stream};
use std::alloc::Global;

/// A stream, and room for the heads of its requests.
#[derive(Drop)]
pub struct Connection {
    pub stream: Stream,
    pub room: HeadRoom,
}

impl Connection {
    pub fn new(alloc: Global) -> Option<Self> {
        let stream = Stream::new(alloc).ok()?;
        let room = HeadRoom::new(alloc).ok()?;
        Some(Connection { stream, room })
    }
}
