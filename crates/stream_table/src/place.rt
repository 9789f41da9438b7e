use crate::seat::Seat;

/// Where a connection stands: at this place of the rows, and there as the older or the newer.
#[derive(Clone, Copy)]
pub struct LinePlace {
    pub(crate) row: usize,
    pub(crate) seat: Seat,
}
