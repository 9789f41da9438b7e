use std::net::SocketAddr;

/// Where a datagram goes, and from which socket.
#[derive(Clone, Copy)]
pub struct Way {
    pub to: SocketAddr,
    /// The place of the socket. Where none is said it is the first for the family of the address.
    pub via: Option<usize>,
}
