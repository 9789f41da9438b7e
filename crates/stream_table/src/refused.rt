/// Why a connection isn't taken.
#[derive(Clone, Copy, PartialEq, Eq)]
pub enum Refused {
    /// The peer is no client of the settings.
    Stranger,
    /// Two connections of the peer are open.
    Third,
}
