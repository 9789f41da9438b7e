/// Who asks.
#[derive(Clone, Copy)]
pub struct Caller {
    /// The peer of the connection.
    pub peer: u32,
    /// Its domain, by its number in the settings.
    pub domain: u16,
}
