use dots_lists::Name;

/// The parameters of a path to a mitigation (RFC 9132, section 4.4.1).
#[derive(Drop)]
pub struct MitigationPath {
    /// The domain for which a gateway asks. A client's own is left out, whatever it says.
    pub cdid: Option<Name>,
    /// The client. It has no slash.
    pub cuid: Name,
    /// The mitigation. It stands in every PUT and DELETE.
    pub mid: Option<u32>,
}

/// Which part of a mitigation a GET wants (RFC 9132, section 4.4.2).
#[derive(Clone, Copy)]
pub enum Content {
    /// `c=a`, and where there is no query.
    All,
    /// `c=c`.
    Config,
    /// `c=n`.
    State,
}

/// What a GET says of notifications (RFC 7641, section 2).
#[derive(Clone, Copy)]
pub enum Observe {
    /// Nothing.
    No,
    /// 0.
    Register,
    /// 1.
    Deregister,
}
