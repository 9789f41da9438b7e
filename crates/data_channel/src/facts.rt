/// What is known of a request, where it is judged.
#[derive(Clone, Copy)]
pub struct RestFacts {
    /// What it asks for can't be a target, or isn't the domain's.
    pub fault: bool,
    /// The client's name is in use by another peer than the one that asks.
    pub taken: bool,
    /// The client is registered.
    pub registered: bool,
    /// What the request is about is there: the client, or the alias or access list of this name.
    pub there: bool,
    /// There may be no more of what the request is about: registered clients of the domain, or aliases or access lists of the client.
    pub full: bool,
}
