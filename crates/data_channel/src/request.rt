use acl_lists::{Acl, Alias};
use dots_lists::Name;

/// A request of the data channel that can be carried out (RFC 8783, sections 4.3, 6 and 7): the client's `cuid`, and what is
/// to be done below it. A POST creates, a PUT creates or replaces.
#[derive(Drop)]
pub enum RestRequest {
    PutClient { cuid: Name },
    PostClient { cuid: Name },
    GetClient { cuid: Name },
    DeleteClient { cuid: Name },
    PutAlias { cuid: Name, alias: Alias },
    PostAlias { cuid: Name, alias: Alias },
    GetAlias { cuid: Name, name: Name },
    DeleteAlias { cuid: Name, name: Name },
    GetAliases { cuid: Name },
    PutAcl { cuid: Name, acl: Acl },
    PostAcl { cuid: Name, acl: Acl },
    GetAcl { cuid: Name, name: Name },
    DeleteAcl { cuid: Name, name: Name },
    GetAcls { cuid: Name },
}

/// What is asked before the body is read.
#[derive(Drop)]
pub enum Head {
    /// A request without a body.
    Plain(RestRequest),
    /// A request that its body makes whole.
    Wants(Wanted),
}

/// A request whose body isn't read yet.
#[derive(Drop)]
pub enum Wanted {
    PostClient,
    PutClient { cuid: Name },
    /// An alias or an access list of a client.
    PostBelow { cuid: Name },
    PutAlias { cuid: Name, name: Name },
    PutAcl { cuid: Name, name: Name },
}

/// A resource, its names decoded.
#[derive(Drop)]
pub enum Resource {
    Root,
    Client(Name),
    Aliases(Name),
    Alias(Name, Name),
    Acls(Name),
    Acl(Name, Name),
}

/// The methods that some resource has.
#[derive(Clone, Copy)]
pub enum Verb {
    Get,
    Put,
    Post,
    Delete,
}
