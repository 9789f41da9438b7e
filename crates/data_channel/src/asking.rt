//! What a request does, and to which resource.

ghost use Rattle.std.specs.Prelude.{◌≡◌, option_copied};
ghost use Rattle.data_channel.specs.Asking.{verb_of, kind_of, cuid_of, name_of};

use crate::request::RestRequest;
use dots_lists::Name;

/// What a request does.
#[derive(Clone, Copy)]
pub enum RestVerb {
    /// It reads.
    Get,
    /// It creates or replaces.
    Put,
    /// It creates.
    Post,
    /// It deletes.
    Delete,
}

/// What a request is about.
#[derive(Clone, Copy)]
pub enum RestKind {
    /// A client.
    Client,
    /// An alias of a client.
    Alias,
    /// All aliases of a client.
    Aliases,
    /// An access list of a client.
    Acl,
    /// All access lists of a client.
    Acls,
}

/// What a request does.
pub fn verb_of(request: &RestRequest) -> RestVerb
    ensures { result ≡ verb_of request.now }
{
    match request {
        RestRequest::PutClient { .. } | RestRequest::PutAlias { .. } | RestRequest::PutAcl { .. } =>
            RestVerb::Put,
        RestRequest::PostClient { .. }
        | RestRequest::PostAlias { .. }
        | RestRequest::PostAcl { .. } => RestVerb::Post,
        RestRequest::GetClient { .. }
        | RestRequest::GetAlias { .. }
        | RestRequest::GetAliases { .. }
        | RestRequest::GetAcl { .. }
        | RestRequest::GetAcls { .. } => RestVerb::Get,
        RestRequest::DeleteClient { .. }
        | RestRequest::DeleteAlias { .. }
        | RestRequest::DeleteAcl { .. } => RestVerb::Delete,
    }
}

/// What a request is about.
pub fn kind_of(request: &RestRequest) -> RestKind
    ensures { result ≡ kind_of request.now }
{
    match request {
        RestRequest::PutClient { .. }
        | RestRequest::PostClient { .. }
        | RestRequest::GetClient { .. }
        | RestRequest::DeleteClient { .. } => RestKind::Client,
        RestRequest::PutAlias { .. }
        | RestRequest::PostAlias { .. }
        | RestRequest::GetAlias { .. }
        | RestRequest::DeleteAlias { .. } => RestKind::Alias,
        RestRequest::GetAliases { .. } => RestKind::Aliases,
        RestRequest::PutAcl { .. }
        | RestRequest::PostAcl { .. }
        | RestRequest::GetAcl { .. }
        | RestRequest::DeleteAcl { .. } => RestKind::Acl,
        RestRequest::GetAcls { .. } => RestKind::Acls,
    }
}

/// The client that a request is about, or below which it is.
pub fn cuid_of(request: &RestRequest) -> &Name
    ensures { result.now ≡ cuid_of request.now }
{
    match request {
        RestRequest::PutClient { cuid }
        | RestRequest::PostClient { cuid }
        | RestRequest::GetClient { cuid }
        | RestRequest::DeleteClient { cuid }
        | RestRequest::PutAlias { cuid, .. }
        | RestRequest::PostAlias { cuid, .. }
        | RestRequest::GetAlias { cuid, .. }
        | RestRequest::DeleteAlias { cuid, .. }
        | RestRequest::GetAliases { cuid }
        | RestRequest::PutAcl { cuid, .. }
        | RestRequest::PostAcl { cuid, .. }
        | RestRequest::GetAcl { cuid, .. }
        | RestRequest::DeleteAcl { cuid, .. }
        | RestRequest::GetAcls { cuid } => cuid,
    }
}

/// The name of the alias or access list that a request is about; None for a client and for all of a kind.
pub fn name_of(request: &RestRequest) -> Option<&Name>
    ensures { option_copied result ≡ name_of request.now }
{
    match request {
        RestRequest::PutAlias { alias, .. } | RestRequest::PostAlias { alias, .. } => {
            Some(&alias.name)
        }
        RestRequest::PutAcl { acl, .. } | RestRequest::PostAcl { acl, .. } => Some(&acl.name),
        RestRequest::GetAlias { name, .. }
        | RestRequest::DeleteAlias { name, .. }
        | RestRequest::GetAcl { name, .. }
        | RestRequest::DeleteAcl { name, .. } => Some(name),
        RestRequest::PutClient { .. }
        | RestRequest::PostClient { .. }
        | RestRequest::GetClient { .. }
        | RestRequest::DeleteClient { .. }
        | RestRequest::GetAliases { .. }
        | RestRequest::GetAcls { .. } => None,
    }
}
