//! What may not be asked for.

ghost use Rattle.std.specs.Prelude.{◌≡◌};
ghost use Rattle.rest_answers.specs.Known.{is_faulty};

use conflict_rules::{list_fault, scope_fault};
use data_channel::RestRequest;
use dots_settings::Settings;

/// Whether a request writes an alias with a prefix or host name, or an access list with a destination, that may not be asked for in the domain
/// of this number.
pub fn is_faulty(settings: &Settings, domain: u16, request: &RestRequest) -> bool
    ensures { result ≡ is_faulty settings.now domain request.now }
{
    match request {
        RestRequest::PutAlias { alias, .. } | RestRequest::PostAlias { alias, .. } => {
            scope_fault(settings, settings.prefixes_of(domain), &alias.asked).is_some()
        }
        RestRequest::PutAcl { acl, .. } | RestRequest::PostAcl { acl, .. } => {
            list_fault(settings.prefixes_of(domain), acl).is_some()
        }
        RestRequest::PutClient { .. }
        | RestRequest::PostClient { .. }
        | RestRequest::GetClient { .. }
        | RestRequest::DeleteClient { .. }
        | RestRequest::GetAlias { .. }
        | RestRequest::DeleteAlias { .. }
        | RestRequest::GetAliases { .. }
        | RestRequest::GetAcl { .. }
        | RestRequest::DeleteAcl { .. }
        | RestRequest::GetAcls { .. } => false,
    }
}
