//! The body of a request for a mitigation (RFC 9132, section 4.4.1).

ghost use Rattle.std.specs.Prelude.{◌≡◌, ◌≢◌, [], ◌∷◌, length, MatchOption};
ghost use Rattle.cbor_profile.specs.ItemTrees.{tree_of};
ghost use Rattle.dots_keys.specs.Fields.{sole_field};
ghost use Rattle.dots_keys.specs.Mitigations.{only_scope, mitigation_of};
ghost use Rattle.dots_keys.specs.Results.{Gives};

use crate::fields::Fields;
use crate::refusing::invalid;
use crate::reject::Reject;
use crate::request::MitigationBody;
use crate::scope::scope_of;
use cbor_profile::Item;
use std::alloc::Global;

/// `mitigation-scope` and `scope`.
const MITIGATION_SCOPE: u8 = 1;

const SCOPE: u8 = 2;

/// The element of a list of one.
fn only<T>(list: &[T]) -> Option<&T>
    ensures { MatchOption result (length list.now ≢ 1) (λ x. list.now ≡ x.now ∷ []) }
{
    match list {
        [x] => Some(x),
        _ => None,
    }
}

/// The body in an array of exactly one scope.
fn only_scope(alloc: Global, gateway: bool, item: &Item) -> Result<MitigationBody, Reject>
    ensures { Gives result (only_scope gateway (tree_of item.now)) }
{
    let Some(items) = item.as_array() else {
        return Err(invalid(SCOPE));
    };
    let Some(scope) = only(items) else {
        return Err(invalid(SCOPE));
    };
    scope_of(alloc, gateway, scope)
}

/// The body in the map under `mitigation-scope`.
fn mitigation_scope(alloc: Global, gateway: bool, item: &Item) -> Result<MitigationBody, Reject>
    ensures { Gives result (sole_field 1 2 (only_scope gateway) (tree_of item.now)) }
{
    let mut fields = Fields::of(item, MITIGATION_SCOPE)?;
    let scopes = fields.first(SCOPE)?;
    let body = only_scope(alloc, gateway, scopes)?;
    fields.end()?;
    Ok(body)
}

/// The body of a request for a mitigation, from a client or a gateway.
pub fn mitigation_of(alloc: Global, gateway: bool, item: &Item) -> Result<MitigationBody, Reject>
    ensures { Gives result (mitigation_of gateway (tree_of item.now)) }
{
    let mut fields = Fields::of(item, 0)?;
    let scope = fields.first(MITIGATION_SCOPE)?;
    let body = mitigation_scope(alloc, gateway, scope)?;
    fields.end()?;
    Ok(body)
}
