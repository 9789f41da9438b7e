//! Refusals of a body.

ghost use Rattle.std.specs.Prelude.{◌≡◌};
ghost use Rattle.dots_keys.specs.Results.{invalid, missing, unknown_key};

use crate::reject::{Cause, Reject};

/// The key can't stand where it does, or its value can't.
pub fn invalid(key: u8) -> Reject
    ensures { result ≡ invalid key }
{
    Reject::Body(Cause::Invalid(key))
}

/// The key is missing.
pub fn missing(key: u8) -> Reject
    ensures { result ≡ missing key }
{
    Reject::Body(Cause::Missing(key))
}

/// The number is no key of the table.
pub fn unknown(key: u64) -> Reject
    ensures { result ≡ unknown_key key }
{
    Reject::Body(Cause::Unknown(key))
}
