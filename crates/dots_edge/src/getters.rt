//! The getters of a peer in a list, that which was used last in front.

ghost use Rattle.std.specs.Prelude.{◌≡◌, ◌+◌, ◌<◌, ◌≤◌, ◌∷◌, vec_len, vec_capacity, OnSome, IfNone, find, position};
ghost use Rattle.std.specs.Set.{remove_key};
ghost use Rattle.dots_edge.specs.Returns.{has_token, way_of, with_getter, renewed};

use crate::getter::Getter;
use crate::way::Way;

/// How many getters of a peer there are at most. A server of 16 domains has at most 136 observers of a peer: 8 for each domain that it
/// may act for, and 8 for its own session. So as long as it sends no other GETs, each observer has its place.
pub const MAX_GETTERS: usize = 136;

/// The place of that with the token.
fn place_of(getters: &[Getter], token: &[u8]) -> Option<usize>
    ensures { result ≡ position (has_token token.now) getters.now }
{
    getters
        .iter()
        .position(|getter| getter.token.bytes() == token)
}

/// Takes out that with the token.
fn take_out(getters: &mut Vec<Getter>, token: &[u8]) -> Option<Getter>
    ensures found { result ≡ find (has_token token.now) getters.old.items }
    ensures rest { getters.new.items ≡ remove_key (has_token token.now) getters.old.items }
    ensures none { IfNone result (getters.new.items ≡ getters.old.items) }
    ensures len { vec_len getters.new ≤ vec_len getters.old }
    ensures fewer { OnSome result (vec_len getters.new + 1 ≡ vec_len getters.old) }
    ensures capacity { vec_capacity getters.new ≡ vec_capacity getters.old }
{
    match place_of(getters.as_slice(), token) {
        Some(place) => Some(getters.remove(place)),
        None => None,
    }
}

/// Puts one in front of the others.
fn put_first(getters: &mut Vec<Getter>, getter: Getter)
    requires { vec_len getters.old < vec_capacity getters.old }
    ensures items { getters.new.items ≡ getter ∷ getters.old.items }
    ensures len { vec_len getters.new ≡ vec_len getters.old + 1 }
    ensures capacity { vec_capacity getters.old ≤ vec_capacity getters.new }
{
    if getters.insert(0, getter).is_err() {
        unreachable!();
    }
}

/// A GET came from there. Of more than so many getters that which was used longest ago is let go.
pub(crate) fn note(getters: &mut Vec<Getter>, getter: Getter)
    requires room { MAX_GETTERS ≤ vec_capacity getters.old }
    requires within { vec_len getters.old ≤ MAX_GETTERS }
    ensures items { getters.new.items ≡ with_getter getter getters.old.items }
    ensures len { vec_len getters.new ≤ MAX_GETTERS }
    ensures capacity { MAX_GETTERS ≤ vec_capacity getters.new }
{
    let token = getter.token;
    let _old = take_out(getters, token.bytes());
    getters.truncate(MAX_GETTERS - 1);
    put_first(getters, getter);
}

/// Where the GETs with the token come from, which now is used.
pub(crate) fn renew(getters: &mut Vec<Getter>, token: &[u8]) -> Option<Way>
    requires room { MAX_GETTERS ≤ vec_capacity getters.old }
    requires within { vec_len getters.old ≤ MAX_GETTERS }
    ensures way { result ≡ way_of token.now getters.old.items }
    ensures items { getters.new.items ≡ renewed token.now getters.old.items }
    ensures len { vec_len getters.new ≤ MAX_GETTERS }
    ensures capacity { MAX_GETTERS ≤ vec_capacity getters.new }
{
    let getter = take_out(getters, token)?;
    let way = getter.way;
    put_first(getters, getter);
    Some(way)
}
