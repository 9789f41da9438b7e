//! What a grant says.

ghost use Rattle.std.specs.Prelude.{◌≡◌, ◌≢◌, ℤ, [], ◌∷◌, length, MatchOption, true, false};
ghost use Rattle.cbor_profile.specs.Tree.{Tree, unsigned};
ghost use Rattle.cbor_profile.specs.ItemTrees.{tree_of};
ghost use Rattle.reply_bodies.specs.Maps.{sole, integer};
ghost use Rattle.reply_bodies.specs.Mitigations.{granted_scope, granted_tree};
ghost use Rattle.dots_client.specs.Grants.{IsGranted, only_of};

use cbor_profile::Item;

/// The keys of a grant (RFC 9132, section 6).
const MITIGATION_SCOPE: u64 = 1;

const SCOPE: u64 = 2;

const MID: u64 = 5;

const LIFETIME: u64 = 14;

/// The greatest lifetime in seconds, 2^31 - 1.
const MAX_LIFETIME: u64 = 2147483647;

/// The element of a list of one.
fn only<T>(list: &[T]) -> Option<&T>
    ensures { MatchOption result (length list.now ≢ 1) (λ x. list.now ≡ x.now ∷ []) }
{
    match list {
        [x] => Some(x),
        _ => None,
    }
}

/// The value of a map of this one key.
fn value_under(item: &Item, key: u64) -> Option<&Item>
    ensures { MatchOption result ((value : Tree) → tree_of item.now ≢ sole key value) (λ value. tree_of item.now ≡ sole key (tree_of value.now)) }
{
    let Some(pairs) = item.as_map() else {
        return None;
    };
    let Some(pair) = only(pairs) else {
        return None;
    };
    let (first, value) = pair;
    if !is_number(first, key) {
        return None;
    }
    Some(value)
}

/// The item of an array of one.
fn only_item(item: &Item) -> Option<&Item>
    ensures { MatchOption result ((one : Tree) → tree_of item.now ≢ only_of one) (λ one. tree_of item.now ≡ only_of (tree_of one.now)) }
{
    let Some(items) = item.as_array() else {
        return None;
    };
    only(items)
}

/// A lifetime that can be granted.
fn lifetime_in(item: &Item) -> Option<i32>
    ensures { MatchOption result ((lifetime : ℤ) → IsGranted lifetime → tree_of item.now ≢ integer lifetime) (λ lifetime. IsGranted lifetime × (tree_of item.now ≡ integer lifetime)) }
{
    match item {
        Item::Unsigned(seconds) => {
            if *seconds < 1 || *seconds > MAX_LIFETIME {
                return None;
            }
            Some(*seconds as i32)
        }
        Item::Negative(0) => Some(-1),
        _ => None,
    }
}

/// The elements of a list of two.
fn two<T>(list: &[T]) -> Option<(&T, &T)>
    ensures { MatchOption result (length list.now ≢ 2) (λ xs. list.now ≡ xs.0.now ∷ xs.1.now ∷ []) }
{
    match list {
        [x, y] => Some((x, y)),
        _ => None,
    }
}

/// Whether the item is this number.
fn is_number(item: &Item, number: u64) -> bool
    ensures yes { result ≡ true → tree_of item.now ≡ unsigned number }
    ensures no { result ≡ false → tree_of item.now ≢ unsigned number }
{
    item.as_unsigned() == Some(number)
}

/// The lifetime in the scope of this mid.
fn lifetime_of(scope: &Item, mid: u32) -> Option<i32>
    ensures { MatchOption result
        ((lifetime : ℤ) → IsGranted lifetime → tree_of scope.now ≢ granted_scope mid lifetime)
        (λ lifetime. IsGranted lifetime × (tree_of scope.now ≡ granted_scope mid lifetime)) }
{
    let Some(fields) = scope.as_map() else {
        return None;
    };
    let Some((first, second)) = two(fields) else {
        return None;
    };
    if !is_number(&first.0, MID) || !is_number(&first.1, u64::from(mid)) {
        return None;
    }
    if !is_number(&second.0, LIFETIME) {
        return None;
    }
    lifetime_in(&second.1)
}

/// The lifetime in the body of a grant of this mid, in seconds, or -1 for an indefinite one. None exactly where it is none (RFC
/// 9132, section 4.4.1.3).
pub fn granted_in(item: &Item, mid: u32) -> Option<i32>
    ensures { MatchOption result
        ((lifetime : ℤ) → IsGranted lifetime → tree_of item.now ≢ granted_tree mid lifetime)
        (λ lifetime. IsGranted lifetime × (tree_of item.now ≡ granted_tree mid lifetime)) }
{
    let inner = value_under(item, MITIGATION_SCOPE)?;
    let scopes = value_under(inner, SCOPE)?;
    let scope = only_item(scopes)?;
    lifetime_of(scope, mid)
}
