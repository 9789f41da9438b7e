//! The bytewise order of the deterministic encodings of items.

ghost use Rattle.std.specs.Prelude.{◌≡◌, ◌<◌, ◌+◌, ◌*◌, length, map};
ghost use Rattle.std.specs.Ordering.{nat_cmp};
ghost use Rattle.std.specs.Cmp.Lexicographic.{slice_cmp};
ghost use Rattle.cbor_profile.specs.Head.{head};
ghost use Rattle.cbor_profile.specs.Canon.{canon, canon_items, canon_pairs};
ghost use Rattle.cbor_profile.specs.Parts.{number_of, major, argument, content};
ghost use Rattle.cbor_profile.specs.Valid.{IsSound, AreSound, ArePairsSound};
ghost use Rattle.cbor_profile.specs.ItemTrees.{tree_of, items_of, pairs_of};

use crate::head_bytes::{FALSE, HeadBytes, NULL, TRUE};
use crate::item::Item;
use crate::major::Major;
use std::cmp::Ordering;

/// How the encodings of two items compare.
#[cycle(order)]
pub fn compare(left: &Item, right: &Item) -> Ordering
    requires left_sound { IsSound (tree_of left.now) }
    requires right_sound { IsSound (tree_of right.now) }
    ensures { result ≡ slice_cmp nat_cmp (canon (tree_of left.now)) (canon (tree_of right.now)) }
{
    match compare_heads(left, right) {
        Ordering::Equal => compare_contents(left, right),
        unequal => unequal,
    }
}

fn compare_heads(left: &Item, right: &Item) -> Ordering
    ensures { result ≡ slice_cmp nat_cmp
        (head (number_of (major (tree_of left.now))) (argument (tree_of left.now)))
        (head (number_of (major (tree_of right.now))) (argument (tree_of right.now))) }
{
    let (left_major, left_argument) = head_of(left);
    let (right_major, right_argument) = head_of(right);
    if left_argument < 24 && right_argument < 24 {
        let left = short_head(left_major, left_argument);
        return left.cmp(&short_head(right_major, right_argument));
    }
    let left = HeadBytes::new(left_major, left_argument);
    let right = HeadBytes::new(right_major, right_argument);
    left.as_slice().cmp(right.as_slice())
}

/// The head of an argument that the initial byte holds itself (RFC 8949, section 3).
fn short_head(major: Major, argument: u64) -> u8
    requires { argument < 24 }
    ensures { result ≡ 32 * number_of major + argument }
{
    32 * major.number() + argument as u8
}

/// The major type and the argument of an item's encoding.
fn head_of(item: &Item) -> (Major, u64)
    ensures kind { result.0 ≡ major (tree_of item.now) }
    ensures number { result.1 ≡ argument (tree_of item.now) }
{
    match item {
        Item::Unsigned(number) => (Major::Unsigned, *number),
        Item::Negative(number) => (Major::Negative, *number),
        Item::Bytes(bytes) => (Major::Bytes, bytes.items().len() as u64),
        Item::Text(text) => (Major::Text, text.bytes().len() as u64),
        Item::Array(list) => (Major::Array, list.items().len() as u64),
        Item::Map(list) => (Major::Map, list.items().len() as u64),
        Item::Tag(number, _) => (Major::Tag, *number),
        Item::Bool(false) => (Major::Simple, FALSE),
        Item::Bool(true) => (Major::Simple, TRUE),
        Item::Null => (Major::Simple, NULL),
    }
}

/// How what follows two equal heads compares.
#[cycle(order)]
fn compare_contents(left: &Item, right: &Item) -> Ordering
    requires left_sound { IsSound (tree_of left.now) }
    requires right_sound { IsSound (tree_of right.now) }
    requires same_major { major (tree_of left.now) ≡ major (tree_of right.now) }
    requires same_argument { argument (tree_of left.now) ≡ argument (tree_of right.now) }
    ensures { result ≡ slice_cmp nat_cmp (content (tree_of left.now)) (content (tree_of right.now)) }
{
    match (left, right) {
        (Item::Bytes(left), Item::Bytes(right)) => left.items().cmp(right.items()),
        (Item::Text(left), Item::Text(right)) => left.bytes().cmp(right.bytes()),
        (Item::Array(left), Item::Array(right)) => {
            compare_items(left.items.as_slice(), right.items.as_slice())
        }
        (Item::Map(left), Item::Map(right)) => {
            compare_pairs(left.items.as_slice(), right.items.as_slice())
        }
        (Item::Tag(_, left), Item::Tag(_, right)) => compare(left, right),
        _ => Ordering::Equal,
    }
}

#[cycle(order)]
fn compare_items(left: &[Item], right: &[Item]) -> Ordering
    requires left_sound { AreSound (items_of (map tree_of left.now)) }
    requires right_sound { AreSound (items_of (map tree_of right.now)) }
    requires same_count { length left.now ≡ length right.now }
    ensures { result ≡ slice_cmp nat_cmp
        (canon_items (items_of (map tree_of left.now))) (canon_items (items_of (map tree_of right.now))) }
{
    for (i, item) in left.iter().enumerate() {
        match compare(item, &right[i]) {
            Ordering::Equal => {}
            unequal => return unequal,
        }
    }
    Ordering::Equal
}

#[cycle(order)]
fn compare_pairs(left: &[(Item, Item)], right: &[(Item, Item)]) -> Ordering
    requires left_sound { ArePairsSound (pairs_of (map (λ p. (tree_of p.0, tree_of p.1)) left.now)) }
    requires right_sound { ArePairsSound (pairs_of (map (λ p. (tree_of p.0, tree_of p.1)) right.now)) }
    requires same_count { length left.now ≡ length right.now }
    ensures { result ≡ slice_cmp nat_cmp
        (canon_pairs (pairs_of (map (λ p. (tree_of p.0, tree_of p.1)) left.now)))
        (canon_pairs (pairs_of (map (λ p. (tree_of p.0, tree_of p.1)) right.now))) }
{
    for (i, (key, value)) in left.iter().enumerate() {
        let (other_key, other_value) = &right[i];
        match compare(key, other_key) {
            Ordering::Equal => {}
            unequal => return unequal,
        }
        match compare(value, other_value) {
            Ordering::Equal => {}
            unequal => return unequal,
        }
    }
    Ordering::Equal
}
