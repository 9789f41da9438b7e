//! The pairs of a map while it is read. Senders mostly put them in the order of their keys, so what another order
//! needs is marked as cold.

ghost use Rattle.std.specs.Prelude.{◌≡◌, [], true, false, IsTrue, map, IfOk, OnOk, IfSome, IfNone};
ghost use Rattle.std.specs.List.{AllByRecursion};
ghost use Rattle.std.specs.declared.cmp.Ordering.TheVariants.{Less, Equal};
ghost use Rattle.cbor_profile.specs.declared.item.Item.TheVariants.{Unsigned};
ghost use Rattle.cbor_profile.specs.Tree.{pairs_of};
ghost use Rattle.cbor_profile.specs.Canon.{canon};
ghost use Rattle.cbor_profile.specs.Valid.{IsSound, KeysRise};
ghost use Rattle.cbor_profile.specs.ItemTrees.{tree_of, tree_pairs, pair_of};
ghost use Rattle.cbor_profile.specs.Keys.{has_key, put};
ghost use Rattle.cbor_profile.specs.Gathering.{encoded_pairs, AreEncoded, gathered, IsGathered, HasEncodings, AllBefore, IsAtEncoding, IsOpenFor};

use crate::item::{Item, PairList};
use crate::order::compare;
use crate::writing::write_item;
use dots_lists::NoMemory;
use std::alloc::Global;
use std::cmp::Ordering;
use std::collections::BTreeMap;

/// Pairs, each at the deterministic encoding of its key.
type EncodedPairs = BTreeMap<Vec<u8>, (Item, Item)>;

/// The pairs that were read, in bytewise order of their keys' deterministic encodings (RFC 8949, section 4.2.1).
#[derive(Drop)]
pub enum Gathered {
    /// Each key came after the one before it, as they do where the sender has ordered them.
    Rising(PairList),
    /// Keys came in another order.
    ByEncoding(EncodedPairs),
}

/// Where the pair of a new key goes.
#[derive(Drop)]
pub enum Place {
    /// Behind the last one.
    Last,
    /// At this encoding of its key.
    At(Vec<u8>),
}

impl Gathered {
    /// No pairs. Takes no memory.
    pub fn new(alloc: Global) -> Self
        ensures none { gathered result ≡ [] }
        ensures gathered { IsGathered result }
    {
        Gathered::Rising(PairList::new(alloc))
    }

    /// The place for a pair with the key, or None where one of the pairs has the key.
    pub fn find_place(&mut self, alloc: Global, key: &Item) -> Result<Option<Place>, NoMemory>
        requires gathered { IsGathered self.old }
        requires key_sound { IsSound (tree_of key.now) }
        ensures taken { IfOk result (λ place. IfNone place (has_key (tree_of key.now) (gathered self.old) ≡ true)) }
        ensures fresh { IfOk result (λ place. IfSome place (λ _. has_key (tree_of key.now) (gathered self.old) ≡ false)) }
        ensures same { OnOk result (gathered self.new ≡ gathered self.old) }
        ensures kept { OnOk result (HasEncodings self.new) }
        ensures open { IfOk result (λ place. IfSome place (IsOpenFor self.new (tree_of key.now))) }
    {
        match self {
            Gathered::Rising(list) => match compare_to_last(list.items(), key) {
                Ordering::Less => Ok(Some(Place::Last)),
                Ordering::Equal => Ok(None),
                Ordering::Greater => {
                    let pairs = by_encoding(alloc, list)?;
                    let place = place_among(alloc, &pairs, key)?;
                    *self = Gathered::ByEncoding(pairs);
                    Ok(place)
                }
            },
            Gathered::ByEncoding(pairs) => place_among(alloc, pairs, key),
        }
    }

    /// Puts a pair with a new key in its place.
    pub fn put(&mut self, place: Place, key: Item, value: Item) -> Result<(), NoMemory>
        requires kept { HasEncodings self.old }
        requires fresh { has_key (tree_of key) (gathered self.old) ≡ false }
        requires open { IsOpenFor self.old (tree_of key) place }
        ensures pairs { OnOk result (gathered self.new ≡ put (tree_of key) (tree_of value) (gathered self.old)) }
        ensures kept { OnOk result (HasEncodings self.new) }
    {
        match self {
            Gathered::Rising(list) => match place {
                Place::Last => list.push((key, value)),
                Place::At(_) => unreachable!(),
            },
            Gathered::ByEncoding(pairs) => match place {
                Place::At(encoding) => insert_pair(pairs, encoding, (key, value)),
                Place::Last => unreachable!(),
            },
        }
    }

    /// The list of the pairs.
    pub fn into_list(self, alloc: Global) -> Result<PairList, NoMemory>
        ensures { IfOk result (λ list. tree_pairs list ≡ gathered self) }
    {
        match self {
            Gathered::Rising(list) => Ok(list),
            Gathered::ByEncoding(pairs) => list_of(alloc, pairs),
        }
    }
}

/// Puts a pair whose key is new at its key's encoding.
#[cold]
#[inline(never)]
fn insert_pair(
    pairs: &mut EncodedPairs,
    encoding: Vec<u8>,
    pair: (Item, Item),
) -> Result<(), NoMemory>
    requires kept { AreEncoded pairs.old.entries }
    requires encoding { encoding.items ≡ canon (tree_of pair.0) }
    requires fresh { has_key (tree_of pair.0) (encoded_pairs pairs.old.entries) ≡ false }
    ensures pairs { OnOk result (encoded_pairs pairs.new.entries ≡ put (tree_of pair.0) (tree_of pair.1) (encoded_pairs pairs.old.entries)) }
    ensures kept { OnOk result (AreEncoded pairs.new.entries) }
{
    pairs.insert(encoding, pair)?;
    Ok(())
}

/// How the last pair's key compares with this one. No key comes before any.
pub fn compare_to_last(pairs: &[(Item, Item)], key: &Item) -> Ordering
    requires rise { KeysRise (pairs_of (map pair_of pairs.now)) }
    requires sound { AllByRecursion (λ p. IsSound p.0) (map pair_of pairs.now) }
    requires key_sound { IsSound (tree_of key.now) }
    ensures less { result ≡ Less → AllBefore (tree_of key.now) (map pair_of pairs.now) }
    ensures equal { result ≡ Equal → has_key (tree_of key.now) (map pair_of pairs.now) ≡ true }
{
    match pairs.last() {
        Some((last, _)) => compare(last, key),
        None => Ordering::Less,
    }
}

/// Whether a number, as a key, comes after the last pair's.
pub fn comes_last(pairs: &[(Item, Item)], number: u64) -> bool
    requires rise { KeysRise (pairs_of (map pair_of pairs.now)) }
    requires sound { AllByRecursion (λ p. IsSound p.0) (map pair_of pairs.now) }
    ensures { IsTrue result → AllBefore (tree_of (Unsigned number)) (map pair_of pairs.now) }
{
    compare_to_last(pairs, &Item::Unsigned(number)).is_lt()
}

/// Takes the pairs of a list, whose keys rise, and keeps each at its key's encoding.
#[cold]
#[inline(never)]
fn by_encoding(alloc: Global, list: &mut PairList) -> Result<EncodedPairs, NoMemory>
    requires { KeysRise (pairs_of (tree_pairs list.old)) }
    ensures pairs { IfOk result (λ pairs. encoded_pairs pairs.entries ≡ tree_pairs list.old) }
    ensures kept { IfOk result (λ pairs. AreEncoded pairs.entries) }
{
    let mut pairs = BTreeMap::new(alloc);
    while let Some(pair) = list.items.pop() {
        let encoding = encoding_of(alloc, &pair.0)?;
        insert_pair(&mut pairs, encoding, pair)?;
    }
    Ok(pairs)
}

/// The place for a pair with the key by its encoding, or None where one of the pairs has the key.
#[cold]
#[inline(never)]
fn place_among(alloc: Global, pairs: &EncodedPairs, key: &Item) -> Result<Option<Place>, NoMemory>
    requires kept { AreEncoded pairs.now.entries }
    ensures taken { IfOk result (λ place. IfNone place (has_key (tree_of key.now) (encoded_pairs pairs.now.entries) ≡ true)) }
    ensures fresh { IfOk result (λ place. IfSome place (λ _. has_key (tree_of key.now) (encoded_pairs pairs.now.entries) ≡ false)) }
    ensures at { IfOk result (λ place. IfSome place (IsAtEncoding (tree_of key.now))) }
{
    let encoding = encoding_of(alloc, key)?;
    if pairs.contains_key(encoding.as_slice()) {
        return Ok(None);
    }
    Ok(Some(Place::At(encoding)))
}

/// The deterministic encoding of a key.
fn encoding_of(alloc: Global, key: &Item) -> Result<Vec<u8>, NoMemory>
    ensures { IfOk result (λ bytes. bytes.items ≡ canon (tree_of key.now)) }
{
    let mut bytes = Vec::new(alloc);
    write_item(&mut bytes, key)?;
    Ok(bytes)
}

/// The list of the pairs, in the order of their encodings.
#[cold]
#[inline(never)]
fn list_of(alloc: Global, pairs: EncodedPairs) -> Result<PairList, NoMemory>
    ensures { IfOk result (λ list. tree_pairs list ≡ encoded_pairs pairs.entries) }
{
    let items: Vec<(Item, Item)> = pairs.into_values().collect(alloc)?;
    Ok(PairList { items })
}
