ghost use Rattle.std.specs.Prelude.{◌≡◌, ◌<◌, [], ◌∷◌, ◌++◌, vec_len, vec_capacity, OnOk, OnErr, IfOk, map, option_map};
ghost use Rattle.cbor_profile.specs.Kind.{number_in, text_in, items_in, pairs_in};
ghost use Rattle.cbor_profile.specs.ItemTrees.{tree_of, trees, tree_pairs, items_of, pairs_of};

use dots_lists::{Bytes, NoMemory, Text};
use std::alloc::Global;

/// A data item (RFC 8949, section 3.1).
#[cycle(item)]
pub enum Item {
    Unsigned(u64),
    /// The number -1 - n.
    Negative(u64),
    Bytes(Bytes),
    Text(Text),
    Array(ItemList),
    Map(PairList),
    /// A tag's number and the item that it stands before (section 3.4).
    Tag(u64, Box<Item>),
    Bool(bool),
    Null,
}

/// The items of an array.
#[cycle(item)]
#[derive(Drop)]
pub struct ItemList {
    pub(crate) items: Vec<Item>,
}

/// The pairs of a map, each a key and its value.
#[cycle(item)]
#[derive(Drop)]
pub struct PairList {
    pub(crate) items: Vec<(Item, Item)>,
}

/// Written out, so that what holds no memory is let go where it stands: most items are numbers, and a call for each
/// takes longer.
impl Drop for Item {
    #[inline(always)]
    fn drop(self) {
        match self {
            Item::Unsigned(_) | Item::Negative(_) | Item::Bool(_) | Item::Null => {}
            Item::Bytes(_bytes) => {}
            Item::Text(_text) => {}
            Item::Array(_items) => {}
            Item::Map(_pairs) => {}
            Item::Tag(_, _inner) => {}
        }
    }
}

impl Item {
    /// The number, if the item is one.
    pub fn as_unsigned(&self) -> Option<u64>
        ensures { result ≡ number_in (tree_of self.now) }
    {
        match self {
            Item::Unsigned(number) => Some(*number),
            _ => None,
        }
    }

    /// The text, if the item is one.
    pub fn as_text(&self) -> Option<&Text>
        ensures { option_map (λ text. text.now) result ≡ text_in (tree_of self.now) }
    {
        match self {
            Item::Text(text) => Some(text),
            _ => None,
        }
    }

    /// The items of an array.
    pub fn as_array(&self) -> Option<&[Item]>
        ensures { option_map (λ items. items_of (map tree_of items.now)) result ≡ items_in (tree_of self.now) }
    {
        match self {
            Item::Array(list) => Some(list.items()),
            _ => None,
        }
    }

    /// The pairs of a map, each a key and its value.
    pub fn as_map(&self) -> Option<&[(Item, Item)]>
        ensures { option_map (λ pairs. pairs_of (map (λ p. (tree_of p.0, tree_of p.1)) pairs.now)) result
            ≡ pairs_in (tree_of self.now) }
    {
        match self {
            Item::Map(list) => Some(list.items()),
            _ => None,
        }
    }
}

impl ItemList {
    /// No items. Takes no memory.
    pub fn new(alloc: Global) -> Self
        ensures { trees result ≡ [] }
    {
        ItemList {
            items: Vec::new(alloc),
        }
    }

    /// No items, and room for so many.
    pub fn with_room(alloc: Global, room: usize) -> Result<Self, NoMemory>
        ensures { IfOk result (λ list. trees list ≡ []) }
    {
        let items = Vec::with_capacity(alloc, room)?;
        Ok(ItemList { items })
    }

    /// The same list, with room for one more.
    #[inline(always)]
    pub fn with_room_for_one(self) -> Result<Self, NoMemory>
        ensures same { IfOk result (λ list. trees list ≡ trees self) }
        ensures room { IfOk result (λ list. vec_len list.items < vec_capacity list.items) }
    {
        if self.items.len() == self.items.capacity() {
            return self.grown();
        }
        Ok(self)
    }

    #[cold]
    #[inline(never)]
    fn grown(self) -> Result<Self, NoMemory>
        ensures same { IfOk result (λ list. trees list ≡ trees self) }
        ensures room { IfOk result (λ list. vec_len list.items < vec_capacity list.items) }
    {
        let ItemList { mut items } = self;
        items.reserve(1)?;
        Ok(ItemList { items })
    }

    /// Puts one more behind the others, for which there is room.
    #[inline(always)]
    pub fn push_within(&mut self, item: Item)
        requires { vec_len self.old.items < vec_capacity self.old.items }
        ensures { trees self.new ≡ trees self.old ++ tree_of item ∷ [] }
    {
        self.items.push_reserved(item);
    }

    pub fn items(&self) -> &[Item]
        ensures { map tree_of result.now ≡ trees self.now }
    {
        self.items.as_slice()
    }

    pub fn push(&mut self, item: Item) -> Result<(), NoMemory>
        ensures ok { OnOk result (trees self.new ≡ trees self.old ++ tree_of item ∷ []) }
        ensures err { OnErr result (trees self.new ≡ trees self.old) }
    {
        self.items.push(item)?;
        Ok(())
    }
}

impl PairList {
    /// No pairs. Takes no memory.
    pub fn new(alloc: Global) -> Self
        ensures { tree_pairs result ≡ [] }
    {
        PairList {
            items: Vec::new(alloc),
        }
    }

    /// No pairs, and room for so many.
    pub fn with_room(alloc: Global, room: usize) -> Result<Self, NoMemory>
        ensures { IfOk result (λ list. tree_pairs list ≡ []) }
    {
        let items = Vec::with_capacity(alloc, room)?;
        Ok(PairList { items })
    }

    /// The same list, with room for one more.
    #[inline(always)]
    pub fn with_room_for_one(self) -> Result<Self, NoMemory>
        ensures same { IfOk result (λ list. tree_pairs list ≡ tree_pairs self) }
        ensures room { IfOk result (λ list. vec_len list.items < vec_capacity list.items) }
    {
        if self.items.len() == self.items.capacity() {
            return self.grown();
        }
        Ok(self)
    }

    #[cold]
    #[inline(never)]
    fn grown(self) -> Result<Self, NoMemory>
        ensures same { IfOk result (λ list. tree_pairs list ≡ tree_pairs self) }
        ensures room { IfOk result (λ list. vec_len list.items < vec_capacity list.items) }
    {
        let PairList { mut items } = self;
        items.reserve(1)?;
        Ok(PairList { items })
    }

    /// Puts one more behind the others, for which there is room.
    #[inline(always)]
    pub fn push_within(&mut self, pair: (Item, Item))
        requires { vec_len self.old.items < vec_capacity self.old.items }
        ensures { tree_pairs self.new ≡ tree_pairs self.old ++ (tree_of pair.0, tree_of pair.1) ∷ [] }
    {
        self.items.push_reserved(pair);
    }

    pub fn items(&self) -> &[(Item, Item)]
        ensures { map (λ p. (tree_of p.0, tree_of p.1)) result.now ≡ tree_pairs self.now }
    {
        self.items.as_slice()
    }

    pub fn push(&mut self, pair: (Item, Item)) -> Result<(), NoMemory>
        ensures ok { OnOk result (tree_pairs self.new ≡ tree_pairs self.old ++ (tree_of pair.0, tree_of pair.1) ∷ []) }
        ensures err { OnErr result (tree_pairs self.new ≡ tree_pairs self.old) }
    {
        self.items.push(pair)?;
        Ok(())
    }
}
