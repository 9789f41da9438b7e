//! The fields of a map.

ghost use Rattle.std.specs.Prelude.{◌≡◌, [], ◌∷◌, ℕ, List, Ok, Err, IfOk, IfErr, OnOk, MatchResult, MatchOption};
ghost use Rattle.cbor_profile.specs.ItemTrees.{tree_of};
ghost use Rattle.dots_keys.specs.Fields.{Field, known, unknown, fields_of, first_field, refusal_of, all_unsigned};
ghost use Rattle.dots_keys.specs.FieldValues.{fields_left, pairs_seen};
ghost use Rattle.dots_keys.specs.Results.{Reads, unknown_key};

use crate::keys::{Role, key_role};
use crate::refusing::{invalid, missing, unknown};
use crate::reject::Reject;
use cbor_profile::Item;

/// The fields of a map that are still to be read, in the order of their keys.
#[derive(Drop)]
pub struct Fields<'a> {
    pairs: &'a [(Item, Item)],
}

impl<'a> Fields<'a> {
    /// The fields of an item that stands under this key and has to be a map with unsigned keys.
    pub fn of(item: &'a Item, under: u8) -> Result<Self, Reject>
        ensures { Reads fields_left result (fields_of under (tree_of item.now)) }
    {
        let Some(pairs) = item.as_map() else {
            return Err(invalid(under));
        };
        if !are_unsigned(pairs) {
            return Err(invalid(under));
        }
        Ok(Fields { pairs })
    }

    /// The next field: its key, which is one of the table, and its value.
    pub fn next(&mut self) -> Result<Option<(u8, &'a Item)>, Reject>
        ensures found { IfOk result (λ found. MatchOption found (fields_left self.old ≡ [])
            (λ field. fields_left self.old ≡ known field.0 (tree_of field.1.now) ∷ fields_left self.new)) }
        ensures unknown { IfErr result
            (λ reject. (n : ℕ) × (later : List Field) × (fields_left self.old ≡ unknown n ∷ later) × (reject ≡ unknown_key n)) }
    {
        while let Some((pair, behind)) = self.pairs.split_first() {
            self.pairs = behind;
            let Some(number) = pair.0.as_unsigned() else {
                continue;
            };
            match key_role(number) {
                Role::Known(number) => return Ok(Some((number, &pair.1))),
                Role::Unknown(number) => return Err(unknown(number)),
                Role::Ignored => {}
            }
        }
        Ok(None)
    }

    /// The value of the next field, which has to have this key.
    pub fn first(&mut self, key: u8) -> Result<&'a Item, Reject>
        ensures { MatchResult result
            (λ value. first_field key (fields_left self.old) ≡ Ok (tree_of value.now, fields_left self.new))
            (λ reject. first_field key (fields_left self.old) ≡ Err reject) }
    {
        let Some((found, value)) = self.next()? else {
            return Err(missing(key));
        };
        if found != key {
            return Err(invalid(found));
        }
        Ok(value)
    }

    /// Whether nothing more than ignored fields is left.
    pub fn end(&mut self) -> Result<(), Reject>
        ensures ok { OnOk result (fields_left self.old ≡ []) }
        ensures err { IfErr result
            (λ reject. (field : Field) × (later : List Field) × (fields_left self.old ≡ field ∷ later) × (reject ≡ refusal_of field)) }
    {
        match self.next()? {
            Some((key, _)) => Err(invalid(key)),
            None => Ok(()),
        }
    }
}

/// Whether each key is an unsigned number.
fn are_unsigned(pairs: &[(Item, Item)]) -> bool
    ensures { result ≡ all_unsigned (pairs_seen pairs.now) }
{
    let mut rest = pairs;
    while let Some((pair, behind)) = rest.split_first() {
        if pair.0.as_unsigned().is_none() {
            return false;
        }
        rest = behind;
    }
    true
}
