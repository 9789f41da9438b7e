//! Numbers as values of a configuration (RFC 9132, section 4.5.2).

ghost use Rattle.std.specs.Prelude.{◌≡◌};
ghost use Rattle.cbor_profile.specs.ItemTrees.{tree_of};
ghost use Rattle.dots_keys.specs.Configurations.{number_under, decimal_under, hundredths_of_one, fraction_in, decimal_in, current_decimal};
ghost use Rattle.cbor_profile.specs.Kind.{items_in};

use crate::fields::Fields;
use crate::refusing::invalid;
use crate::reject::Reject;
use cbor_profile::Item;

/// `current-value` and `current-value-decimal`.
const CURRENT_VALUE: u8 = 36;

const CURRENT_VALUE_DECIMAL: u8 = 43;

/// The number in the map under this key.
pub fn number_under(key: u8, item: &Item) -> Result<u64, Reject>
    ensures { result ≡ number_under key (tree_of item.now) }
{
    let mut fields = Fields::of(item, key)?;
    let value = fields.first(CURRENT_VALUE)?;
    let number = value.as_unsigned().ok_or(invalid(CURRENT_VALUE))?;
    fields.end()?;
    Ok(number)
}

/// The decimal in the map under this key, in hundredths.
pub fn decimal_under(key: u8, item: &Item) -> Result<u64, Reject>
    ensures { result ≡ decimal_under key (tree_of item.now) }
{
    let mut fields = Fields::of(item, key)?;
    let value = fields.first(CURRENT_VALUE_DECIMAL)?;
    let number = decimal_in(value).ok_or(invalid(CURRENT_VALUE_DECIMAL))?;
    fields.end()?;
    Ok(number)
}

/// What a decimal fraction is worth in hundredths (RFC 8949, section 3.4.4).
fn decimal_in(item: &Item) -> Option<u64>
    ensures { result ≡ decimal_in (tree_of item.now) }
{
    match item {
        Item::Tag(4, inner) => fraction_in(inner),
        _ => None,
    }
}

/// What an array of an exponent and a mantissa is worth in hundredths.
fn fraction_in(item: &Item) -> Option<u64>
    ensures { result ≡ fraction_in (items_in (tree_of item.now)) }
{
    let Some(items) = item.as_array() else {
        return None;
    };
    let [exponent, mantissa] = items else {
        return None;
    };
    let Some(unit) = hundredths_of_one(exponent) else {
        return None;
    };
    let Some(mantissa) = mantissa.as_unsigned() else {
        return None;
    };
    mantissa.checked_mul(unit)
}

/// What one is worth at an exponent of -2, -1 or 0.
fn hundredths_of_one(exponent: &Item) -> Option<u64>
    ensures { result ≡ hundredths_of_one (tree_of exponent.now) }
{
    match exponent {
        Item::Negative(1) => Some(1),
        Item::Negative(0) => Some(10),
        Item::Unsigned(0) => Some(100),
        _ => None,
    }
}
