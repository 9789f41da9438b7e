//! A range of ports in `target-port-range` (RFC 9132, section 4.4.1).

ghost use Rattle.std.specs.Prelude.{◌≡◌};
ghost use Rattle.cbor_profile.specs.ItemTrees.{tree_of};
ghost use Rattle.dots_keys.specs.Fields.{each_field};
ghost use Rattle.dots_keys.specs.FieldValues.{fields_left};
ghost use Rattle.dots_keys.specs.Mitigations.{range_key_of, port_of, not_below, range_field, no_ports, range_with, range_of};

use crate::fields::Fields;
use crate::refusing::{invalid, missing};
use crate::reject::Reject;
use cbor_profile::Item;
use ip_scope::PortRange;

/// `lower-port` and `upper-port`.
const LOWER_PORT: u8 = 8;

const UPPER_PORT: u8 = 9;

/// The keys of a range.
#[derive(Clone, Copy)]
pub enum RangeKey {
    Lower,
    Upper,
}

/// What the fields of a range said so far.
#[derive(Clone, Copy)]
pub struct PortPair {
    pub lower: Option<u16>,
    pub upper: Option<u16>,
}

fn range_key_of(key: u8) -> Option<RangeKey>
    ensures { result ≡ range_key_of key }
{
    match key {
        LOWER_PORT => Some(RangeKey::Lower),
        UPPER_PORT => Some(RangeKey::Upper),
        _ => None,
    }
}

/// The port that stands under this key.
fn port_of(key: u8, item: &Item) -> Result<u16, Reject>
    ensures { result ≡ port_of key (tree_of item.now) }
{
    let Some(number) = item.as_unsigned() else {
        return Err(invalid(key));
    };
    if number > u64::from(u16::MAX) {
        return Err(invalid(key));
    }
    Ok(number as u16)
}

/// The upper port, unless it is below the lower one.
fn not_below(lower: Option<u16>, upper: u16) -> Result<u16, Reject>
    ensures { result ≡ not_below lower upper }
{
    match lower {
        Some(lower) => {
            if upper < lower {
                return Err(invalid(UPPER_PORT));
            }
            Ok(upper)
        }
        None => Ok(upper),
    }
}

impl PortPair {
    /// What is said with one field more.
    fn with(self, key: u8, value: &Item) -> Result<Self, Reject>
        ensures { result ≡ range_field self key (tree_of value.now) }
    {
        match range_key_of(key) {
            Some(RangeKey::Lower) => {
                let port = port_of(LOWER_PORT, value)?;
                Ok(PortPair {
                    lower: Some(port),
                    upper: self.upper,
                })
            }
            Some(RangeKey::Upper) => {
                let port = port_of(UPPER_PORT, value)?;
                let port = not_below(self.lower, port)?;
                Ok(PortPair {
                    lower: self.lower,
                    upper: Some(port),
                })
            }
            None => Err(invalid(key)),
        }
    }

    /// The range, whose upper port is the lower one where it isn't said.
    fn range(self) -> Result<PortRange, Reject>
        ensures { result ≡ range_with self.lower self.upper }
    {
        let Some(lower) = self.lower else {
            return Err(missing(LOWER_PORT));
        };
        let upper = self.upper.unwrap_or(lower);
        PortRange::new(lower, upper).ok_or(invalid(UPPER_PORT))
    }
}

/// What all fields say.
fn each_field(fields: &mut Fields<'_>) -> Result<PortPair, Reject>
    ensures { result ≡ each_field range_field no_ports (fields_left fields.old) }
{
    let mut said = PortPair {
        lower: None,
        upper: None,
    };
    while let Some((key, value)) = fields.next()? {
        said = said.with(key, value)?;
    }
    Ok(said)
}

/// The range in an item of `target-port-range`.
pub fn range_of(item: &Item) -> Result<PortRange, Reject>
    ensures { result ≡ range_of (tree_of item.now) }
{
    let mut fields = Fields::of(item, 7)?;
    let said = each_field(&mut fields)?;
    said.range()
}
