//! The values that are offered for one state of a session (RFC 9132, section 4.5.2).

ghost use Rattle.std.specs.Prelude.{◌≡◌};
ghost use Rattle.cbor_profile.specs.ItemTrees.{tree_of};
ghost use Rattle.dots_keys.specs.Configurations.{offer_key_of, offer_field, no_offer, offers_nothing, offer_under};
ghost use Rattle.dots_keys.specs.Fields.{each_field};
ghost use Rattle.dots_keys.specs.FieldValues.{fields_left};
ghost use Rattle.dots_keys.specs.Results.{ReadsInto};

use crate::fields::Fields;
use crate::numbers::{decimal_under, number_under};
use crate::refusing::{invalid, missing};
use crate::reject::Reject;
use crate::request::Offer;
use cbor_profile::Item;

/// `heartbeat-interval`, `missing-hb-allowed`, `max-retransmit`, `ack-timeout`, `ack-random-factor` and `probing-rate`.
const HEARTBEAT_INTERVAL: u8 = 33;

const MISSING_HB_ALLOWED: u8 = 37;

const MAX_RETRANSMIT: u8 = 38;

const ACK_TIMEOUT: u8 = 39;

const ACK_RANDOM_FACTOR: u8 = 40;

const PROBING_RATE: u8 = 50;

/// The keys of the values.
#[derive(Clone, Copy)]
pub enum OfferKey {
    Interval,
    Missing,
    Retransmit,
    Timeout,
    Factor,
    Rate,
}

fn offer_key_of(key: u8) -> Option<OfferKey>
    ensures { result ≡ offer_key_of key }
{
    match key {
        HEARTBEAT_INTERVAL => Some(OfferKey::Interval),
        MISSING_HB_ALLOWED => Some(OfferKey::Missing),
        MAX_RETRANSMIT => Some(OfferKey::Retransmit),
        ACK_TIMEOUT => Some(OfferKey::Timeout),
        ACK_RANDOM_FACTOR => Some(OfferKey::Factor),
        PROBING_RATE => Some(OfferKey::Rate),
        _ => None,
    }
}

impl Offer {
    /// No value.
    pub fn nothing() -> Self
        ensures { result ≡ no_offer }
    {
        Offer {
            interval: None,
            missing: None,
            retransmit: None,
            timeout: None,
            factor: None,
            rate: None,
        }
    }

    /// Whether no value is offered.
    pub fn is_nothing(&self) -> bool
        ensures { result ≡ offers_nothing self.now }
    {
        self.interval.is_none()
            && self.missing.is_none()
            && self.retransmit.is_none()
            && self.timeout.is_none()
            && self.factor.is_none()
            && self.rate.is_none()
    }

    /// Adds what a field says.
    fn take(&mut self, key: u8, value: &Item) -> Result<(), Reject>
        ensures { ReadsInto result self.new (offer_field self.old key (tree_of value.now)) }
    {
        match offer_key_of(key) {
            Some(OfferKey::Interval) => {
                self.interval = Some(number_under(HEARTBEAT_INTERVAL, value)?);
                Ok(())
            }
            Some(OfferKey::Missing) => {
                self.missing = Some(number_under(MISSING_HB_ALLOWED, value)?);
                Ok(())
            }
            Some(OfferKey::Retransmit) => {
                self.retransmit = Some(number_under(MAX_RETRANSMIT, value)?);
                Ok(())
            }
            Some(OfferKey::Timeout) => {
                self.timeout = Some(decimal_under(ACK_TIMEOUT, value)?);
                Ok(())
            }
            Some(OfferKey::Factor) => {
                self.factor = Some(decimal_under(ACK_RANDOM_FACTOR, value)?);
                Ok(())
            }
            Some(OfferKey::Rate) => {
                self.rate = Some(number_under(PROBING_RATE, value)?);
                Ok(())
            }
            None => Err(invalid(key)),
        }
    }
}

/// What all fields say.
fn each_field(fields: &mut Fields<'_>) -> Result<Offer, Reject>
    ensures { result ≡ each_field offer_field no_offer (fields_left fields.old) }
{
    let mut said = Offer::nothing();
    while let Some((key, value)) = fields.next()? {
        said.take(key, value)?;
    }
    Ok(said)
}

/// The values in the map under this key, at least one.
pub fn offer_under(key: u8, item: &Item) -> Result<Offer, Reject>
    ensures { result ≡ offer_under key (tree_of item.now) }
{
    let mut fields = Fields::of(item, key)?;
    let said = each_field(&mut fields)?;
    if said.is_nothing() {
        return Err(missing(HEARTBEAT_INTERVAL));
    }
    Ok(said)
}
