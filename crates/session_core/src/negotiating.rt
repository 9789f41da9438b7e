//! The configuration that a client asks for.

ghost use Rattle.std.specs.Prelude.{◌≡◌, option_map};
ghost use Rattle.session_core.specs.Negotiating.{given_by, values_by, refused_in, higher, negotiated};

use crate::setting::Setting;
use dots_history::{Config, Values};
use dots_keys::{ConfigBody, Offer};

/// Why a configuration isn't taken.
#[derive(Clone, Copy)]
pub enum ConfigFault {
    /// The value of this key is out of its range.
    Range { key: u8 },
    /// A configuration with this higher `sid` is kept.
    OlderSid { kept: u32 },
}

/// The configuration that a client asks for under this `sid`, where the one that is held has the `sid` beside it (RFC 9132, section
/// 4.5.2). A value that isn't given takes its default, whatever is held. Takes no memory.
///
/// OlderSid exactly where what is held has a higher `sid`; else Range exactly where a value is out of its range, with the first such
/// key, those of a mitigation before those of idle times, each in ascending order.
pub fn negotiate(
    held: Option<(u32, &Config)>,
    sid: u32,
    body: &ConfigBody,
) -> Result<Config, ConfigFault>
    ensures { result ≡ negotiated (option_map (λ held. held.0) held.entry) sid body.now }
{
    if let Some(kept) = higher_sid(held, sid) {
        return Err(ConfigFault::OlderSid { kept });
    }
    let refused = first_refused(&body.mitigating).or(first_refused(&body.idle));
    if let Some(setting) = refused {
        return Err(ConfigFault::Range { key: setting.key() });
    }
    Ok(Config {
        mitigating: values_by(&body.mitigating),
        idle: values_by(&body.idle),
    })
}

/// The `sid` of what is held, where it is higher.
fn higher_sid(held: Option<(u32, &Config)>, sid: u32) -> Option<u32>
    ensures { result ≡ higher sid (option_map (λ held. held.0) held.entry) }
{
    let (kept, _) = held?;
    if kept > sid { Some(kept) } else { None }
}

/// The first value of an offer, in the order of the keys, that isn't accepted.
fn first_refused(offer: &Offer) -> Option<Setting>
    ensures { result ≡ refused_in (given_by offer.now) }
{
    let given = given_by(offer);
    let refused = given
        .iter()
        .find(|(setting, value)| setting.refuses(*value))?;
    Some(refused.0)
}

/// The values of an offer in the order of their keys.
fn given_by(offer: &Offer) -> [(Setting, Option<u64>); 6]
    ensures { result ≡ given_by offer.now }
{
    [
        (Setting::Interval, offer.interval),
        (Setting::Missing, offer.missing),
        (Setting::Retransmit, offer.retransmit),
        (Setting::Timeout, offer.timeout),
        (Setting::Factor, offer.factor),
        (Setting::Rate, offer.rate),
    ]
}

/// What an offer comes to, with the defaults of what isn't given.
fn values_by(offer: &Offer) -> Values
    ensures { result ≡ values_by offer.now }
{
    Values {
        interval: Setting::Interval.chosen(offer.interval),
        missing: Setting::Missing.chosen(offer.missing),
        retransmit: Setting::Retransmit.chosen(offer.retransmit),
        timeout: Setting::Timeout.chosen(offer.timeout),
        factor: Setting::Factor.chosen(offer.factor),
        rate: Setting::Rate.chosen(offer.rate),
    }
}
