//! The body of a configuration (RFC 9132, section 4.5.2).

ghost use Rattle.std.specs.Prelude.{◌≡◌};
ghost use Rattle.cbor_profile.specs.ItemTrees.{tree_of};
ghost use Rattle.dots_keys.specs.Configurations.{config_key_of, config_field, no_config, signal_config, configuration_of};
ghost use Rattle.dots_keys.specs.Fields.{each_field};
ghost use Rattle.dots_keys.specs.FieldValues.{fields_left};
ghost use Rattle.dots_keys.specs.Results.{ReadsInto};

use crate::fields::Fields;
use crate::offer::offer_under;
use crate::refusing::{invalid, missing};
use crate::reject::Reject;
use crate::request::{ConfigBody, Offer};
use cbor_profile::Item;

/// `signal-config`, `mitigating-config` and `idle-config`.
const SIGNAL_CONFIG: u8 = 30;

const MITIGATING_CONFIG: u8 = 32;

const IDLE_CONFIG: u8 = 44;

/// The keys of a configuration.
#[derive(Clone, Copy)]
pub enum ConfigKey {
    Mitigating,
    Idle,
}

fn config_key_of(key: u8) -> Option<ConfigKey>
    ensures { result ≡ config_key_of key }
{
    match key {
        MITIGATING_CONFIG => Some(ConfigKey::Mitigating),
        IDLE_CONFIG => Some(ConfigKey::Idle),
        _ => None,
    }
}

impl ConfigBody {
    /// Adds what a field says.
    fn take(&mut self, key: u8, value: &Item) -> Result<(), Reject>
        ensures { ReadsInto result self.new (config_field self.old key (tree_of value.now)) }
    {
        match config_key_of(key) {
            Some(ConfigKey::Mitigating) => {
                self.mitigating = offer_under(MITIGATING_CONFIG, value)?;
                Ok(())
            }
            Some(ConfigKey::Idle) => {
                self.idle = offer_under(IDLE_CONFIG, value)?;
                Ok(())
            }
            None => Err(invalid(key)),
        }
    }
}

/// What all fields say.
fn each_field(fields: &mut Fields<'_>) -> Result<ConfigBody, Reject>
    ensures { result ≡ each_field config_field no_config (fields_left fields.old) }
{
    let mut said = ConfigBody {
        mitigating: Offer::nothing(),
        idle: Offer::nothing(),
    };
    while let Some((key, value)) = fields.next()? {
        said.take(key, value)?;
    }
    Ok(said)
}

/// The configuration in the map under `signal-config`.
fn signal_config(item: &Item) -> Result<ConfigBody, Reject>
    ensures { result ≡ signal_config (tree_of item.now) }
{
    let mut fields = Fields::of(item, SIGNAL_CONFIG)?;
    let said = each_field(&mut fields)?;
    if said.mitigating.is_nothing() && said.idle.is_nothing() {
        return Err(missing(MITIGATING_CONFIG));
    }
    Ok(said)
}

/// The body of a configuration.
pub fn configuration_of(item: &Item) -> Result<ConfigBody, Reject>
    ensures { result ≡ configuration_of (tree_of item.now) }
{
    let mut fields = Fields::of(item, 0)?;
    let value = fields.first(SIGNAL_CONFIG)?;
    let body = signal_config(value)?;
    fields.end()?;
    Ok(body)
}
