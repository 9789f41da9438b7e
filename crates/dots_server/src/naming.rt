//! What the settings say of a domain.

ghost use Rattle.std.specs.Prelude.{◌≡◌};
ghost use Rattle.dots_settings.specs.Lookups.{name_of};

use dots_settings::Settings;

/// The name of the domain of this number; empty where there is none.
pub fn name_of(settings: &Settings, domain: u16) -> &[u8]
    ensures { result.now ≡ name_of settings.now domain }
{
    if domain < settings.domains() {
        return settings.domain_name(domain);
    }
    &[]
}
