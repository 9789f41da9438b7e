ghost use Rattle.std.specs.Prelude.{◌≡◌};
ghost use Rattle.dots_settings.specs.Admitting.{form_value};
ghost use Rattle.dots_settings.specs.Settings.{is_packet};

use crate::capacity::Capacity;
use acl_lists::Packet;
use ip_scope::Prefix;

/// What a line of the settings says.
#[derive(Clone, Copy)]
pub enum Form<'a> {
    /// `domain NAME`
    Domain { name: &'a [u8] },
    /// `prefix NAME PREFIX`
    Prefix { name: &'a [u8], prefix: Prefix },
    /// `client PEER NAME`
    Client { peer: u32, name: &'a [u8] },
    /// `gateway PEER`
    Gateway { peer: u32 },
    /// `upstream PEER`
    Upstream { peer: u32 },
    /// `name FQDN PREFIX`
    Name { fqdn: &'a [u8], prefix: Prefix },
    /// `ceiling SECONDS`, 1 to 604800
    Ceiling { seconds: u32 },
    /// `indefinite yes` or `indefinite no`
    Indefinite { granted: bool },
    /// `capacity WHAT LIMIT`; None where the limit is out of its range
    Capacity { what: Capacity, limit: Option<u32> },
    /// `packet SOURCE DESTINATION PROTOCOL SPORT DPORT`
    Packet(Packet),
}

impl<'a> Form<'a> {
    /// Whether this is a `packet` line, which the digest leaves out.
    pub fn is_packet(&self) -> bool
        ensures { result ≡ is_packet (form_value self.now) }
    {
        match self {
            Form::Packet(_) => true,
            _ => false,
        }
    }
}
