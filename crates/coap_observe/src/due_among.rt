ghost use Rattle.std.specs.Prelude.{◌≡◌};
ghost use Rattle.coap_observe.specs.DueAmong.{includes, joined, merged};

/// Among whom an observer may be due. Only these are looked at where one is looked for.
#[derive(Clone, Copy, PartialEq, Eq)]
pub enum DueAmong {
    Nobody,
    /// The observers of the mitigations of one domain, by its number in the settings.
    Domain(u16),
    Anybody,
}

impl DueAmong {
    /// Whether the observers of this domain are among them.
    pub fn includes(self, domain: u16) -> bool
        ensures { result ≡ includes self domain }
    {
        match self {
            DueAmong::Nobody => false,
            DueAmong::Domain(own) => own == domain,
            DueAmong::Anybody => true,
        }
    }

    /// These, and the observers of the domain.
    pub fn joined(self, domain: u16) -> DueAmong
        ensures { result ≡ joined self domain }
    {
        match self {
            DueAmong::Nobody => DueAmong::Domain(domain),
            DueAmong::Domain(own) if own == domain => self,
            _ => DueAmong::Anybody,
        }
    }

    /// These, and those of the other.
    pub fn merged(self, other: DueAmong) -> DueAmong
        ensures { result ≡ merged self other }
    {
        match other {
            DueAmong::Nobody => self,
            DueAmong::Domain(domain) => self.joined(domain),
            DueAmong::Anybody => DueAmong::Anybody,
        }
    }
}
