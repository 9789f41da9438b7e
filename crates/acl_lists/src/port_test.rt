ghost use Rattle.std.specs.Prelude.{◌≡◌};
ghost use Rattle.acl_lists.specs.Matching.{port_passes};

use ip_scope::PortRange;

/// What an entry asks of a port (RFC 8519, section 4.2, `port-range-or-operator`).
#[derive(Clone, Copy)]
pub enum PortTest {
    /// Nothing is asked.
    Any,
    Eq(u16),
    Neq(u16),
    /// At most this port.
    Lte(u16),
    /// At least this port.
    Gte(u16),
    Range(PortRange),
}

impl PortTest {
    /// Whether the port passes. A packet without ports passes `Any` alone.
    pub(crate) fn passes(&self, port: Option<u16>) -> bool
        ensures { result ≡ port_passes self.now port }
    {
        let Some(port) = port else {
            return matches!(self, PortTest::Any);
        };
        match self {
            PortTest::Any => true,
            PortTest::Eq(wanted) => port == *wanted,
            PortTest::Neq(other) => port != *other,
            PortTest::Lte(most) => port <= *most,
            PortTest::Gte(least) => *least <= port,
            PortTest::Range(range) => range.lower() <= port && port <= range.upper(),
        }
    }
}
