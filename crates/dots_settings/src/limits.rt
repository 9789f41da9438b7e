ghost use Rattle.std.specs.Prelude.{◌≡◌, ◌≤◌, ◌*◌};

/// How much a server takes on at a time.
#[derive(Clone, Copy)]
pub struct Limits {
    /// Live mitigations of one client: 1 to 64, by default 16.
    pub client_mitigations: u32,
    /// Live mitigations of one domain: 1 to 64, by default 64.
    pub domain_mitigations: u32,
    /// Registered clients of one domain: 1 to 8, by default 8.
    pub clients: u32,
    /// Aliases of one client: 1 to 16, by default 16.
    pub aliases: u32,
    /// Access lists of one client: 1 to 8, by default 8.
    pub acls: u32,
    /// Remembered messages of one peer in one domain: 1 to 64, by default 64.
    pub remembered: u32,
    /// Observers of one peer in one domain: 1 to 8, by default 8.
    pub observers: u32,
}

/// How many things at most 8 clients have, of each at most 24.
#[tactic(auto, using(crate::proofs::Sizing::of_clients_most))]
pub(crate) fn of_clients(clients: u32, each: u32) -> u32
    requires clients { clients ≤ 8 }
    requires each { each ≤ 24 }
    ensures product { result ≡ clients * each }
    ensures most { result ≤ 192 }
{
    clients * each
}
