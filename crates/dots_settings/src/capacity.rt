ghost use Rattle.std.specs.Prelude.{◌≡◌};
ghost use Rattle.dots_settings.specs.Capacity.{place_of, same_capacity, greatest_of, default_of, capacity_named};

use dots_lists::is_word;

/// What a `capacity` line limits.
#[derive(Clone, Copy)]
pub enum Capacity {
    ClientMitigations,
    DomainMitigations,
    Clients,
    Aliases,
    Acls,
    Remembered,
    Observers,
}

impl Capacity {
    /// The capacity of this name.
    pub fn named(name: &[u8]) -> Option<Capacity>
        ensures { result ≡ capacity_named name.now }
    {
        if is_word(name, b"client-mitigations") {
            return Some(Capacity::ClientMitigations);
        }
        if is_word(name, b"domain-mitigations") {
            return Some(Capacity::DomainMitigations);
        }
        if is_word(name, b"clients") {
            return Some(Capacity::Clients);
        }
        if is_word(name, b"aliases") {
            return Some(Capacity::Aliases);
        }
        if is_word(name, b"acls") {
            return Some(Capacity::Acls);
        }
        if is_word(name, b"remembered") {
            return Some(Capacity::Remembered);
        }
        if is_word(name, b"observers") {
            return Some(Capacity::Observers);
        }
        None
    }

    /// The greatest number that it may be; the least is 1.
    pub fn greatest(self) -> u32
        ensures { result ≡ greatest_of self }
    {
        match self {
            Capacity::ClientMitigations => 64,
            Capacity::DomainMitigations => 64,
            Capacity::Clients => 8,
            Capacity::Aliases => 16,
            Capacity::Acls => 8,
            Capacity::Remembered => 64,
            Capacity::Observers => 8,
        }
    }

    /// What it is where no line gives it.
    pub fn default_limit(self) -> u32
        ensures { result ≡ default_of self }
    {
        match self {
            Capacity::ClientMitigations => 16,
            Capacity::DomainMitigations => 64,
            Capacity::Clients => 8,
            Capacity::Aliases => 16,
            Capacity::Acls => 8,
            Capacity::Remembered => 64,
            Capacity::Observers => 8,
        }
    }

    /// Whether both are the same.
    pub fn is_same(self, other: Capacity) -> bool
        ensures { result ≡ same_capacity self other }
    {
        self.place() == other.place()
    }

    fn place(self) -> u8
        ensures { result ≡ place_of self }
    {
        self as u8
    }
}
