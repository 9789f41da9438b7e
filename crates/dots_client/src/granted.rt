ghost use Rattle.std.specs.Prelude.{◌≡◌};
ghost use Rattle.dots_client.specs.Client.{is_over};

use acl_lists::Asked;

/// A mitigation that a server granted.
#[derive(Drop)]
pub struct Granted {
    pub mid: u32,
    /// What was asked for.
    pub asked: Asked,
    /// In seconds, or -1 for an indefinite one.
    pub lifetime: i32,
    /// When it was heard of, in seconds.
    pub at: u64,
}

impl Granted {
    /// Whether its lifetime has passed at the time `now`, in seconds.
    pub fn is_over(&self, now: u64) -> bool
        ensures { result ≡ is_over now self.now }
    {
        if self.lifetime < 0 {
            return false;
        }
        match self.at.checked_add(self.lifetime as u64) {
            Some(end) => end <= now,
            None => false,
        }
    }
}
