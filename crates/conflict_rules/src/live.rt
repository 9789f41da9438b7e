//! Live mitigations, as the rules see them.

ghost use Rattle.std.specs.Prelude.{◌≡◌};
ghost use Rattle.conflict_rules.specs.Live.{is_of, stands_for, stands_against};

use dots_history::Put;
use dots_lists::Text;

/// A live mitigation of a domain: it isn't ended, and stands or is terminating (RFC 9132, section 4.4.4).
#[derive(Drop)]
pub struct Live {
    /// Who asked for it.
    pub peer: u32,
    /// The client's name in its domain.
    pub cuid: Text,
    /// What was granted.
    pub put: Put,
    /// Whether it stands; else it was withdrawn and is terminating.
    pub standing: bool,
}

/// What the rules can judge by: a [`Live`], or a row that has one in it. Contracts see the `live` of a row.
pub trait Mitigates {
    ghost use Rattle.conflict_rules.specs.declared.live.Live.{Live};

    ghost live: { Self → Live };

    /// Who asked for it.
    fn peer(&self) -> u32
        ensures { result ≡ (live self.now).peer };

    /// The client's name in its domain.
    fn cuid(&self) -> &[u8]
        ensures { result.now ≡ (live self.now).cuid };

    /// What was granted.
    fn put(&self) -> &Put
        ensures { result.now ≡ (live self.now).put };

    /// Whether it stands; else it was withdrawn and is terminating.
    fn is_standing(&self) -> bool
        ensures { result ≡ (live self.now).standing };
}

impl Mitigates for Live {
    ghost live = { λ mitigation. mitigation };

    fn peer(&self) -> u32 {
        self.peer
    }

    fn cuid(&self) -> &[u8] {
        self.cuid.bytes()
    }

    fn put(&self) -> &Put {
        &self.put
    }

    fn is_standing(&self) -> bool {
        self.standing
    }
}

/// Whether it is of the client.
pub(crate) fn is_of<T: Mitigates>(mitigation: &T, cuid: &[u8]) -> bool
    ensures { result ≡ is_of cuid.now (T.live mitigation.now) }
{
    mitigation.cuid() == cuid
}

/// Whether it stands and is of the client.
pub(crate) fn stands_for<T: Mitigates>(mitigation: &T, cuid: &[u8]) -> bool
    ensures { result ≡ stands_for cuid.now (T.live mitigation.now) }
{
    mitigation.is_standing() && is_of(mitigation, cuid)
}

/// Whether it stands and is of another client.
pub(crate) fn stands_against<T: Mitigates>(mitigation: &T, cuid: &[u8]) -> bool
    ensures { result ≡ stands_against cuid.now (T.live mitigation.now) }
{
    mitigation.is_standing() && !is_of(mitigation, cuid)
}
