//! What the live mitigations say to a request.

ghost use Rattle.std.specs.Prelude.{◌≡◌, ◌<◌, ◌==◌, List};
ghost use Rattle.std.specs.List.{list_any};
ghost use Rattle.dots_history.specs.declared.entry.Entry.{Entry};
ghost use Rattle.dots_history.specs.Histories.{mitigations};
ghost use Rattle.conflict_rules.specs.ByMid.{collides};
ghost use Rattle.live_mitigations.specs.LiveValues.{Represents};
ghost use Rattle.conflict_rules.specs.Lives.{lives_of};
ghost use Rattle.conflict_rules.specs.LiveViews.{live_views_in};

use crate::live::LiveMitigations;
use crate::reading::Mitigations;
use conflict_rules::collides;

impl LiveMitigations {
    /// The live mitigations of a client, in order of their entries (RFC 9132, section 4.4.2).
    pub fn mitigations<'a>(&'a self, domain: u16, cuid: &'a [u8]) -> Mitigations<'a>
        requires { domain < self.now.domains }
        ensures { (entries : List Entry) → Represents self.now entries → result ≡ live_views_in domain cuid.now self.now.time entries }
    {
        Mitigations::of(self.rows(domain), cuid, self.time())
    }

    /// Whether the client's name is in use by another peer: a live mitigation of the client, standing or terminating, has
    /// another one (RFC 9132, section 4.4.1.3).
    pub fn collides(&self, domain: u16, cuid: &[u8], peer: u32) -> bool
        requires { domain < self.now.domains }
        ensures { (entries : List Entry) → Represents self.now entries → result ≡ collides (lives_of domain self.now.time entries) peer cuid.now }
    {
        collides(self.rows(domain), peer, cuid)
    }
}
