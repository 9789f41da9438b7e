//! The judgement of a request for a mitigation.

ghost use Rattle.std.specs.Prelude.{◌<◌, List, IsSome, IfSome};
ghost use Rattle.lifetime_clock.specs.Lifetime.{IsLifetime};
ghost use Rattle.dots_history.specs.declared.entry.Entry.{Entry};
ghost use Rattle.conflict_rules.specs.Results.{Gives};
ghost use Rattle.dots_registry.specs.RegistryValues.{Represents, time_of, domains_of};
ghost use Rattle.conflict_rules.specs.ByHistory.{judge_request};
ghost use Rattle.dots_registry.specs.Judging.{asked_by};

use crate::registry::Registry;
use conflict_rules::{Client, Judged, PutFault, PutRequest, judge_put};
use dots_keys::{MitigationBody, MitigationPath};
use dots_settings::Settings;

impl Registry {
    /// Judges the PUT of a mitigation, as it was read of a message of this peer, for a domain (RFC 9132, section 4.4.1). The path
    /// has a mid.
    ///
    /// # Errors
    ///
    /// Those of [`Registry::judge_request`].
    pub fn judge_put(
        &self,
        settings: &Settings,
        path: &MitigationPath,
        body: &MitigationBody,
        peer: u32,
        domain: u16,
    ) -> Result<Judged, PutFault>
        requires within { domain < domains_of self.now }
        requires mid { IsSome path.now.mid }
        requires lifetime { IsLifetime body.now.lifetime }
        ensures { (entries : List Entry) → Represents self.now entries
            → IfSome path.now.mid (λ mid. Gives result (judge_request settings.now (time_of self.now) entries domain (asked_by peer path.now body.now mid))) }
    {
        let request = PutRequest {
            peer,
            cuid: path.cuid.bytes(),
            mid: path.mid.unwrap(),
            asked: &body.asked,
            lifetime: body.lifetime,
            trigger: body.trigger,
        };
        self.judge_request(settings, domain, &request)
    }

    /// Judges a request for a domain by what the registry keeps of the domain and of the client.
    ///
    /// # Errors
    ///
    /// That of the first rule that applies. `NoMemory` comes only where targets are copied or made, so never in place of
    /// `Collision`, `Changed`, `UnknownAlias` or `TooMany`.
    pub fn judge_request(
        &self,
        settings: &Settings,
        domain: u16,
        request: &PutRequest<'_>,
    ) -> Result<Judged, PutFault>
        requires within { domain < domains_of self.now }
        requires lifetime { IsLifetime request.now.lifetime }
        ensures { (entries : List Entry) → Represents self.now entries
            → Gives result (judge_request settings.now (time_of self.now) entries domain request.now) }
    {
        let client = Client {
            registrant: self.held.registrant(domain, request.cuid),
            aliases: self.held.aliases(domain, request.cuid),
        };
        let live = self.live.rows(domain);
        judge_put(
            self.alloc,
            settings,
            live,
            &client,
            self.live.time(),
            request,
        )
    }
}
