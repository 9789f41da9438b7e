//! What a server decides on requests for the configuration of a session (RFC 9132, section 4.5).

ghost use Rattle.std.specs.Prelude.{◌≡◌, ◌≤◌, length, true, Some, option_map, IfOk, OnOk};
ghost use Rattle.dots_settings.specs.Settings.{SettingsValue};
ghost use Rattle.dots_settings.specs.Lookups.{role_of};
ghost use Rattle.dots_history.specs.Bounds.{change_within};
ghost use Rattle.dots_history.specs.Entries.{is_configuration};
ghost use Rattle.dots_history.specs.Calm.{may_configure};
ghost use Rattle.held_resources.specs.Tables.{config_now};
ghost use Rattle.dots_registry.specs.RegistryValues.{time_of};
ghost use Rattle.session_core.specs.Negotiating.{negotiated};
ghost use Rattle.dots_machine.specs.Domains.{config_domain};
ghost use Rattle.dots_machine.specs.Machine.{State, facts_in};
ghost use Rattle.dots_machine.specs.declared.verdict.Verdict.TheVariants as verdicts;
ghost use Rattle.dots_machine.specs.Replies.{configuration_reply};
ghost use Rattle.dots_machine.specs.ConfiguredPeers.{sid_of, is_held, configured_in};
ghost use Rattle.dots_machine.specs.Deciding.{in_domain, config_entry, config_answer, put_config_for, clear_answer, delete_config_for, config_view, get_config_for};
ghost use Rattle.dots_server.specs.Asking.{role_with, IsOwn};
ghost use Rattle.dots_server.specs.HearingPeers.{is_wanted};
ghost use Rattle.dots_server.specs.LackingMemory.{YieldsMade};
ghost use Rattle.dots_server.specs.ServerValues.{Represents, CanCarryOut};

use crate::entries::config_entry;
use crate::long_replies::configuration_reply;
use crate::replies::{absent, configuring, deleted, older_sid, out_of_range};
use crate::server::Server;
use crate::verdict::Verdict;
use dots_history::{Change, Config};
use dots_keys::{ConfigBody, Exchange, ShortMessage};
use dots_lists::NoMemory;
use dots_settings::NO_DOMAIN;
use session_core::{ConfigFault, negotiate};

impl Server {
    /// What is decided on a request to configure the session (RFC 9132, section 4.5.2).
    pub(crate) fn put_config(
        &self,
        peer: u32,
        own: Option<u16>,
        exchange: &Exchange,
        sid: u32,
        body: &ConfigBody,
    ) -> Result<Verdict, NoMemory>
        requires own { IsOwn self.now.settings peer own }
        ensures decides { (settings : SettingsValue) (state : State) → Represents self.now settings state
            → YieldsMade result (in_domain exchange.now (config_domain (role_of settings peer)) (put_config_for (facts_in settings state) peer exchange.now sid body.now)) }
        ensures ready { IfOk result (λ verdict. CanCarryOut verdict self.now) }
    {
        let domain = config_domain(own);
        let known = self.remembered(peer, domain, exchange);
        if let Some(reply) = known {
            return Ok(Verdict::Reply(reply));
        }
        self.configure(peer, domain, exchange, sid, body)
    }

    /// What the rules say of a configuration.
    fn configure(
        &self,
        peer: u32,
        domain: u16,
        exchange: &Exchange,
        sid: u32,
        body: &ConfigBody,
    ) -> Result<Verdict, NoMemory>
        requires may { may_configure (role_of self.now.settings peer) domain ≡ true }
        ensures decides { (settings : SettingsValue) (state : State) → Represents self.now settings state
            → YieldsMade result (config_answer state.time peer domain exchange.now sid (is_held sid (configured_in state.history domain peer))
            (negotiated (sid_of (configured_in state.history domain peer)) sid body.now)) }
        ensures ready { IfOk result (λ verdict. CanCarryOut verdict self.now) }
    {
        let held = self.ledger.registry().config(peer);
        match negotiate(held, sid, body) {
            Ok(config) => {
                let reply = configuring(exchange, is_held(sid, held));
                self.accept_config(
                    peer,
                    domain,
                    exchange,
                    reply,
                    Change::SetConfig { sid, config },
                )
            }
            Err(ConfigFault::Range { key }) => Ok(Verdict::Reply(out_of_range(exchange, key))),
            Err(ConfigFault::OlderSid { .. }) => Ok(Verdict::Reply(older_sid(exchange))),
        }
    }

    /// A change of a configuration is accepted with this reply.
    fn accept_config(
        &self,
        peer: u32,
        domain: u16,
        exchange: &Exchange,
        reply: ShortMessage,
        change: Change,
    ) -> Result<Verdict, NoMemory>
        requires may { may_configure (role_of self.now.settings peer) domain ≡ true }
        requires configures { is_configuration change ≡ true }
        requires within { change_within change ≡ true }
        ensures verdict { IfOk result (λ verdict. verdict ≡ verdicts.Accept reply (config_entry (time_of self.now.registry) peer domain exchange.now reply change)) }
        ensures ready { IfOk result (λ verdict. CanCarryOut verdict self.now) }
    {
        let time = self.ledger.registry().time();
        let entry = config_entry(self.alloc, time, peer, domain, exchange, &reply, change)?;
        let entry = self.ledger.registry().stage(entry)?;
        Ok(Verdict::Accept { reply, entry })
    }

    /// What is decided on a request to give the configuration up (RFC 9132, section 4.5.4).
    pub(crate) fn delete_config(
        &self,
        peer: u32,
        own: Option<u16>,
        exchange: &Exchange,
        sid: u32,
    ) -> Result<Verdict, NoMemory>
        requires own { IsOwn self.now.settings peer own }
        ensures decides { (settings : SettingsValue) (state : State) → Represents self.now settings state
            → YieldsMade result (in_domain exchange.now (config_domain (role_of settings peer)) (delete_config_for (facts_in settings state) peer exchange.now sid)) }
        ensures ready { IfOk result (λ verdict. CanCarryOut verdict self.now) }
    {
        let domain = config_domain(own);
        let known = self.remembered(peer, domain, exchange);
        if let Some(reply) = known {
            return Ok(Verdict::Reply(reply));
        }
        self.clear_config(peer, domain, exchange, sid)
    }

    /// What the rules say of it: what has another sid is gone already.
    fn clear_config(
        &self,
        peer: u32,
        domain: u16,
        exchange: &Exchange,
        sid: u32,
    ) -> Result<Verdict, NoMemory>
        requires may { may_configure (role_of self.now.settings peer) domain ≡ true }
        ensures decides { (settings : SettingsValue) (state : State) → Represents self.now settings state
            → YieldsMade result (clear_answer state.time peer domain exchange.now (is_held sid (configured_in state.history domain peer))) }
        ensures ready { IfOk result (λ verdict. CanCarryOut verdict self.now) }
    {
        if is_held(sid, self.ledger.registry().config(peer)) {
            return self.accept_config(
                peer,
                domain,
                exchange,
                deleted(exchange),
                Change::ClearConfig,
            );
        }
        Ok(Verdict::Reply(deleted(exchange)))
    }

    /// What is decided on a request to read the configuration, or the one of this sid (RFC 9132, sections 4.5.1 and 4.5.3).
    pub(crate) fn get_config(
        &self,
        peer: u32,
        own: Option<u16>,
        exchange: &Exchange,
        sid: Option<u32>,
    ) -> Result<Verdict, NoMemory>
        requires own { IsOwn self.now.settings peer own }
        ensures decides { (settings : SettingsValue) (state : State) → Represents self.now settings state
            → YieldsMade result (in_domain exchange.now (config_domain (role_of settings peer)) (get_config_for (facts_in settings state) peer exchange.now sid)) }
        ensures ready { IfOk result (λ verdict. CanCarryOut verdict self.now) }
    {
        self.view_config(peer, config_domain(own), exchange, sid)
    }

    /// What the rules say of it.
    fn view_config(
        &self,
        peer: u32,
        domain: u16,
        exchange: &Exchange,
        sid: Option<u32>,
    ) -> Result<Verdict, NoMemory>
        requires may { may_configure (role_of self.now.settings peer) domain ≡ true }
        ensures decides { (settings : SettingsValue) (state : State) → Represents self.now settings state
            → YieldsMade result (config_view exchange.now sid (configured_in state.history domain peer)) }
        ensures ready { IfOk result (λ verdict. CanCarryOut verdict self.now) }
    {
        let held = self.ledger.registry().config(peer);
        if is_wanted(sid, held) {
            return self.tell_config(exchange, held);
        }
        Ok(Verdict::Reply(absent(exchange)))
    }

    /// The configuration that is held is told, or the default values where there is none.
    fn tell_config(
        &self,
        exchange: &Exchange,
        held: Option<(u32, &Config)>,
    ) -> Result<Verdict, NoMemory>
        ensures verdict { IfOk result (λ verdict. verdict ≡ verdicts.LongReply (configuration_reply exchange.now (option_map config_now held.entry))) }
        ensures ready { IfOk result (λ verdict. CanCarryOut verdict self.now) }
    {
        match configuration_reply(self.alloc, exchange, held) {
            Ok(reply) => Ok(Verdict::LongReply(reply)),
            Err(fault) => Err(fault),
        }
    }
}

/// The domain for which a client of this domain, or a gateway, configures its session (RFC 9132, section 4.5).
fn config_domain(own: Option<u16>) -> u16
    ensures domain { config_domain (role_with own) ≡ Some result }
    ensures may { may_configure (role_with own) result ≡ true }
{
    match own {
        Some(domain) => domain,
        None => NO_DOMAIN,
    }
}

/// Whether the configuration that is held has this sid.
fn is_held(sid: u32, held: Option<(u32, &Config)>) -> bool
    ensures { result ≡ is_held sid (option_map config_now held.entry) }
{
    match held {
        Some((kept, _)) => kept == sid,
        None => false,
    }
}

/// Whether the configuration that is held is to be shown: any is wanted, or that of one sid.
fn is_wanted(sid: Option<u32>, held: Option<(u32, &Config)>) -> bool
    ensures { result ≡ is_wanted sid (option_map config_now held.entry) }
{
    match sid {
        Some(sid) => is_held(sid, held),
        None => true,
    }
}
