//! What a server decides on a datagram.

ghost use Rattle.std.specs.Prelude.{◌≡◌, ◌<◌, ◌||◌, ℕ, is_some, List, length, true, IfOk, IfErr, OnErr, IfSome, IfNone, Some, None, Ok, Err};
ghost use Rattle.dots_keys.specs.Askable.{IsAskable, IsAskableBody};
ghost use Rattle.dots_keys.specs.Waiting.{WaitsForClient};
ghost use Rattle.dots_settings.specs.Settings.{SettingsValue};
ghost use Rattle.dots_settings.specs.Lookups.{role_of};
ghost use Rattle.dots_history.specs.Calm.{may_act, is_client_of};
ghost use Rattle.dots_history.specs.Entries.{option_any};
ghost use Rattle.dots_machine.specs.Machine.{State, reject_verdict, dismissal_verdict, facts_in};
ghost use Rattle.dots_machine.specs.Observing.{in_known, asked_in, watching_of};
ghost use Rattle.dots_machine.specs.Mitigations.{get_answer};
ghost use Rattle.dots_machine.specs.declared.received.Received.TheVariants as received;
ghost use Rattle.dots_machine.specs.declared.watching.Watching.TheVariants as watchings;
ghost use Rattle.dots_machine.specs.declared.verdict.Verdict.TheVariants as verdicts;
ghost use Rattle.dots_server.specs.Observing.{asked_from, leaving, rejecting, Does, DoesDecided, MayObserve};
ghost use Rattle.dots_machine.specs.Domains.{domain_for};
ghost use Rattle.dots_machine.specs.Deciding.{in_domain, with_mid, put_in, put_for, delete_in, delete_for, get_for, answer_to};
ghost use Rattle.dots_server.specs.Asking.{IsOwn, IsCome, heard_by, domain_asked, DoesOn};
ghost use Rattle.dots_server.specs.LackingMemory.{is_made, put_in_takes, put_for_takes, takes_memory, Yields, YieldsMade};
ghost use Rattle.dots_server.specs.Receiving.{IsGrantable};
ghost use Rattle.dots_server.specs.ServerValues.{Represents, CanCarryOut};
ghost use Rattle.dots_server.specs.HearingPeers.{is_heard};

use crate::long_replies::showing;
use crate::mitigations::Reading;
use crate::receiving::receive;
use crate::replies::{bad_parameter, heartbeat_reply, unavailable};
use crate::server::Server;
use crate::verdict::Verdict;
use coap_message::Kind;
use coap_observe::Observer;
use dots_keys::{
    Content, Dismissal, Exchange, MitigationBody, MitigationPath, Observe, Reject, Request,
    rejection, reset,
};
use dots_lists::{Bytes, Name, NoMemory};
use dots_machine::{ClientRequest, MitigationRequest, Received, Watching};
use dots_settings::Role;

/// What is to be done.
#[derive(Drop)]
pub(crate) struct Decision {
    /// What becomes of the observers.
    pub watching: Watching,
    /// What is sent, and what is accepted.
    pub verdict: Verdict,
}

/// What came of a peer's datagram.
#[derive(Drop)]
pub(crate) enum Came {
    /// It is that of a stranger, which is passed over in silence.
    FromStranger,
    /// There is no memory to read the request of this exchange.
    Lacking(Exchange),
    /// This was received of a client of this domain, or of a gateway.
    Received {
        own: Option<u16>,
        received: Received,
    },
}

impl Server {
    /// What came of a datagram.
    pub(crate) fn receive(&self, peer: u32, datagram: &[u8]) -> Came
        ensures { IsCome self.now.settings peer datagram.now result }
    {
        match self.settings.domain_of(peer) {
            Role::Stranger => Came::FromStranger,
            Role::Client(domain) => self.receive_known(peer, Some(domain), datagram),
            Role::Gateway => self.receive_known(peer, None, datagram),
        }
    }

    /// What came of the datagram of a client of this domain, or of a gateway.
    fn receive_known(&self, peer: u32, own: Option<u16>, datagram: &[u8]) -> Came
        requires { IsOwn self.now.settings peer own }
        ensures { IsCome self.now.settings peer datagram.now result }
    {
        match receive(self.alloc, datagram, own.is_none()) {
            Ok(received) => Came::Received { own, received },
            Err(exchange) => Came::Lacking(exchange),
        }
    }

    /// What is decided on what came of a datagram. What is accepted can be carried out.
    pub(crate) fn decide(&self, peer: u32, came: Came) -> Decision
        requires came { (datagram : List ℕ) × IsCome self.now.settings peer datagram came }
        ensures does { (settings : SettingsValue) (state : State) (datagram : List ℕ) → Represents self.now settings state → IsCome settings peer datagram came
            → DoesDecided settings state peer datagram result.watching result.verdict }
        ensures ready { CanCarryOut result.verdict self.now }
        ensures may { MayObserve self.now.watch.observers.pairs result.watching }
    {
        match came {
            Came::FromStranger => unobserved(Verdict::Silent),
            Came::Lacking(exchange) => unobserved(Verdict::Reply(unavailable(&exchange))),
            Came::Received { own, received } => self.decide_on(peer, own, received),
        }
    }

    /// What is decided on what a client of this domain, or a gateway, sent.
    fn decide_on(&self, peer: u32, own: Option<u16>, received: Received) -> Decision
        requires own { IsOwn self.now.settings peer own }
        requires grantable { IsGrantable received }
        ensures does { (settings : SettingsValue) (state : State) → Represents self.now settings state
            → DoesOn settings state peer received result.watching result.verdict }
        ensures ready { CanCarryOut result.verdict self.now }
        ensures may { MayObserve self.now.watch.observers.pairs result.watching }
    {
        match received {
            Received::Unread(dismissal) => unobserved(dismissal_verdict(dismissal)),
            Received::Dismissed(dismissal) => Decision {
                watching: rejecting(dismissal),
                verdict: dismissal_verdict(dismissal),
            },
            Received::Refused { exchange, reject } => {
                unobserved(reject_verdict(&exchange, &reject))
            }
            Received::Asked { exchange, request } => {
                match self.decide_request(peer, own, exchange, request) {
                    Ok(decision) => decision,
                    Err(_) => unobserved(Verdict::Reply(unavailable(&exchange))),
                }
            }
        }
    }

    /// What is decided on a request.
    fn decide_request(
        &self,
        peer: u32,
        own: Option<u16>,
        exchange: Exchange,
        request: Request,
    ) -> Result<Decision, NoMemory>
        requires askable { IsAskable request }
        requires waits { WaitsForClient request }
        requires own { IsOwn self.now.settings peer own }
        ensures does { (settings : SettingsValue) (state : State) → Represents self.now settings state
            → IfOk result (λ decision. Does settings peer state.observers (watching_of settings peer (received.Asked exchange request))
            (answer_to settings (facts_in settings state) peer exchange request) decision.watching decision.verdict) }
        ensures lacks { (settings : SettingsValue) (state : State) → Represents self.now settings state
            → OnErr result (takes_memory settings (facts_in settings state) peer exchange request ≡ true) }
        ensures ready { IfOk result (λ decision. CanCarryOut decision.verdict self.now) }
        ensures may { IfOk result (λ decision. MayObserve self.now.watch.observers.pairs decision.watching) }
    {
        match request {
            Request::PutMitigation { path, body } => {
                alone(self.put_by_path(peer, own, exchange, path, body))
            }
            Request::GetMitigation {
                path,
                content,
                observe,
            } => self.get_by_path(peer, own, exchange, path, content, observe),
            Request::DeleteMitigation { path } => {
                alone(self.delete_by_path(peer, own, exchange, path))
            }
            Request::PutConfig { sid, body } => {
                alone(self.put_config(peer, own, &exchange, sid, &body))
            }
            Request::GetConfig { sid } => alone(self.get_config(peer, own, &exchange, sid)),
            Request::DeleteConfig { sid } => alone(self.delete_config(peer, own, &exchange, sid)),
            Request::PutHeartbeat { .. } => {
                Ok(unobserved(Verdict::Reply(heartbeat_reply(&exchange))))
            }
        }
    }

    /// What is decided on a request for the mitigation of a path.
    fn put_by_path(
        &self,
        peer: u32,
        own: Option<u16>,
        exchange: Exchange,
        path: MitigationPath,
        body: MitigationBody,
    ) -> Result<Verdict, NoMemory>
        requires askable { IsAskableBody body }
        requires waits { is_some path.cdid ≡ true → body.trigger ≡ true }
        requires own { IsOwn self.now.settings peer own }
        ensures decides { (settings : SettingsValue) (state : State) → Represents self.now settings state
            → Yields result (in_domain exchange (domain_for settings (role_of settings peer) path.cdid) (put_for settings (facts_in settings state) peer exchange path body))
            (option_any (put_for_takes settings (facts_in settings state) peer exchange path body) (domain_for settings (role_of settings peer) path.cdid)) }
        ensures ready { IfOk result (λ verdict. CanCarryOut verdict self.now) }
    {
        let mid = path.mid;
        match self.asks_for(peer, own, exchange, path) {
            Some(from) => self.put_with_mid(from, mid, body),
            None => Ok(Verdict::Reply(bad_parameter(&exchange))),
        }
    }

    /// What is decided on a request for a mitigation, whose mid must be there.
    fn put_with_mid(
        &self,
        from: ClientRequest,
        mid: Option<u32>,
        body: MitigationBody,
    ) -> Result<Verdict, NoMemory>
        requires askable { IsAskableBody body }
        requires acts { may_act self.now.settings (role_of self.now.settings from.peer) from.domain ≡ true }
        requires waits { (body.trigger || is_client_of (role_of self.now.settings from.peer) from.domain) ≡ true }
        ensures decides { (settings : SettingsValue) (state : State) → Represents self.now settings state
            → Yields result (with_mid from.exchange mid (put_in settings (facts_in settings state) from body)) (option_any (put_in_takes settings (facts_in settings state) from body) mid) }
        ensures ready { IfOk result (λ verdict. CanCarryOut verdict self.now) }
    {
        match mid {
            Some(mid) => self.decide_put(MitigationRequest { from, mid, body }),
            None => Ok(Verdict::Reply(bad_parameter(&from.exchange))),
        }
    }

    /// What is decided on a request to read the mitigations of a path.
    fn get_by_path(
        &self,
        peer: u32,
        own: Option<u16>,
        exchange: Exchange,
        path: MitigationPath,
        content: Content,
        observe: Observe,
    ) -> Result<Decision, NoMemory>
        requires own { IsOwn self.now.settings peer own }
        ensures does { (settings : SettingsValue) (state : State) → Represents self.now settings state
            → IfOk result (λ decision. Does settings peer state.observers (in_known (domain_for settings (role_of settings peer) path.cdid) (asked_in peer exchange content path observe))
            (in_domain exchange (domain_for settings (role_of settings peer) path.cdid) (get_for (facts_in settings state) peer exchange path content)) decision.watching decision.verdict) }
        ensures lacks { (settings : SettingsValue) (state : State) → Represents self.now settings state
            → OnErr result (is_made (in_domain exchange (domain_for settings (role_of settings peer) path.cdid) (get_for (facts_in settings state) peer exchange path content)) ≡ true) }
        ensures ready { IfOk result (λ decision. CanCarryOut decision.verdict self.now) }
        ensures may { IfOk result (λ decision. MayObserve self.now.watch.observers.pairs decision.watching) }
    {
        let mid = path.mid;
        match self.asks_for(peer, own, exchange, path) {
            Some(from) => self.read(from, mid, content, observe),
            None => Ok(unobserved(Verdict::Reply(bad_parameter(&exchange)))),
        }
    }

    /// What is decided on a request of a peer that may act for the domain to read mitigations of a client, or that of a mid.
    fn read(
        &self,
        from: ClientRequest,
        mid: Option<u32>,
        content: Content,
        observe: Observe,
    ) -> Result<Decision, NoMemory>
        requires acts { may_act self.now.settings (role_of self.now.settings from.peer) from.domain ≡ true }
        ensures does { (settings : SettingsValue) (state : State) → Represents self.now settings state
            → IfOk result (λ decision. Does settings from.peer state.observers (asked_from from mid content observe)
            (get_answer (facts_in settings state) from mid content) decision.watching decision.verdict) }
        ensures lacks { (settings : SettingsValue) (state : State) → Represents self.now settings state
            → OnErr result (is_made (get_answer (facts_in settings state) from mid content) ≡ true) }
        ensures ready { IfOk result (λ decision. CanCarryOut decision.verdict self.now) }
        ensures may { IfOk result (λ decision. MayObserve self.now.watch.observers.pairs decision.watching) }
    {
        match self.decide_get(&from, mid, content)? {
            Reading::Answered(verdict) => Ok(Decision {
                watching: leaving(&from.exchange, observe),
                verdict,
            }),
            Reading::Listed(body) => self.show(from, mid, content, observe, &body),
        }
    }

    /// Mitigations are shown by this body, and who asks observes them, or leaves.
    fn show(
        &self,
        from: ClientRequest,
        mid: Option<u32>,
        content: Content,
        observe: Observe,
        body: &Bytes,
    ) -> Result<Decision, NoMemory>
        requires acts { may_act self.now.settings (role_of self.now.settings from.peer) from.domain ≡ true }
        ensures does { (settings : SettingsValue) (state : State) → Represents self.now settings state
            → IfOk result (λ decision. Does settings from.peer state.observers (asked_from from mid content observe)
            (verdicts.Retrieves from.exchange body.now) decision.watching decision.verdict) }
        ensures ready { IfOk result (λ decision. CanCarryOut decision.verdict self.now) }
        ensures may { IfOk result (λ decision. MayObserve self.now.watch.observers.pairs decision.watching) }
    {
        let exchange = from.exchange;
        let watching = asked_from(from, mid, content, observe);
        let number = match &watching {
            Watching::Registers(observer) => self.watch.number(observer),
            Watching::Nothing | Watching::Cancels(_) | Watching::Rejects(_) => None,
        };
        let reply = showing(self.alloc, &exchange, number, body.items())?;
        Ok(Decision {
            watching,
            verdict: Verdict::LongReply(reply),
        })
    }

    /// What is decided on a request to withdraw the mitigation of a path.
    fn delete_by_path(
        &self,
        peer: u32,
        own: Option<u16>,
        exchange: Exchange,
        path: MitigationPath,
    ) -> Result<Verdict, NoMemory>
        requires own { IsOwn self.now.settings peer own }
        ensures decides { (settings : SettingsValue) (state : State) → Represents self.now settings state
            → YieldsMade result (in_domain exchange (domain_for settings (role_of settings peer) path.cdid) (delete_for (facts_in settings state) peer exchange path)) }
        ensures ready { IfOk result (λ verdict. CanCarryOut verdict self.now) }
    {
        let mid = path.mid;
        match self.asks_for(peer, own, exchange, path) {
            Some(from) => self.delete_with_mid(&from, mid),
            None => Ok(Verdict::Reply(bad_parameter(&exchange))),
        }
    }

    /// What is decided on a request to withdraw, whose mid must be there.
    fn delete_with_mid(&self, from: &ClientRequest, mid: Option<u32>) -> Result<Verdict, NoMemory>
        requires acts { may_act self.now.settings (role_of self.now.settings from.now.peer) from.now.domain ≡ true }
        ensures decides { (settings : SettingsValue) (state : State) → Represents self.now settings state
            → YieldsMade result (with_mid from.now.exchange mid (delete_in (facts_in settings state) from.now)) }
        ensures ready { IfOk result (λ verdict. CanCarryOut verdict self.now) }
    {
        match mid {
            Some(mid) => self.decide_delete(from, mid),
            None => Ok(Verdict::Reply(bad_parameter(&from.exchange))),
        }
    }

    /// Who asks for the client of this path, and for which domain. None for a domain that there isn't.
    fn asks_for(
        &self,
        peer: u32,
        own: Option<u16>,
        exchange: Exchange,
        path: MitigationPath,
    ) -> Option<ClientRequest>
        requires own { IsOwn self.now.settings peer own }
        ensures some { IfSome result (λ from. (domain_asked self.now.settings own path.cdid ≡ Some from.domain)
            × (from ≡ record { peer = peer; domain = from.domain; exchange = exchange; cuid = path.cuid })) }
        ensures none { IfNone result (domain_asked self.now.settings own path.cdid ≡ None) }
        ensures acts { IfSome result (λ from. may_act self.now.settings (role_of self.now.settings from.peer) from.domain ≡ true) }
    {
        match self.domain_for(peer, own, &path.cdid) {
            Some(domain) => Some(ClientRequest {
                peer,
                domain,
                exchange,
                cuid: path.cuid,
            }),
            None => None,
        }
    }

    /// The domain for which a client of this domain, or a gateway, asks.
    fn domain_for(&self, peer: u32, own: Option<u16>, cdid: &Option<Name>) -> Option<u16>
        requires own { IsOwn self.now.settings peer own }
        ensures domain { result ≡ domain_asked self.now.settings own cdid.now }
        ensures within { IfSome result (λ domain. domain < length self.now.settings.domains) }
    {
        match (own, cdid) {
            (Some(domain), _) => Some(domain),
            (None, Some(name)) => self.settings.domain_named(name.bytes()),
            (None, None) => None,
        }
    }
}

/// What is to be done where nothing is asked of observation.
fn unobserved(verdict: Verdict) -> Decision
    ensures { result ≡ record { watching = watchings.Nothing; verdict = verdict } }
{
    Decision {
        watching: Watching::Nothing,
        verdict,
    }
}

/// The same, of what is decided.
fn alone(decided: Result<Verdict, NoMemory>) -> Result<Decision, NoMemory>
    ensures ok { IfOk result (λ decision. (decision.watching ≡ watchings.Nothing) × (decided ≡ Ok decision.verdict)) }
    ensures err { IfErr result (λ fault. decided ≡ Err fault) }
{
    match decided {
        Ok(verdict) => Ok(unobserved(verdict)),
        Err(fault) => Err(fault),
    }
}

/// What a GET of mitigations asks of observation (RFC 7641, section 2).
fn asked_from(from: ClientRequest, mid: Option<u32>, content: Content, observe: Observe) -> Watching
    ensures { result ≡ asked_from from mid content observe }
{
    match observe {
        Observe::No => Watching::Nothing,
        Observe::Deregister => Watching::Cancels(from.exchange.token),
        Observe::Register => Watching::Registers(Observer {
            peer: from.peer,
            domain: from.domain,
            token: from.exchange.token,
            cuid: from.cuid,
            mid,
            content,
        }),
    }
}

/// The same, where it isn't shown what it asks for.
fn leaving(exchange: &Exchange, observe: Observe) -> Watching
    ensures { result ≡ leaving exchange.now observe }
{
    match observe {
        Observe::Deregister => Watching::Cancels(exchange.token),
        Observe::No | Observe::Register => Watching::Nothing,
    }
}

/// What a message that asks nothing asks of observation.
fn rejecting(dismissal: Dismissal) -> Watching
    ensures { result ≡ rejecting dismissal }
{
    match dismissal {
        Dismissal::Rejected { id } => Watching::Rejects(id),
        Dismissal::Ignored | Dismissal::Reset { .. } => Watching::Nothing,
    }
}

/// Whether a peer is heard by its datagram: a stranger isn't.
pub(crate) fn hears(came: &Came) -> bool
    ensures { result ≡ heard_by came.now }
{
    match came {
        Came::FromStranger => false,
        Came::Lacking(_) => true,
        Came::Received { received, .. } => is_heard(received),
    }
}

/// Whether a peer is heard by what it sent: what can't be read isn't heard.
fn is_heard(received: &Received) -> bool
    ensures { result ≡ is_heard received.now }
{
    match received {
        Received::Unread(_) => false,
        Received::Dismissed(_) | Received::Refused { .. } | Received::Asked { .. } => true,
    }
}

/// What is done with what can't be read, and with a message that asks nothing.
fn dismissal_verdict(dismissal: Dismissal) -> Verdict
    ensures { result ≡ dismissal_verdict dismissal }
{
    match dismissal {
        Dismissal::Ignored | Dismissal::Rejected { .. } => Verdict::Silent,
        Dismissal::Reset { id } => Verdict::Reply(reset(id)),
    }
}

/// The refusal of a message; one with a critical option that isn't recognised is answered only where it is confirmable (RFC
/// 7252, section 5.4.1).
fn reject_verdict(exchange: &Exchange, reject: &Reject) -> Verdict
    ensures { result ≡ reject_verdict exchange.now reject.now }
{
    match reject {
        Reject::Critical(_) if exchange.kind != Kind::Con => Verdict::Silent,
        _ => Verdict::Reply(rejection(exchange, reject)),
    }
}
