//! What a server decides on requests for mitigations.

ghost use Rattle.std.specs.Prelude.{◌≡◌, ◌≢◌, ◌≤◌, ◌<◌, ◌||◌, ◌⊎◌, List, ◌++◌, ◌∷◌, [], map, filter, length, true, false, IfOk, OnOk, OnErr, None, Err};
ghost use Rattle.dots_keys.specs.Askable.{IsAskableBody};
ghost use Rattle.dots_settings.specs.Settings.{SettingsValue};
ghost use Rattle.dots_settings.specs.Lookups.{role_of, prefixes_of};
ghost use Rattle.dots_history.specs.Calm.{may_act, is_client_of};
ghost use Rattle.dots_history.specs.declared.entry.Entry.{Entry};
ghost use Rattle.conflict_rules.specs.Results.{Gives};
ghost use Rattle.conflict_rules.specs.declared.fault.PutFault.TheVariants as faults;
ghost use Rattle.dots_registry.specs.RegistryValues.{time_of, domains_of};
ghost use Rattle.dots_registry.specs.RegistryValues as registry;
ghost use Rattle.conflict_rules.specs.ByHistory.{judge_request};
ghost use Rattle.reply_bodies.specs.Mitigations.{scope_of};
ghost use Rattle.dots_machine.specs.Machine.{State, facts_in};
ghost use Rattle.dots_lists.specs.Name.{is_name};
ghost use Rattle.dots_machine.specs.Replies.{conflicting, deleted, granting, mitigation_fields};
ghost use Rattle.conflict_rules.specs.AskableTargets.{scope_fault};
ghost use Rattle.dots_machine.specs.declared.verdict.Verdict.TheVariants as verdicts;
ghost use Rattle.dots_machine.specs.Mitigations.{grant, entry_of, refusal, judged, request_of, is_wanted, put_answer, is_taken, delete_by, delete_answer, get_answer, client_for};
ghost use Rattle.dots_machine.specs.Deciding.{delete_in};
ghost use Rattle.conflict_rules.specs.LiveViews.{LiveView};
ghost use Rattle.live_mitigations.specs.LiveViews.{row_view};
ghost use Rattle.conflict_rules.specs.Statuses.{is_standing, views_in};
ghost use Rattle.dots_server.specs.LackingMemory.{is_made, put_takes, Yields, YieldsMade, YieldsJudged};
ghost use Rattle.dots_server.specs.ServerValues.{Represents, CanCarryOut};
ghost use Rattle.dots_server.specs.MitigationReading.{read_as, CanAnswer};

use crate::entries::{copies, entry_of};
use crate::long_replies::{conflicting, retrieved_body};
use crate::replies::{
    absent, at_capacity, bad_request, bad_target, deleted, granting, unavailable,
};
use crate::server::Server;
use crate::verdict::Verdict;
use conflict_rules::{Judged, PutFault, PutRequest};
use dots_history::{Change, Entry};
use dots_keys::{Exchange, ShortMessage};
use dots_lists::{Bytes, List, Name, NoMemory};
use dots_machine::{ClientRequest, MitigationRequest, scope_fault};
use dots_registry::Registry;
use dots_settings::Settings;
use live_mitigations::MitigationRow;
use reply_bodies::{ConflictCause, Content, MitigationView, ViewList};
use std::alloc::Global;

/// The status of a mitigation that stands and filters (RFC 9132, section 4.4.2).
const FILTERS: u8 = 2;

/// That of one that stands and waits for a lost signal.
const WAITS: u8 = 8;

impl Server {
    /// What is decided on a request for a mitigation of a peer that may act for the domain (RFC 9132, section 4.4.1).
    pub(crate) fn decide_put(&self, asked: MitigationRequest) -> Result<Verdict, NoMemory>
        requires askable { IsAskableBody asked.body }
        requires acts { may_act self.now.settings (role_of self.now.settings asked.from.peer) asked.from.domain ≡ true }
        requires waits { (asked.body.trigger || is_client_of (role_of self.now.settings asked.from.peer) asked.from.domain) ≡ true }
        ensures decides { (settings : SettingsValue) (state : State) → Represents self.now settings state
            → Yields result (put_answer settings (facts_in settings state) asked) (put_takes settings (facts_in settings state) asked) }
        ensures ready { IfOk result (λ verdict. CanCarryOut verdict self.now) }
    {
        self.decide_asked(&asked)
    }

    /// The same, over a request that its caller lets go.
    fn decide_asked(&self, asked: &MitigationRequest) -> Result<Verdict, NoMemory>
        requires askable { IsAskableBody asked.now.body }
        requires acts { may_act self.now.settings (role_of self.now.settings asked.now.from.peer) asked.now.from.domain ≡ true }
        requires waits { (asked.now.body.trigger || is_client_of (role_of self.now.settings asked.now.from.peer) asked.now.from.domain) ≡ true }
        ensures decides { (settings : SettingsValue) (state : State) → Represents self.now settings state
            → Yields result (put_answer settings (facts_in settings state) asked.now) (put_takes settings (facts_in settings state) asked.now) }
        ensures ready { IfOk result (λ verdict. CanCarryOut verdict self.now) }
    {
        let domain = self.settings.prefixes_of(asked.from.domain);
        if let Some(fault) = scope_fault(&self.settings, domain, &asked.body.asked) {
            return Ok(Verdict::Reply(bad_target(&asked.from.exchange, fault)));
        }
        let known = self.remembered(asked.from.peer, asked.from.domain, &asked.from.exchange);
        if let Some(reply) = known {
            return Ok(Verdict::Reply(reply));
        }
        self.judge(asked)
    }

    /// What the rules say of a request for what may be asked for.
    fn judge(&self, asked: &MitigationRequest) -> Result<Verdict, NoMemory>
        requires askable { IsAskableBody asked.now.body }
        requires acts { may_act self.now.settings (role_of self.now.settings asked.now.from.peer) asked.now.from.domain ≡ true }
        requires waits { (asked.now.body.trigger || is_client_of (role_of self.now.settings asked.now.from.peer) asked.now.from.domain) ≡ true }
        requires clear { scope_fault self.now.settings (prefixes_of self.now.settings asked.now.from.domain) asked.now.body.asked ≡ None }
        ensures decides { (settings : SettingsValue) (state : State) → Represents self.now settings state
            → YieldsJudged result state.time asked.now (judge_request settings state.time state.history asked.now.from.domain (request_of asked.now)) }
        ensures ready { IfOk result (λ verdict. CanCarryOut verdict self.now) }
    {
        match self.judged(asked) {
            Ok(judged) => self.grant(&asked.from, judged),
            Err(fault) => self.refuse(&asked.from.exchange, asked.mid, fault),
        }
    }

    /// The judgement of a request by the rules, over what the registry keeps.
    fn judged(&self, asked: &MitigationRequest) -> Result<Judged, PutFault>
        requires askable { IsAskableBody asked.now.body }
        requires acts { may_act self.now.settings (role_of self.now.settings asked.now.from.peer) asked.now.from.domain ≡ true }
        ensures { (entries : List Entry) → registry.Represents self.now.registry entries
            → Gives result (judge_request self.now.settings (time_of self.now.registry) entries asked.now.from.domain (request_of asked.now)) }
    {
        judged_by(self.ledger.registry(), &self.settings, asked)
    }

    /// What is granted is kept, and its client is told.
    fn grant(&self, from: &ClientRequest, judged: Judged) -> Result<Verdict, NoMemory>
        ensures verdict { IfOk result (λ verdict. verdict ≡ grant (time_of self.now.registry) from.now judged) }
        ensures cuid { OnOk result (is_name from.now.cuid ≡ true) }
        ensures reply { OnOk result (length (granting from.now.exchange judged) ≤ 64) }
    {
        match granting(self.alloc, &from.exchange, &judged) {
            Ok(reply) => self.accept(from, reply, Change::Put(judged.put)),
            Err(fault) => Err(fault),
        }
    }

    /// A change is accepted with this reply.
    fn accept(
        &self,
        from: &ClientRequest,
        reply: ShortMessage,
        change: Change,
    ) -> Result<Verdict, NoMemory>
        ensures verdict { IfOk result (λ verdict. verdict ≡ verdicts.Accept reply (entry_of (time_of self.now.registry) from.now reply change)) }
        ensures cuid { OnOk result (is_name from.now.cuid ≡ true) }
        ensures reply { OnOk result (length reply ≤ 64) }
    {
        let time = self.ledger.registry().time();
        match copies(self.alloc, &from.cuid, &reply) {
            Ok(copies) => self.staged(reply, entry_of(time, from, copies, change)),
            Err(fault) => without(change, fault),
        }
    }

    /// The rows of an accepted entry are made beside it.
    fn staged(&self, reply: ShortMessage, entry: Entry) -> Result<Verdict, NoMemory>
        ensures { IfOk result (λ verdict. verdict ≡ verdicts.Accept reply entry) }
    {
        match self.ledger.registry().stage(entry) {
            Ok(entry) => Ok(Verdict::Accept { reply, entry }),
            Err(fault) => Err(fault),
        }
    }

    /// The answer to a request that can't be granted.
    fn refuse(&self, exchange: &Exchange, mid: u32, fault: PutFault) -> Result<Verdict, NoMemory>
        ensures verdict { IfOk result (λ verdict. verdict ≡ refusal exchange.now mid fault) }
        ensures known { OnOk result (fault ≢ faults.NoMemory) }
        ensures lacks { OnErr result ((fault ≡ faults.NoMemory) ⊎ (is_made (refusal exchange.now mid fault) ≡ true)) }
        ensures ready { IfOk result (λ verdict. CanCarryOut verdict self.now) }
    {
        match fault {
            PutFault::Collision => self.conflict(exchange, Some(mid), ConflictCause::Collision),
            PutFault::Higher { mid: higher } => {
                self.conflict(exchange, Some(mid), ConflictCause::Higher(higher))
            }
            PutFault::Other { prefixes } => {
                self.conflict(exchange, Some(mid), ConflictCause::Other(prefixes))
            }
            PutFault::Changed => Ok(Verdict::Reply(bad_request(exchange, b"changed"))),
            PutFault::UnknownAlias => Ok(Verdict::Reply(bad_request(exchange, b"unknown alias"))),
            PutFault::TooMany => Ok(Verdict::Reply(bad_request(exchange, b"too many"))),
            PutFault::Capacity { .. } => Ok(Verdict::Reply(at_capacity(exchange))),
            PutFault::NoMemory => Err(NoMemory),
        }
    }

    /// What is decided on a request to withdraw the mitigation of a mid (RFC 9132, section 4.4.4).
    pub(crate) fn decide_delete(&self, from: &ClientRequest, mid: u32) -> Result<Verdict, NoMemory>
        requires acts { may_act self.now.settings (role_of self.now.settings from.now.peer) from.now.domain ≡ true }
        ensures decides { (settings : SettingsValue) (state : State) → Represents self.now settings state
            → YieldsMade result (delete_in (facts_in settings state) from.now mid) }
        ensures ready { IfOk result (λ verdict. CanCarryOut verdict self.now) }
    {
        let known = self.remembered(from.peer, from.domain, &from.exchange);
        if let Some(reply) = known {
            return Ok(Verdict::Reply(reply));
        }
        self.judge_delete(from, mid)
    }

    /// What the rules say of a request to withdraw.
    fn judge_delete(&self, from: &ClientRequest, mid: u32) -> Result<Verdict, NoMemory>
        requires acts { may_act self.now.settings (role_of self.now.settings from.now.peer) from.now.domain ≡ true }
        ensures decides { (settings : SettingsValue) (state : State) → Represents self.now settings state
            → YieldsMade result (delete_answer (facts_in settings state) from.now mid) }
        ensures ready { IfOk result (λ verdict. CanCarryOut verdict self.now) }
    {
        if self.is_taken(from) {
            return self.conflict(&from.exchange, Some(mid), ConflictCause::Collision);
        }
        if !self.stands(from, mid) {
            return Ok(Verdict::Reply(deleted(&from.exchange)));
        }
        self.withdraw(from, mid)
    }

    /// A mitigation that stands is withdrawn.
    fn withdraw(&self, from: &ClientRequest, mid: u32) -> Result<Verdict, NoMemory>
        ensures verdict { IfOk result (λ verdict. verdict ≡ delete_by (time_of self.now.registry) from.now mid false true) }
        ensures cuid { OnOk result (is_name from.now.cuid ≡ true) }
        ensures reply { OnOk result (length (deleted from.now.exchange) ≤ 64) }
    {
        self.accept(from, deleted(&from.exchange), Change::Withdraw { mid })
    }

    /// What is decided on a request to read mitigations of a client, or that of a mid (RFC 9132, section 4.4.2).
    pub(crate) fn decide_get(
        &self,
        from: &ClientRequest,
        mid: Option<u32>,
        content: Content,
    ) -> Result<Reading, NoMemory>
        requires acts { may_act self.now.settings (role_of self.now.settings from.now.peer) from.now.domain ≡ true }
        ensures decides { (settings : SettingsValue) (state : State) → Represents self.now settings state
            → IfOk result (λ reading. read_as from.now.exchange reading ≡ get_answer (facts_in settings state) from.now mid content) }
        ensures lacks { (settings : SettingsValue) (state : State) → Represents self.now settings state
            → OnErr result (is_made (get_answer (facts_in settings state) from.now mid content) ≡ true) }
        ensures ready { IfOk result (λ reading. CanAnswer reading self.now) }
    {
        if self.is_taken(from) {
            let conflict = self.conflict(&from.exchange, mid, ConflictCause::Collision)?;
            return Ok(Reading::Answered(conflict));
        }
        let views = self.views(from, mid, content)?;
        if views.items().is_empty() {
            return Ok(Reading::Answered(Verdict::Reply(absent(&from.exchange))));
        }
        Ok(Reading::Listed(retrieved_body(self.alloc, views)?))
    }

    /// The refusal for what stands in the way.
    fn conflict(
        &self,
        exchange: &Exchange,
        mid: Option<u32>,
        cause: ConflictCause,
    ) -> Result<Verdict, NoMemory>
        ensures verdict { IfOk result (λ verdict. verdict ≡ verdicts.LongReply (conflicting exchange.now mid cause)) }
        ensures ready { IfOk result (λ verdict. CanCarryOut verdict self.now) }
    {
        match conflicting(self.alloc, exchange, mid, cause) {
            Ok(reply) => Ok(Verdict::LongReply(reply)),
            Err(fault) => Err(fault),
        }
    }

    /// Whether the client's name is in use by another peer.
    fn is_taken(&self, from: &ClientRequest) -> bool
        requires acts { may_act self.now.settings (role_of self.now.settings from.now.peer) from.now.domain ≡ true }
        ensures { (settings : SettingsValue) (state : State) → Represents self.now settings state → result ≡ is_taken (facts_in settings state) from.now }
    {
        self.ledger
            .registry()
            .collides(from.domain, from.cuid.bytes(), from.peer)
    }

    /// Whether a mitigation of the client with this mid stands.
    fn stands(&self, from: &ClientRequest, mid: u32) -> bool
        requires acts { may_act self.now.settings (role_of self.now.settings from.now.peer) from.now.domain ≡ true }
        ensures { (settings : SettingsValue) (state : State) → Represents self.now settings state
            → result ≡ (facts_in settings state).stands (client_for from.now) mid }
    {
        for row in self
            .ledger
            .registry()
            .mitigations(from.domain, from.cuid.bytes())
        {
            if row.put.mid == mid && is_standing(row.status) {
                return true;
            }
        }
        false
    }

    /// The live mitigations of the client, or that of a mid, as they are to be told.
    fn views<'a>(
        &'a self,
        from: &'a ClientRequest,
        mid: Option<u32>,
        content: Content,
    ) -> Result<ViewList<'a>, NoMemory>
        requires acts { may_act self.now.settings (role_of self.now.settings from.now.peer) from.now.domain ≡ true }
        ensures told { (settings : SettingsValue) (state : State) → Represents self.now settings state
            → IfOk result (λ views. map scope_of views ≡ map (mitigation_fields content) (filter (is_wanted mid) ((facts_in settings state).views (client_for from.now)))) }
        ensures lacks { (settings : SettingsValue) (state : State) → Represents self.now settings state
            → OnErr result (filter (is_wanted mid) ((facts_in settings state).views (client_for from.now)) ≢ []) }
    {
        views_of(
            self.alloc,
            self.ledger.registry(),
            from.domain,
            &from.cuid,
            mid,
            content,
        )
    }
}

/// What is decided on a request to read mitigations.
#[derive(Drop)]
pub(crate) enum Reading {
    /// Something else than mitigations is told.
    Answered(Verdict),
    /// Mitigations are shown by this body.
    Listed(Bytes),
}

/// The live mitigations of the client of this name in a domain, or that of a mid, as they are to be told.
pub(crate) fn views_of<'a>(
    alloc: Global,
    tables: &'a Registry,
    domain: u16,
    cuid: &'a Name,
    mid: Option<u32>,
    content: Content,
) -> Result<ViewList<'a>, NoMemory>
    requires within { domain < domains_of tables.now }
    ensures told { (entries : List Entry) → registry.Represents tables.now entries
        → IfOk result (λ views. map scope_of views ≡ map (mitigation_fields content) (filter (is_wanted mid) (views_in domain cuid.now (time_of tables.now) entries))) }
    ensures lacks { (entries : List Entry) → registry.Represents tables.now entries
        → OnErr result (filter (is_wanted mid) (views_in domain cuid.now (time_of tables.now) entries) ≢ []) }
{
    let mut views = List::new(alloc);
    for row in tables.mitigations(domain, cuid.bytes()) {
        push_wanted(&mut views, &row, mid, content)?;
    }
    Ok(views)
}

/// Whether a mitigation stands, by the status that is shown of it.
fn is_standing(status: u8) -> bool
    ensures { result ≡ is_standing status }
{
    status == FILTERS || status == WAITS
}

/// Puts what is to be told of a live mitigation behind the others, where it is wanted.
fn push_wanted<'a>(
    views: &mut ViewList<'a>,
    row: &MitigationRow<'a>,
    mid: Option<u32>,
    content: Content,
) -> Result<(), NoMemory>
    ensures told { OnOk result (map scope_of views.new ≡ map scope_of views.old ++ map (mitigation_fields content) (filter (is_wanted mid) (row_view row.now ∷ []))) }
    ensures lacks { OnErr result (is_wanted mid (row_view row.now) ≡ true) }
{
    if !is_wanted(mid, row.put.mid) {
        return Ok(());
    }
    views.push(MitigationView {
        mid: row.put.mid,
        asked: &row.put.asked,
        left: row.left,
        start: row.put.start,
        status: row.status,
        trigger: row.put.trigger,
        content,
    })
}

/// There is no memory for a change, which is let go.
fn without(_change: Change, fault: NoMemory) -> Result<Verdict, NoMemory>
    ensures { result ≡ Err fault }
{
    Err(fault)
}

/// Whether all are wanted, or the mid is the one that is.
fn is_wanted(wanted: Option<u32>, mid: u32) -> bool
    ensures { (m : LiveView) → m.put.mid ≡ mid → result ≡ is_wanted wanted m }
{
    match wanted {
        Some(wanted) => mid == wanted,
        None => true,
    }
}

/// The judgement of a request by the rules, over what these tables have.
fn judged_by(
    tables: &Registry,
    settings: &Settings,
    asked: &MitigationRequest,
) -> Result<Judged, PutFault>
    requires askable { IsAskableBody asked.now.body }
    requires within { asked.now.from.domain < domains_of tables.now }
    ensures { (entries : List Entry) → registry.Represents tables.now entries
        → Gives result (judge_request settings.now (time_of tables.now) entries asked.now.from.domain (request_of asked.now)) }
{
    let request = PutRequest {
        peer: asked.from.peer,
        cuid: asked.from.cuid.bytes(),
        mid: asked.mid,
        asked: &asked.body.asked,
        lifetime: asked.body.lifetime,
        trigger: asked.body.trigger,
    };
    tables.judge_request(settings, asked.from.domain, &request)
}
