//! The judgement of a request for a mitigation.

ghost use Rattle.std.specs.Prelude.{◌≡◌, ◌≤◌, ◌<◌, map, length, slice_get, IfOk, Ok, Some};
ghost use Rattle.conflict_rules.specs.declared.live.Live.{Live};
ghost use Rattle.acl_lists.specs.declared.limits.TheConstants.{MAX_RESOLVED};
ghost use Rattle.dots_history.specs.Bounds.{prefix_count};
ghost use Rattle.lifetime_clock.specs.Lifetime.{IsLifetime};
ghost use Rattle.conflict_rules.specs.Judging.{granted_put, refreshed, overlap_fault, judge_targets, judge_new, judge_put};
ghost use Rattle.conflict_rules.specs.Results.{Gives};

use crate::by_mid::{MidJudgement, judge_mid};
use crate::by_overlap::{Judgement, judge_overlap};
use crate::fault::PutFault;
use crate::live::Mitigates;
use crate::marking::marked;
use crate::put_request::{Client, PutRequest};
use crate::targets::{come_to_few, copy_of_targets, some_unknown, targets_of};
use acl_lists::Alias;
use dots_history::{Put, TargetList};
use dots_lists::NoMemory;
use dots_settings::Settings;
use lifetime_clock::grant;
use std::alloc::Global;

/// A mitigation that is granted.
#[derive(Drop)]
pub struct Judged {
    pub put: Put,
    /// Whether it refreshes one that stands.
    pub refreshed: bool,
}

/// Judges a request at this time, in seconds, by the live mitigations of its domain and by what is held of its client
/// (RFC 9132, section 4.4.1).
///
/// # Errors
///
/// That of the first rule that applies. `NoMemory` comes only where targets are copied or made, so never in place of
/// `Collision`, `Changed`, `UnknownAlias` or `TooMany`.
pub fn judge_put<T: Mitigates>(
    alloc: Global,
    settings: &Settings,
    live: &[T],
    client: &Client<'_>,
    time: u64,
    request: &PutRequest<'_>,
) -> Result<Judged, PutFault>
    requires { IsLifetime request.now.lifetime }
    ensures { Gives result (judge_put settings.now (map T.live live.now) client.now time request.now) }
{
    if client.is_of_another(request.peer) {
        return Err(PutFault::Collision);
    }
    match judge_mid(
        live,
        request.peer,
        request.cuid,
        request.mid,
        request.asked,
        request.trigger,
    ) {
        MidJudgement::Collision => Err(PutFault::Collision),
        MidJudgement::Changed => Err(PutFault::Changed),
        MidJudgement::Refresh { at } => refreshed(alloc, settings, put_at(live, at), request),
        MidJudgement::New => judge_new(alloc, settings, live, client.aliases, time, request),
    }
}

/// What was granted to the mitigation at this place.
fn put_at<T: Mitigates>(live: &[T], at: usize) -> &Put
    requires { at < length live.now }
    ensures { (m : Live) → slice_get (map T.live live.now) at ≡ Some m → result.now ≡ m.put }
{
    live[at].put()
}

/// What refreshes a mitigation: its targets and its start stay.
fn refreshed(
    alloc: Global,
    settings: &Settings,
    put: &Put,
    request: &PutRequest<'_>,
) -> Result<Judged, PutFault>
    requires { IsLifetime request.now.lifetime }
    ensures { Gives result (Ok (refreshed settings.now put.now request.now)) }
{
    let targets = copy_of_targets(alloc, put.targets.items())?;
    Ok(Judged {
        put: granted_put(alloc, settings, request, targets, put.start)?,
        refreshed: true,
    })
}

/// Judges a request of a mid of which no mitigation stands.
#[tactic(auto, using(crate::proofs::TakingMemory::new_takes))]
fn judge_new<T: Mitigates>(
    alloc: Global,
    settings: &Settings,
    live: &[T],
    aliases: &[Alias],
    time: u64,
    request: &PutRequest<'_>,
) -> Result<Judged, PutFault>
    requires { IsLifetime request.now.lifetime }
    ensures { Gives result (judge_new settings.now (map T.live live.now) aliases.now time request.now) }
{
    if some_unknown(aliases, request.asked.aliases.items()) {
        return Err(PutFault::UnknownAlias);
    }
    if !come_to_few(settings, aliases, request.asked) {
        return Err(PutFault::TooMany);
    }
    let targets = targets_of(alloc, settings, aliases, request.asked)?;
    judge_targets(alloc, settings, live, targets, time, request)
}

/// Judges a new mitigation of these targets, which have at most 128 prefixes together.
#[tactic(auto, using(crate::proofs::TakingMemory::targets_take))]
fn judge_targets<T: Mitigates>(
    alloc: Global,
    settings: &Settings,
    live: &[T],
    targets: TargetList,
    time: u64,
    request: &PutRequest<'_>,
) -> Result<Judged, PutFault>
    requires lifetime { IsLifetime request.now.lifetime }
    requires few { prefix_count targets ≤ MAX_RESOLVED }
    ensures { Gives result (judge_targets settings.now (map T.live live.now) targets time request.now) }
{
    if let Some(fault) = overlap_fault(alloc, settings, live, &targets, request)? {
        return Err(fault);
    }
    Ok(Judged {
        put: granted_put(alloc, settings, request, targets, time)?,
        refreshed: false,
    })
}

/// What stands against a new mitigation of these targets.
fn overlap_fault<T: Mitigates>(
    alloc: Global,
    settings: &Settings,
    live: &[T],
    targets: &TargetList,
    request: &PutRequest<'_>,
) -> Result<Option<PutFault>, NoMemory>
    requires { prefix_count targets.now ≤ MAX_RESOLVED }
    ensures { IfOk result (λ fault. fault ≡ overlap_fault settings.now (map T.live live.now) targets.now request.now) }
{
    let limits = settings.limits();
    match judge_overlap(
        live,
        request.cuid,
        request.mid,
        request.asked,
        targets,
        &limits,
        request.trigger,
    ) {
        Judgement::Higher { mid } => Ok(Some(PutFault::Higher { mid })),
        Judgement::Other { meeting } => {
            let prefixes = marked(alloc, targets.items(), meeting)?;
            Ok(Some(PutFault::Other { prefixes }))
        }
        Judgement::Full { which, number } => Ok(Some(PutFault::Capacity { which, number })),
        Judgement::Fresh => Ok(None),
    }
}

/// What is granted of a request, to these targets from this start.
fn granted_put(
    alloc: Global,
    settings: &Settings,
    request: &PutRequest<'_>,
    targets: TargetList,
    start: u64,
) -> Result<Put, NoMemory>
    requires { IsLifetime request.now.lifetime }
    ensures { IfOk result (λ put. put ≡ granted_put settings.now request.now targets start) }
{
    Ok(Put {
        mid: request.mid,
        asked: request.asked.copy(alloc)?,
        targets,
        granted: grant(request.lifetime, settings.ceiling(), settings.indefinite()),
        start,
        trigger: request.trigger,
    })
}
