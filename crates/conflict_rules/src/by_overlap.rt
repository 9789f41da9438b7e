//! The judgement by overlaps and capacities.

ghost use Rattle.std.specs.Prelude.{◌≡◌, ◌≤◌, ◌&&◌, not, nat_le, map};
ghost use Rattle.acl_lists.specs.declared.limits.TheConstants.{MAX_RESOLVED};
ghost use Rattle.dots_history.specs.Bounds.{prefix_count};
ghost use Rattle.conflict_rules.specs.Wanted.{wanted};
ghost use Rattle.conflict_rules.specs.Live.{would_end};
ghost use Rattle.conflict_rules.specs.ByOverlap.{is_higher, highest_mid, is_contested, staying, own_staying, judge_room, judge_others, judge_overlap};

use crate::live::{Mitigates, is_of, stands_against, stands_for};
use crate::meeting::meeting;
use crate::request::Request;
use acl_lists::{Asked, greatest_from};
use dots_history::TargetList;
use dots_settings::Limits;

/// What the live mitigations of its domain make of a new mitigation.
#[derive(Clone, Copy)]
pub enum Judgement {
    /// A standing mitigation of the client with the same trigger value overlaps and has a higher mid; this is the highest
    /// such mid.
    Higher { mid: u32 },
    /// A standing mitigation of another client overlaps. Bit i is set exactly where the resolved prefix i, of those of
    /// the targets in order, meets such a mitigation.
    Other { meeting: u128 },
    /// As many live mitigations as may be would stay beside it, of the client or of the domain; this is their number.
    Full { which: Which, number: u64 },
    /// Nothing stands against it.
    Fresh,
}

/// Whose live mitigations are as many as may be.
#[derive(Clone, Copy)]
pub enum Which {
    Client,
    Domain,
}

/// Whether the targets have at most 128 prefixes together, as [`judge_overlap`] wants it.
pub fn are_few(targets: &TargetList) -> bool
    ensures { result ≡ nat_le (prefix_count targets.now) MAX_RESOLVED }
{
    dots_history::are_few(targets.items())
}

/// Judges a new mitigation, of which `targets` is what was asked for, by the live mitigations of its domain: whether it
/// overlaps with a standing one of its client that has the same trigger value and a higher mid, or with one of another
/// client, and whether there is room, for the client and then for the domain, beside those that it wouldn't end (RFC
/// 9132, section 4.4.1). `trigger` says whether it filters at once, and not only while the client's signal is lost. The
/// first of these that applies is answered. The targets have at most 128 prefixes together.
pub fn judge_overlap<T: Mitigates>(
    live: &[T],
    cuid: &[u8],
    mid: u32,
    asked: &Asked,
    targets: &TargetList,
    limits: &Limits,
    trigger: bool,
) -> Judgement
    requires { prefix_count targets.now ≤ MAX_RESOLVED }
    ensures { result ≡ judge_overlap (map T.live live.now) cuid.now (wanted mid asked.now targets.now trigger) limits.now }
{
    let request = Request {
        mid,
        asked,
        targets,
        trigger,
    };
    match highest_mid(live, cuid, &request) {
        Some(mid) => Judgement::Higher { mid },
        None => judge_others(live, cuid, &request, limits),
    }
}

fn judge_others<T: Mitigates>(
    live: &[T],
    cuid: &[u8],
    request: &Request<'_>,
    limits: &Limits,
) -> Judgement
    requires { prefix_count request.now.targets ≤ MAX_RESOLVED }
    ensures { result ≡ judge_others (map T.live live.now) cuid.now request.now limits.now }
{
    if is_contested(live, cuid, request) {
        return Judgement::Other {
            meeting: meeting(live, cuid, request.targets.items()),
        };
    }
    judge_room(
        own_staying(live, cuid, request),
        staying(live, cuid, request),
        limits,
    )
}

#[tactic(auto, using(acl_lists::proofs::Greatest::greater_more))]
fn highest_mid<T: Mitigates>(live: &[T], cuid: &[u8], request: &Request<'_>) -> Option<u32>
    ensures { result ≡ highest_mid (map T.live live.now) cuid.now request.now }
{
    let mut highest = None;
    for mitigation in live {
        if is_higher(mitigation, cuid, request) {
            highest = Some(greatest_from(mitigation.put().mid, highest));
        }
    }
    highest
}

fn is_higher<T: Mitigates>(mitigation: &T, cuid: &[u8], request: &Request<'_>) -> bool
    ensures { result ≡ is_higher cuid.now request.now (T.live mitigation.now) }
{
    stands_for(mitigation, cuid)
        && request.mid < mitigation.put().mid
        && request.rivals(mitigation.put())
}

fn is_contested<T: Mitigates>(live: &[T], cuid: &[u8], request: &Request<'_>) -> bool
    ensures { result ≡ is_contested (map T.live live.now) cuid.now request.now }
{
    for mitigation in live {
        if stands_against(mitigation, cuid) && request.overlaps_another(mitigation.put()) {
            return true;
        }
    }
    false
}

fn staying<T: Mitigates>(live: &[T], cuid: &[u8], request: &Request<'_>) -> u64
    ensures { result ≡ staying (map T.live live.now) cuid.now request.now }
{
    let mut number = 0;
    for mitigation in live {
        if !would_end(mitigation, cuid, request) {
            number += 1;
        }
    }
    number
}

fn own_staying<T: Mitigates>(live: &[T], cuid: &[u8], request: &Request<'_>) -> u64
    ensures { result ≡ own_staying (map T.live live.now) cuid.now request.now }
{
    let mut number = 0;
    for mitigation in live {
        if is_of(mitigation, cuid) && !would_end(mitigation, cuid, request) {
            number += 1;
        }
    }
    number
}

fn would_end<T: Mitigates>(mitigation: &T, cuid: &[u8], request: &Request<'_>) -> bool
    ensures { result ≡ would_end cuid.now request.now (T.live mitigation.now) }
{
    is_of(mitigation, cuid) && request.replaces(mitigation.put())
}

fn judge_room(own: u64, all: u64, limits: &Limits) -> Judgement
    ensures { result ≡ judge_room own all limits.now }
{
    if own >= u64::from(limits.client_mitigations) {
        return Judgement::Full {
            which: Which::Client,
            number: own,
        };
    }
    if all >= u64::from(limits.domain_mitigations) {
        return Judgement::Full {
            which: Which::Domain,
            number: all,
        };
    }
    Judgement::Fresh
}
