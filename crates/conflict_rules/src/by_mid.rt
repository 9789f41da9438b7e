//! The judgement by the mid of a request.

ghost use Rattle.std.specs.Prelude.{◌≡◌, map};
ghost use Rattle.conflict_rules.specs.ByMid.{collides, has_mid, judge_same_mid, judge_mid};

use crate::asking::would_refresh;
use crate::live::{Mitigates, is_of, stands_for};
use acl_lists::Asked;

/// What the live mitigations of its client with its mid make of a mitigation request.
#[derive(Clone, Copy)]
pub enum MidJudgement {
    /// The client's name is in use by another peer: a live mitigation of the client has another one.
    Collision,
    /// The request refreshes the standing mitigation at this place of the list: it asks for the same, with the same
    /// trigger value.
    Refresh { at: usize },
    /// A mitigation of this mid stands, and the request asks for something else, or has another trigger value.
    Changed,
    /// No mitigation of this mid stands.
    New,
}

/// Judges a request by the live mitigations of its domain: whether its client's name is in use by another peer, and
/// whether it refreshes a mitigation or would change one (RFC 9132, section 4.4.1). `trigger` says whether it asks for one
/// that filters at once, and not only while the client's signal is lost. The first of these that applies is answered.
pub fn judge_mid<T: Mitigates>(
    live: &[T],
    peer: u32,
    cuid: &[u8],
    mid: u32,
    asked: &Asked,
    trigger: bool,
) -> MidJudgement
    ensures { result ≡ judge_mid (map T.live live.now) peer cuid.now mid asked.now trigger }
{
    if collides(live, peer, cuid) {
        return MidJudgement::Collision;
    }
    judge_same_mid(live, cuid, mid, asked, trigger)
}

/// Whether a live mitigation of the client, standing or terminating, has another peer.
pub fn collides<T: Mitigates>(live: &[T], peer: u32, cuid: &[u8]) -> bool
    ensures { result ≡ collides (map T.live live.now) peer cuid.now }
{
    for mitigation in live {
        if is_of(mitigation, cuid) && mitigation.peer() != peer {
            return true;
        }
    }
    false
}

fn judge_same_mid<T: Mitigates>(
    live: &[T],
    cuid: &[u8],
    mid: u32,
    asked: &Asked,
    trigger: bool,
) -> MidJudgement
    ensures { result ≡ judge_same_mid cuid.now mid asked.now trigger 0 (map T.live live.now) }
{
    for (at, mitigation) in live.iter().enumerate() {
        if has_mid(mitigation, cuid, mid) {
            if would_refresh(asked, trigger, mitigation.put()) {
                return MidJudgement::Refresh { at };
            }
            return MidJudgement::Changed;
        }
    }
    MidJudgement::New
}

fn has_mid<T: Mitigates>(mitigation: &T, cuid: &[u8], mid: u32) -> bool
    ensures { result ≡ has_mid cuid.now mid (T.live mitigation.now) }
{
    stands_for(mitigation, cuid) && mitigation.put().mid == mid
}
