//! How a mitigation request stands to the live mitigations of its domain (RFC 9132, section 4.4.1).
//!
//! A [`Live`] is a live mitigation: it stands, or was withdrawn and is terminating. [`judge_mid`] and [`judge_overlap`]
//! judge a request by the list of those of one domain. Each answers by the first rule that applies, and its contract is
//! the definition in `specs/`: `Live` says what a live mitigation is to a request, `Asking` when two requests ask for
//! the same, `ByMid` and `ByOverlap` have the rules in their order.
//!
//! `Lives`, `ByHistory` and `LiveViews` say which mitigations a history has at a time, how it judges a request by them, and what is shown
//! of them (with `Statuses`); `Judgements` says the judgement by the places of the entries.
//!
//! Which targets may be asked for in a domain (RFC 9132, section 4.4.1; RFC 8783, section 6.1), and which destinations of an access list (RFC
//! 8783, section 7.2), is in `specs/AskableTargets.antt`: [`scope_fault`] and [`list_fault`] answer the first [`TargetFault`] of what is asked.
//!
//! When two mitigations overlap, and when one ends another, is defined in `dots_history`. No call takes memory.
#![tactic(auto)]

mod asking;
mod by_mid;
mod by_overlap;
mod fault;
mod judging;
pub mod laws;
mod live;
mod marking;
mod meeting;
mod put_request;
mod request;
mod scopes;
mod target;
mod targets;

pub use by_mid::{MidJudgement, collides, judge_mid};
pub use by_overlap::{Judgement, Which, are_few, judge_overlap};
pub use fault::PutFault;
pub use judging::{Judged, judge_put};
pub use live::{Live, Mitigates};
pub use put_request::{Client, PutRequest};
pub use scopes::{list_fault, scope_fault};
pub use target::TargetFault;
