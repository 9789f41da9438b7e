//! What the machine does, as definitions: for which domain a peer may ask, what a datagram is, what is decided, what is
//! reported, what the words of the command line ask for, and how a run ends.
//!
//! The definitions are in `specs/`, one file for each: `Domains`, `Requests` (what a datagram is), `Replies`, `MessageRepeats` (which
//! messages are repeats, and what they are answered), `Facts` (what is
//! known of a history, by the places of its entries), `ConfiguredPeers` (what a peer has configured, and what its heartbeats go by), `Mitigations` (what is decided on requests for them by the facts), `Deciding` (and on
//! any request), `Machine` (the state, verdicts and a step), `RepeatRule` (which requests come to the rule on repeats), `Apart` (how
//! domains stay apart), `OneView` (histories with one view), `Handlings` (a run by what becomes of its events), `Adding` (when an entry is added), `Isolation` (what becomes of a domain over a run),
//! `Orderly` (which mitigations stand beside each other), `Report`, `Commands`, `Outside` (what stood before and after) and `Endings`
//! (statuses). A run of the machine over the acts of a host is that of `dots_host`. The words are those of RFC 7252, RFC 8949 and
//! RFC 9132. The code here is the types that the definitions speak of, and the laws [`one_state`], [`one_answer`],
//! [`domains_stay_apart`], [`repeats_are_answered`], [`entries_are_accepted`], [`domains_are_isolated`], [`mitigations_stand_apart`], [`views_are_answered`] and [`runs_go_on`]. Read [`Received`] and
//! [`Verdict`] first. [`write_refusal`] prints the line of a disk that isn't recovered, which a server and a gateway have in common.
#![tactic(auto)]

mod client_request;
mod ending;
mod law;
mod mitigation_request;
mod received;
mod refusal;
mod verdict;
mod watching;

pub use client_request::ClientRequest;
pub use conflict_rules::{TargetFault, scope_fault};
pub use ending::{Ending, Printing, Stop};
pub use law::{
    domains_are_isolated, domains_stay_apart, entries_are_accepted, mitigations_stand_apart,
    one_answer, one_state, repeats_are_answered, runs_go_on, views_are_answered,
};
pub use mitigation_request::MitigationRequest;
pub use received::Received;
pub use refusal::write_refusal;
pub use verdict::Verdict;
pub use watching::Watching;
