//! A server-domain gateway of the signal channel (RFC 8811, section 2.2.3): it passes requests of its clients on to one server, its
//! upstream, and the answers back.
//!
//! A [`GatewayCore`] makes no call of a socket or a clock. [`GatewayCore::up`] takes a datagram of a client and [`GatewayCore::down`] one
//! of the upstream, and each says what is to be sent. A request is passed on under a number of its own, and for the domain of its client,
//! whatever domain it named. What was passed on waits for 247 seconds as an [`Exchange`], so that a request that comes again has the
//! same number and its answer finds its client. A store keeps each new one before it is sent, and [`GatewayCore::restore`] takes them after a
//! crash.
//!
//! Start reading at `specs/Gateway.antt`, which has the gateway as a value and what a datagram does to it, at `specs/Forwarding.antt`,
//! which has the messages that are passed on, and at `specs/Exchanges.antt`. [`laws`] has what they come to.
#![tactic(auto)]

mod dropping;
mod exchange;
mod exchanges;
mod forwarding;
mod gateway;
pub mod laws;
mod options;
mod passed;
mod replies;
mod requests;
mod responses;
mod restoring;
mod routes;
mod searching;
mod wanted;
mod writing;

pub use exchange::{EXCHANGE_LIFETIME, Exchange, LAST_NUMBER, Waiting};
pub use gateway::{GatewayCore, MAX_WAITING};
pub use passed::{GatewayFault, HOP_LIMIT_REACHED, Passed};
pub use routes::{Route, domain_for, routes_of};
