//! Worked tables: what the libraries of the registry answer on rows of text.
//!
//! Each row is put to the public calls of a library: `registry_rows` to `dots_registry`, `history_rows` to the plain programs of
//! `dots_history` and `acl_lists`, `judgement_rows` to `conflict_rules`, `exchange_rows` to `coap_observe` and
//! `coap_exchange`, `record_rows` to `slot_journal`, and `moved_rows` to `host_checks`. The expected values come from the protocol's documents.
//!
//! [`tables`] says how a table is read, [`entries`] how an entry is, and [`texts`] has the names that stand in them.

pub mod entries;
mod exchange_rows;
mod histories;
mod history_rows;
mod judgement_rows;
mod judgements;
mod moved;
mod moved_rows;
mod observers;
mod packets;
mod plain_views;
mod record_rows;
mod records;
mod registries;
mod registry_rows;
mod repeats;
mod senders;
mod spelled;
mod survivors;
mod tables;
mod taking;
mod texts;
mod words;
