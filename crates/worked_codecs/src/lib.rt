//! Worked bytes and calls of the crates below the server: messages of CoAP, and their frames in a stream, items of CBOR and hexadecimal text; deadlines; requests,
//! replies and sessions of the signal channel, and a client of it; streams of HTTP, requests and replies of the data channel; and what is answered
//! to requests of two peers, one after the other, over one registry, however a connection is cut into pieces.
//!
//! Each row is put to public calls. The expected values come from the RFCs, their examples and the protocol's documents, and not from
//! the program.
//!
//! Rows are text: [`tables`] says who reads them.
#![tactic(auto)]

#[cfg(test)]
mod agents;
#[cfg(test)]
mod alias_rows;
#[cfg(test)]
mod beat_rows;
#[cfg(test)]
mod block_exchanges;
#[cfg(test)]
mod block_notices;
#[cfg(test)]
mod body_rows;
#[cfg(test)]
mod cbor_examples;
#[cfg(test)]
mod cbor_rows;
#[cfg(test)]
mod clock_rows;
#[cfg(test)]
mod clock_scans;
#[cfg(test)]
mod coap_rows;
#[cfg(test)]
mod config_rows;
#[cfg(test)]
mod connection;
#[cfg(test)]
mod cut_rows;
#[cfg(test)]
mod data_asking;
#[cfg(test)]
mod exchange_rows;
#[cfg(test)]
mod frame_rows;
#[cfg(test)]
mod front_rows;
#[cfg(test)]
mod head_rows;
#[cfg(test)]
mod json_rows;
#[cfg(test)]
mod line_rows;
#[cfg(test)]
mod list_rows;
#[cfg(test)]
mod made_rows;
#[cfg(test)]
mod message_rows;
#[cfg(test)]
mod path_rows;
#[cfg(test)]
mod plain_configs;
#[cfg(test)]
mod reply_rows;
#[cfg(test)]
mod request_rows;
#[cfg(test)]
mod row;
#[cfg(test)]
mod signal_rows;
#[cfg(test)]
mod stream_rows;
#[cfg(test)]
mod tables;
#[cfg(test)]
mod text_rows;
