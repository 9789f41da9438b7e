//! The numbers of the options that agents of the signal channel know (RFC 7252, section 12.2).

/// Uri-Host.
pub const URI_HOST: u16 = 3;

/// Observe (RFC 7641, section 2).
pub const OBSERVE: u16 = 6;

/// Uri-Port.
pub const URI_PORT: u16 = 7;

/// Uri-Path.
pub const URI_PATH: u16 = 11;

/// Content-Format.
pub const CONTENT_FORMAT: u16 = 12;

/// Uri-Query.
pub const URI_QUERY: u16 = 15;

/// Hop-Limit (RFC 8768, section 3).
pub const HOP_LIMIT: u16 = 16;

/// Accept.
pub const ACCEPT: u16 = 17;
