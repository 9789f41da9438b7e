//! The codes of messages that agents of the signal channel send and read (RFC 7252, section 12.1).

/// Of an empty message.
pub const EMPTY: u8 = 0x00;

/// 0.01 GET.
pub const GET: u8 = 0x01;

/// 0.03 PUT.
pub const PUT: u8 = 0x03;

/// 0.04 DELETE.
pub const DELETE: u8 = 0x04;

/// 2.01 Created.
pub const CREATED: u8 = 0x41;

/// 2.02 Deleted.
pub const DELETED: u8 = 0x42;

/// 2.04 Changed.
pub const CHANGED: u8 = 0x44;

/// 2.05 Content.
pub const CONTENT: u8 = 0x45;

/// 4.00 Bad Request.
pub const BAD_REQUEST: u8 = 0x80;

/// 4.02 Bad Option.
pub const BAD_OPTION: u8 = 0x82;

/// 4.04 Not Found.
pub const NOT_FOUND: u8 = 0x84;

/// 4.05 Method Not Allowed.
pub const METHOD_NOT_ALLOWED: u8 = 0x85;

/// 4.06 Not Acceptable.
pub const NOT_ACCEPTABLE: u8 = 0x86;

/// 4.09 Conflict (RFC 8132, section 3.4).
pub const CONFLICT: u8 = 0x89;

/// 4.15 Unsupported Content-Format.
pub const UNSUPPORTED_CONTENT_FORMAT: u8 = 0x8f;

/// 4.22 Unprocessable Entity (RFC 8132, section 3.4).
pub const UNPROCESSABLE_ENTITY: u8 = 0x96;

/// 5.00 Internal Server Error.
pub const INTERNAL_SERVER_ERROR: u8 = 0xa0;

/// 5.01 Not Implemented.
pub const NOT_IMPLEMENTED: u8 = 0xa1;

/// 5.03 Service Unavailable.
pub const SERVICE_UNAVAILABLE: u8 = 0xa3;
