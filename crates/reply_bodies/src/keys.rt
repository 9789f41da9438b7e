//! The keys of the maps in a body (RFC 9132, section 6).

pub const MITIGATION_SCOPE: u8 = 1;

pub const SCOPE: u8 = 2;

pub const MID: u8 = 5;

pub const TARGET_PREFIX: u8 = 6;

pub const TARGET_PORT_RANGE: u8 = 7;

pub const LOWER_PORT: u8 = 8;

pub const UPPER_PORT: u8 = 9;

pub const TARGET_PROTOCOL: u8 = 10;

pub const TARGET_FQDN: u8 = 11;

pub const ALIAS_NAME: u8 = 13;

pub const LIFETIME: u8 = 14;

pub const MITIGATION_START: u8 = 15;

pub const STATUS: u8 = 16;

pub const CONFLICT_INFORMATION: u8 = 17;

pub const CONFLICT_STATUS: u8 = 18;

pub const CONFLICT_CAUSE: u8 = 19;

pub const RETRY_TIMER: u8 = 20;

pub const CONFLICT_SCOPE: u8 = 21;

pub const SIGNAL_CONFIG: u8 = 30;

pub const SID: u8 = 31;

pub const MITIGATING_CONFIG: u8 = 32;

pub const HEARTBEAT_INTERVAL: u8 = 33;

pub const CURRENT_VALUE: u8 = 36;

pub const MISSING_HB_ALLOWED: u8 = 37;

pub const MAX_RETRANSMIT: u8 = 38;

pub const ACK_TIMEOUT: u8 = 39;

pub const ACK_RANDOM_FACTOR: u8 = 40;

pub const CURRENT_VALUE_DECIMAL: u8 = 43;

pub const IDLE_CONFIG: u8 = 44;

pub const TRIGGER_MITIGATION: u8 = 45;

pub const HEARTBEAT: u8 = 49;

pub const PROBING_RATE: u8 = 50;

pub const PEER_HB_STATUS: u8 = 51;
