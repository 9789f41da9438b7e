use crate::head_request::{Content, MitigationPath, Observe};
use acl_lists::Asked;

/// What a message asks.
#[derive(Drop)]
pub enum Request {
    /// A mitigation is asked for (RFC 9132, section 4.4.1). The path has a mid.
    PutMitigation {
        path: MitigationPath,
        body: MitigationBody,
    },
    /// The mitigations of a client, or the one of the path's mid (section 4.4.2).
    GetMitigation {
        path: MitigationPath,
        content: Content,
        observe: Observe,
    },
    /// A mitigation is withdrawn (section 4.4.4). The path has a mid.
    DeleteMitigation {
        path: MitigationPath,
    },
    /// A session is configured (section 4.5.2).
    PutConfig {
        sid: u32,
        body: ConfigBody,
    },
    /// The configuration of the session (sections 4.5.1 and 4.5.3).
    GetConfig {
        sid: Option<u32>,
    },
    /// A configuration is given up (section 4.5.4).
    DeleteConfig {
        sid: u32,
    },
    /// A heartbeat (section 4.7); `heard` is its `peer-hb-status`.
    PutHeartbeat {
        heard: bool,
    },
}

/// What a mitigation is asked for (RFC 9132, section 4.4.1).
#[derive(Drop)]
pub struct MitigationBody {
    /// The targets, with at least one prefix, name or alias.
    pub asked: Asked,
    /// The lifetime in seconds, from 1 on, or -1 for an indefinite one.
    pub lifetime: i32,
    /// Whether it filters at once, and not only while the signal of its client is lost (`trigger-mitigation`).
    pub trigger: bool,
}

/// What a session is to be configured with (RFC 9132, section 4.5.2). At least one of the two offers something.
#[derive(Clone, Copy)]
pub struct ConfigBody {
    /// While a mitigation is active.
    pub mitigating: Offer,
    /// While none is.
    pub idle: Offer,
}

/// The values that are given for a session; None where one isn't. They may be out of the range that is accepted.
#[derive(Clone, Copy)]
pub struct Offer {
    /// `heartbeat-interval`, in seconds.
    pub interval: Option<u64>,
    /// `missing-hb-allowed`.
    pub missing: Option<u64>,
    /// `max-retransmit`.
    pub retransmit: Option<u64>,
    /// `ack-timeout`, in hundredths of a second.
    pub timeout: Option<u64>,
    /// `ack-random-factor`, in hundredths.
    pub factor: Option<u64>,
    /// `probing-rate`, in bytes a second.
    pub rate: Option<u64>,
}
