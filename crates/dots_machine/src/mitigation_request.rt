use crate::client_request::ClientRequest;
use dots_keys::MitigationBody;

/// A request for a mitigation: who asks, and what (RFC 9132, section 4.4.1).
#[derive(Drop)]
pub struct MitigationRequest {
    pub from: ClientRequest,
    pub mid: u32,
    pub body: MitigationBody,
}
