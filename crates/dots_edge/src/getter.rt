use crate::way::Way;
use coap_message::Token;

/// Where GETs with a token come from: an observer is there where the GET registered one (RFC 7641, section 4.1).
#[derive(Clone, Copy)]
pub struct Getter {
    pub token: Token,
    pub way: Way,
}
