//! Paths, methods and what is refused before the body.

use crate::tables::{Rows, Worded, all_hold};

/// Requests without a body by their paths, with names as RFC 3986, section 2.1 encodes them.
const PATHS: &str = r#"GET /dots-client=a| = GetClient /dots-client=a|
DELETE /dots-client=a%2Fb| = DeleteClient /dots-client=a%2Fb|
GET /dots-client=%7e%7E~| = GetClient /dots-client=~~~|
GET /dots-client=%4a%zz%| = GetClient /dots-client=J%25zz%25|
GET /dots-client=a+b,c| = GetClient /dots-client=a%2Bb%2Cc|
GET /dots-client=a/aliases?content=all| = GetAliases /dots-client=a/aliases|
GET /dots-client=a/acls| = GetAcls /dots-client=a/acls|
GET /dots-client=a/aliases/alias=x| = GetAlias /dots-client=a/aliases/alias=x|
DELETE /dots-client=a/acls/acl=x| = DeleteAcl /dots-client=a/acls/acl=x|
GET /| = NotFound
GET s| = NotFound
GET /dots-client=a/| = NotFound
GET /dots-client=a/aliases/| = NotFound
GET /dots-client=a/aliases/acl=x| = NotFound
GET /dots-client=a/aliases/alias=x/y| = NotFound
GET /dots%2Dclient=a| = NotFound
GET /dots-client=/aliases| = BadName
GET /dots-client=%00| = BadName
GET /dots-client=a%20b| = BadName
GET /dots-client=a/acls/acl=%C3%BC| = BadName
GET /dots-client=a/vendors| = NotFound"#;

/// Requests without a body, as RFC 8783, sections 5.2, 6.2, 6.3, 7.1, 7.3 and 7.4 show them. Capabilities aren't served.
const EXAMPLES: &str =
    r#"DELETE /dots-client=dz6pHjaADkaFTbjr0JGBpw| = DeleteClient /dots-client=dz6pHjaADkaFTbjr0JGBpw|
GET /dots-client=dz6pHjaADkaFTbjr0JGBpw/aliases?content=all| = GetAliases /dots-client=dz6pHjaADkaFTbjr0JGBpw/aliases|
GET /dots-client=dz6pHjaADkaFTbjr0JGBpw/aliases/alias=Server2?content=all| = GetAlias /dots-client=dz6pHjaADkaFTbjr0JGBpw/aliases/alias=Server2|
DELETE /dots-client=dz6pHjaADkaFTbjr0JGBpw/aliases/alias=Server1| = DeleteAlias /dots-client=dz6pHjaADkaFTbjr0JGBpw/aliases/alias=Server1|
GET /dots-client=paL8p4Zqo4SLv64TLPXrxA/acls?content=all| = GetAcls /dots-client=paL8p4Zqo4SLv64TLPXrxA/acls|
GET /dots-client=paL8p4Zqo4SLv64TLPXrxA/acls/acl=test-acl-ipv6-udp?content=config| = GetAcl /dots-client=paL8p4Zqo4SLv64TLPXrxA/acls/acl=test-acl-ipv6-udp|
DELETE /dots-client=paL8p4Zqo4SLv64TLPXrxA/acls/acl=sample-ipv4-acl| = DeleteAcl /dots-client=paL8p4Zqo4SLv64TLPXrxA/acls/acl=sample-ipv4-acl|
GET /capabilities| = NotFound"#;

/// Refusals before the body, in their order. A body without a media type is taken for JSON.
const HEADS: &str = r#"HEAD /x text/plain|x = NotFound
HEAD /dots-client=? text/plain|x = BadName
HEAD /dots-client=a? text/plain|x = Query
PUT /dots-client=a? text/plain|x = Query
PATCH /dots-client=a text/plain|x = Method GET, PUT, POST, DELETE
get  text/plain|x = Method POST
POST /dots-client=a/aliases text/plain|x = Method GET
POST /dots-client=a/acls/acl=x text/plain|x = Method GET, PUT, DELETE
PUT /dots-client=a text/plain|x = Media
POST  |x = Media
POST  Application/YANG-data+json|x = NotJson
POST  -|{ = NotJson"#;

#[test]
fn paths(rt: HostRuntime) {
    all_hold(&rt, rt.alloc(), Rows::Worded(Worded::Data), PATHS);
    all_hold(&rt, rt.alloc(), Rows::Worded(Worded::Data), EXAMPLES);
    all_hold(&rt, rt.alloc(), Rows::Worded(Worded::Data), HEADS);
}
