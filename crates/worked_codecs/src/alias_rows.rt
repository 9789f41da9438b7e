//! Bodies of clients and of aliases.

use crate::data_asking::Form;
use crate::tables::{Rows, Worded, all_hold};

/// A PUT of the alias `x` with these members, and what is told of it.
const ALIAS: Form<'static> = Form {
    head: "PUT /dots-client=a/aliases/alias=x",
    body: ("{\"ietf-dots-data-channel:alias\":[{\"name\":\"x\"", "}]}"),
    worded: (
        "PutAlias /dots-client=a/aliases/alias=x|{\"name\":\"x\"",
        "}",
    ),
};

/// The same where it is refused.
const REFUSED: Form<'static> = Form {
    worded: ("Body(", ")"),
    ..ALIAS
};

/// Registering a client (RFC 8783, section 5.1), and creating an alias (section 6.1). The name of a gateway's domain isn't served.
const REQUESTS: &str =
    r#"POST |{"ietf-dots-data-channel:dots-client":[{"cuid":"dz6pHjaADkaFTbjr0JGBpw"}]} = PostClient /dots-client=dz6pHjaADkaFTbjr0JGBpw|
PUT /dots-client=dz6pHjaADkaFTbjr0JGBpw| { "ietf-dots-data-channel:dots-client" : [ { "cuid": "dz6pHjaADkaFTbjr0JGBpw" } ] }  = PutClient /dots-client=dz6pHjaADkaFTbjr0JGBpw|
POST /dots-client=dz6pHjaADkaFTbjr0JGBpw|{"ietf-dots-data-channel:aliases":{"alias":[{"name":"https1","target-protocol":[6],"target-prefix":["2001:db8:6401::1/128","2001:db8:6401::2/128"],"target-port-range":[{"lower-port":443}]}]}} = PostAlias /dots-client=dz6pHjaADkaFTbjr0JGBpw/aliases/alias=https1|{"name":"https1","target-port-range":[{"lower-port":443,"upper-port":443}],"target-prefix":["2001:db8:6401::1/128","2001:db8:6401::2/128"],"target-protocol":[6]}
PUT /dots-client=dz6pHjaADkaFTbjr0JGBpw/aliases/alias=web|{"ietf-dots-data-channel:alias":[{"name":"web","target-prefix":["192.0.2.80/32"]}]} = PutAlias /dots-client=dz6pHjaADkaFTbjr0JGBpw/aliases/alias=web|{"name":"web","target-prefix":["192.0.2.80/32"]}
POST |{"ietf-dots-data-channel:dots-client":[{"cuid":"dz6pHjaADkaFTbjr0JGBpw","cdid":"7eeaf349529eb55ed50113"}]} = Body(Unknown)"#;

/// Bodies of a client and of an alias that are refused: the last have another name than the path, or lack the alias, or have something else beside it.
const BODIES: &str = r#"POST | = NotJson
POST |{"a":"\ud800"} = NotJson
POST |[] = Body(Invalid(DotsClient))
POST |{} = Body(Missing(DotsClient))
POST |{"a":1} = Body(Unknown)
POST |{"ietf-dots-data-channel:dots-client":[]} = Body(Missing(DotsClient))
POST |{"ietf-dots-data-channel:dots-client":[{},{}]} = Body(Invalid(DotsClient))
POST |{"ietf-dots-data-channel:dots-client":[{}]} = Body(Missing(Cuid))
POST |{"ietf-dots-data-channel:dots-client":[{"cuid":""}]} = Body(Invalid(Cuid))
PUT /dots-client=dz6pHjaADkaFTbjr0JGBpw|{"ietf-dots-data-channel:dots-client":[{"cuid":"a"}]} = Body(Invalid(Cuid))
PUT /dots-client=a/aliases/alias=y|{"ietf-dots-data-channel:alias":[{"name":"x","target-fqdn":["b"]}]} = Body(Invalid(Name))
POST /dots-client=dz6pHjaADkaFTbjr0JGBpw|{} = Body(Missing(Alias))
POST /dots-client=dz6pHjaADkaFTbjr0JGBpw|{"ietf-dots-data-channel:alias":[],"ietf-dots-data-channel:acl":[]} = Body(Unknown)
POST /dots-client=dz6pHjaADkaFTbjr0JGBpw|{"ietf-dots-data-channel:alias":[],"ietf-dots-data-channel:aliases":{}} = Body(Invalid(Aliases))"#;

/// Members of an alias, at their edges. The last of equal members counts.
const MEMBERS: &str = r#","target-fqdn":["a.example"] = ,"target-fqdn":["a.example"]
,"target-prefix":7,"target-prefix":["192.0.2.7/24"] = ,"target-prefix":["192.0.2.0/24"]
,"target-fqdn":["a"],"target-protocol":[255,0] = ,"target-fqdn":["a"],"target-protocol":[255,0]"#;

/// Members of an alias that are refused, at their edges.
const BAD_MEMBERS: &str = r#" = Missing(TargetPrefix)
,"target-prefix":[] = Missing(TargetPrefix)
,"target-prefix":["192.0.2.0/33"] = Invalid(TargetPrefix)
,"target-prefix":"192.0.2.0/24" = Invalid(TargetPrefix)
,"target-fqdn":["a"],"target-protocol":[80.0] = Invalid(TargetProtocol)
,"target-fqdn":["a"],"target-protocol":[8e1] = Invalid(TargetProtocol)
,"target-fqdn":["a"],"target-protocol":[-0] = Invalid(TargetProtocol)
,"target-fqdn":["a"],"target-protocol":[256] = Invalid(TargetProtocol)
,"target-fqdn":["a"],"target-port-range":[{"upper-port":1}] = Missing(LowerPort)
,"target-fqdn":["a"],"target-port-range":[{"lower-port":2,"upper-port":1}] = Invalid(UpperPort)
,"target-fqdn":["a"],"target-port-range":[{"lower-port":65536}] = Invalid(LowerPort)
,"target-fqdn":["a","a","a","a","a","a","a","a","a"] = Invalid(TargetFqdn)
,"target-fqdn":["a"],"target-uri":["b"] = Unknown
,"target-fqdn":["a"],"pending-lifetime":1 = Unknown"#;

#[test]
fn clients_and_aliases(rt: HostRuntime) {
    all_hold(&rt, rt.alloc(), Rows::Worded(Worded::Data), REQUESTS);
    all_hold(&rt, rt.alloc(), Rows::Worded(Worded::Data), BODIES);
    all_hold(&rt, rt.alloc(), Rows::Members(ALIAS), MEMBERS);
    all_hold(&rt, rt.alloc(), Rows::Members(REFUSED), BAD_MEMBERS);
}
