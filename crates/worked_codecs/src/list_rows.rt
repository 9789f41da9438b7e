//! Bodies of access lists.

use crate::data_asking::Form;
use crate::tables::{Rows, Worded, all_hold};
use std::alloc::{AllocError, Global};
use std::test::Fail;

/// A PUT of the list `x` of IPv4 with these entries, and what is told of it.
const ENTRIES: Form<'static> = Form {
    head: "PUT /dots-client=a/acls/acl=x",
    body: (
        "{\"ietf-dots-data-channel:acl\":[{\"name\":\"x\",\"type\":\"ipv4-acl-type\",\"aces\":{\"ace\":[",
        "]}}]}",
    ),
    worded: (
        "PutAcl /dots-client=a/acls/acl=x|{\"aces\":{\"ace\":[",
        "]},\"activation-type\":\"activate-when-mitigating\",\"name\":\"x\",\"type\":\"ipv4-acl-type\"}",
    ),
};

/// The same with an entry `e` that drops what matches so.
const MATCHES: Form<'static> = Form {
    body: (
        "{\"ietf-dots-data-channel:acl\":[{\"name\":\"x\",\"type\":\"ipv4-acl-type\",\"aces\":{\"ace\":[{\"name\":\"e\",\"matches\":{",
        "},\"actions\":{\"forwarding\":\"drop\"}}]}}]}",
    ),
    worded: (
        "PutAcl /dots-client=a/acls/acl=x|{\"aces\":{\"ace\":[{\"actions\":{\"forwarding\":\"drop\"},",
        "\"name\":\"e\"}]},\"activation-type\":\"activate-when-mitigating\",\"name\":\"x\",\"type\":\"ipv4-acl-type\"}",
    ),
    ..ENTRIES
};

/// The same of IPv6.
const MATCHES_OF_IPV6: Form<'static> = Form {
    body: (
        "{\"ietf-dots-data-channel:acl\":[{\"name\":\"x\",\"type\":\"ipv6-acl-type\",\"aces\":{\"ace\":[{\"name\":\"e\",\"matches\":{",
        "},\"actions\":{\"forwarding\":\"drop\"}}]}}]}",
    ),
    worded: (
        "PutAcl /dots-client=a/acls/acl=x|{\"aces\":{\"ace\":[{\"actions\":{\"forwarding\":\"drop\"},",
        "\"name\":\"e\"}]},\"activation-type\":\"activate-when-mitigating\",\"name\":\"x\",\"type\":\"ipv6-acl-type\"}",
    ),
    ..ENTRIES
};

/// What is told of a list whose body is refused.
const REFUSED: (&str, &str) = ("Body(", ")");

/// A PUT of the list `x` with these members, which is refused.
const BAD_LIST: Form<'static> = Form {
    head: "PUT /dots-client=a/acls/acl=x",
    body: ("{\"ietf-dots-data-channel:acl\":[{\"name\":\"x\"", "}]}"),
    worded: REFUSED,
};

const BAD_ENTRIES: Form<'static> = Form {
    worded: REFUSED,
    ..ENTRIES
};

const BAD_MATCHES: Form<'static> = Form {
    worded: REFUSED,
    ..MATCHES
};

/// Creating access lists (RFC 8783, sections 7.2 and 7.3). A match of flow labels or of fragments isn't served.
const REQUESTS: &str =
    r#"POST /dots-client=paL8p4Zqo4SLv64TLPXrxA|{"ietf-dots-data-channel:acls":{"acl":[{"name":"an-accept-list","type":"ipv4-acl-type","activation-type":"activate-when-mitigating","aces":{"ace":[{"name":"test-ace-ipv6-udp","matches":{"ipv4":{"destination-ipv4-network":"198.51.100.0/24","source-ipv4-network":"192.0.2.0/24"}},"actions":{"forwarding":"accept"}}]}}]}} = PostAcl /dots-client=paL8p4Zqo4SLv64TLPXrxA/acls/acl=an-accept-list|{"aces":{"ace":[{"actions":{"forwarding":"accept"},"matches":{"ipv4":{"destination-ipv4-network":"198.51.100.0/24","source-ipv4-network":"192.0.2.0/24"}},"name":"test-ace-ipv6-udp"}]},"activation-type":"activate-when-mitigating","name":"an-accept-list","type":"ipv4-acl-type"}
POST /dots-client=paL8p4Zqo4SLv64TLPXrxA|{"ietf-dots-data-channel:acl":[{"name":"sample-ipv4-acl","type":"ipv4-acl-type","activation-type":"immediate","aces":{"ace":[{"name":"rule1","matches":{"ipv4":{"source-ipv4-network":"192.0.2.0/24"}},"actions":{"forwarding":"drop"}}]}}]} = PostAcl /dots-client=paL8p4Zqo4SLv64TLPXrxA/acls/acl=sample-ipv4-acl|{"aces":{"ace":[{"actions":{"forwarding":"drop"},"matches":{"ipv4":{"source-ipv4-network":"192.0.2.0/24"}},"name":"rule1"}]},"activation-type":"immediate","name":"sample-ipv4-acl","type":"ipv4-acl-type"}
POST /dots-client=paL8p4Zqo4SLv64TLPXrxA|{"ietf-dots-data-channel:acls":{"acl":[{"name":"dns","type":"ipv4-acl-type","aces":{"ace":[{"name":"allow-dns-packets","matches":{"ipv4":{"destination-ipv4-network":"198.51.100.0/24"},"udp":{"destination-port":{"operator":"eq","port":53}}},"actions":{"forwarding":"accept"}}]}}]}} = PostAcl /dots-client=paL8p4Zqo4SLv64TLPXrxA/acls/acl=dns|{"aces":{"ace":[{"actions":{"forwarding":"accept"},"matches":{"ipv4":{"destination-ipv4-network":"198.51.100.0/24"},"udp":{"destination-port-range-or-operator":{"operator":"eq","port":53}}},"name":"allow-dns-packets"}]},"activation-type":"activate-when-mitigating","name":"dns","type":"ipv4-acl-type"}
POST /dots-client=paL8p4Zqo4SLv64TLPXrxA|{"ietf-dots-data-channel:acls":{"acl":[{"name":"test-acl-ipv6-udp","type":"ipv6-acl-type","activation-type":"immediate","aces":{"ace":[{"name":"my-test-ace","matches":{"ipv6":{"destination-ipv6-network":"2001:db8:6401::2/127","source-ipv6-network":"2001:db8:1234::/96","protocol":17,"flow-label":10000}},"actions":{"forwarding":"accept"}}]}}]}} = Body(Unknown)
POST /dots-client=paL8p4Zqo4SLv64TLPXrxA|{"ietf-dots-data-channel:acls":{"acl":[{"name":"dns-fragments","type":"ipv4-acl-type","aces":{"ace":[{"name":"drop-all-fragments","matches":{"ipv4":{"fragment":{"operator":"match","type":"isf"}}},"actions":{"forwarding":"drop"}}]}}]}} = Body(Unknown)
POST /dots-client=paL8p4Zqo4SLv64TLPXrxA|{"ietf-dots-data-channel:acls":{"acl":[{"name":"dns-fragments","type":"ipv6-acl-type","aces":{"ace":[{"name":"drop-all-fragments","matches":{"ipv6":{"fragment":{"operator":"match","type":"isf"}}},"actions":{"forwarding":"drop"}}]}}]}} = Body(Unknown)
POST /dots-client=paL8p4Zqo4SLv64TLPXrxA|{"ietf-dots-data-channel:acls":{"acl":[{"name":"dns","type":"ipv6-acl-type","aces":{"ace":[{"name":"allow-dns-packets","matches":{"ipv6":{"destination-ipv6-network":"2001:db8::/32"},"udp":{"destination-port":{"operator":"eq","port":53}}},"actions":{"forwarding":"accept"}}]}}]}} = PostAcl /dots-client=paL8p4Zqo4SLv64TLPXrxA/acls/acl=dns|{"aces":{"ace":[{"actions":{"forwarding":"accept"},"matches":{"ipv6":{"destination-ipv6-network":"2001:db8::/32"},"udp":{"destination-port-range-or-operator":{"operator":"eq","port":53}}},"name":"allow-dns-packets"}]},"activation-type":"activate-when-mitigating","name":"dns","type":"ipv6-acl-type"}
POST /dots-client=paL8p4Zqo4SLv64TLPXrxA|{"ietf-dots-data-channel:acls":{"acl":[{"name":"test-acl-ipv6-udp","type":"ipv6-acl-type","activation-type":"immediate","aces":{"ace":[{"name":"my-test-ace","matches":{"ipv6":{"destination-ipv6-network":"2001:db8:6401::2/127","source-ipv6-network":"2001:db8:1234::/96","protocol":17},"udp":{"source-port":{"operator":"lte","port":80},"destination-port":{"operator":"neq","port":1010}}},"actions":{"forwarding":"accept"}}]}}]}} = PostAcl /dots-client=paL8p4Zqo4SLv64TLPXrxA/acls/acl=test-acl-ipv6-udp|{"aces":{"ace":[{"actions":{"forwarding":"accept"},"matches":{"ipv6":{"destination-ipv6-network":"2001:db8:6401::2/127","source-ipv6-network":"2001:db8:1234::/96"},"udp":{"destination-port-range-or-operator":{"operator":"neq","port":1010},"source-port-range-or-operator":{"operator":"lte","port":80}}},"name":"my-test-ace"}]},"activation-type":"immediate","name":"test-acl-ipv6-udp","type":"ipv6-acl-type"}"#;

/// What an entry of IPv4 matches, and how it is printed.
const OF_IPV4: &str = r#" = 
"ipv4":{},"udp":{} = "matches":{"ipv4":{"protocol":17}},
"udp":{"source-port-range-or-operator":{"lower-port":1,"upper-port":2},"destination-port":{"operator":"neq","port":53}} = "matches":{"udp":{"destination-port-range-or-operator":{"operator":"neq","port":53},"source-port-range-or-operator":{"lower-port":1,"upper-port":2}}},
"tcp":{"source-port":{"operator":"lte","port":7}} = "matches":{"tcp":{"source-port-range-or-operator":{"operator":"lte","port":7}}},
"tcp":{"source-port":{"operator":"eq","port":7}} = "matches":{"tcp":{"source-port-range-or-operator":{"operator":"eq","port":7}}},"#;

/// What an entry of IPv4 may not match: both spellings of a port, both transports, a protocol that contradicts, the fields of IPv6, and
/// tests of a port that lack a member or mix two forms.
const BAD_OF_IPV4: &str =
    r#""tcp":{"source-port":{},"source-port-range-or-operator":{}} = Invalid(SourcePort)
"tcp":{},"udp":{} = Invalid(Udp)
"ipv4":{"protocol":17},"tcp":{} = Invalid(Protocol)
"ipv6":{} = Invalid(Ipv6)
"ipv4":{"source-ipv4-network":"::/0"} = Invalid(SourceNetwork)
"ipv4":{"source-ipv6-network":"::/0"} = Unknown
"tcp":{"source-port":{}} = Missing(Operator)
"tcp":{"source-port":{"port":1}} = Missing(Operator)
"tcp":{"source-port":{"operator":"eq"}} = Missing(Port)
"tcp":{"source-port":{"lower-port":1}} = Missing(UpperPort)
"tcp":{"source-port":{"lower-port":2,"upper-port":1}} = Invalid(UpperPort)
"tcp":{"source-port":{"lower-port":2,"upper-port":3,"port":3}} = Invalid(SourcePort)
"tcp":{"source-port":{"operator":"lt","port":3}} = Invalid(Operator)
"icmp":{} = Unknown"#;

/// What an entry of IPv6 matches, and how it is printed.
const OF_IPV6: &str = r#""ipv6":{"protocol":58} = "matches":{"ipv6":{"protocol":58}},
"ipv6":{"destination-ipv6-network":"2001:DB8::1/32","protocol":6},"tcp":{"destination-port":{"operator":"gte","port":1024}} = "matches":{"ipv6":{"destination-ipv6-network":"2001:db8::/32"},"tcp":{"destination-port-range-or-operator":{"operator":"gte","port":1024}}},"#;

/// Entries that are refused.
const REFUSED_ENTRIES: &str = r#" = Missing(Ace)
{} = Missing(Actions)
{"actions":{}} = Missing(Forwarding)
{"actions":{"forwarding":"reject"}} = Invalid(Forwarding)
{"actions":{"forwarding":"drop","rate-limit":"1"}} = Unknown
{"actions":{"forwarding":"drop"}} = Missing(Name)
{"name":"e","actions":{"forwarding":"drop"}},{"name":"e","actions":{"forwarding":"drop"}} = Invalid(Name)"#;

/// Lists that are refused.
const REFUSED_LISTS: &str = r#","type":"ipv5-acl-type","aces":{"ace":[]} = Invalid(AclKind)
 = Missing(AclKind)
,"type":"ipv4-acl-type" = Missing(Aces)
,"type":"ipv4-acl-type","aces":{} = Missing(Ace)
,"type":"ipv4-acl-type","activation-type":"never" = Invalid(ActivationType)
,"type":"ipv4-acl-type","pending-lifetime":1 = Unknown"#;

/// Entries of so many names, each with the same before and after its name.
fn listed(alloc: Global, count: u32, before: &str, after: &str) -> Result<String, AllocError> {
    let mut entries = String::new(alloc);
    for number in 0..count {
        let comma = if number == 0 { "" } else { "," };
        entries.push_str(&format!(in alloc; "{comma}{before}{number}{after}")?)?;
    }
    Ok(entries)
}

/// So many entries.
fn many(alloc: Global, count: u32) -> Result<String, AllocError> {
    listed(
        alloc,
        count,
        "{\"name\":\"",
        "\",\"actions\":{\"forwarding\":\"drop\"}}",
    )
}

/// A row of 64 entries, with all of them as they are printed.
fn most(alloc: Global) -> Result<String, AllocError> {
    let asked = many(alloc, 64)?;
    let printed = listed(
        alloc,
        64,
        "{\"actions\":{\"forwarding\":\"drop\"},\"name\":\"",
        "\"}",
    )?;
    format!(in alloc; "{asked} = {printed}")
}

/// A row of 65 entries.
fn too_many(alloc: Global) -> Result<String, AllocError> {
    let asked = many(alloc, 65)?;
    format!(in alloc; "{asked} = Invalid(Ace)")
}

#[test]
fn access_lists(rt: HostRuntime) {
    all_hold(&rt, rt.alloc(), Rows::Worded(Worded::Data), REQUESTS);
    all_hold(&rt, rt.alloc(), Rows::Members(BAD_LIST), REFUSED_LISTS);
    all_hold(&rt, rt.alloc(), Rows::Members(BAD_ENTRIES), REFUSED_ENTRIES);
    all_hold(&rt, rt.alloc(), Rows::Members(MATCHES), OF_IPV4);
    all_hold(&rt, rt.alloc(), Rows::Members(BAD_MATCHES), BAD_OF_IPV4);
    all_hold(&rt, rt.alloc(), Rows::Members(MATCHES_OF_IPV6), OF_IPV6);
}

/// A list of 64 entries is taken, and one of 65 isn't.
#[test]
fn at_most_64_entries(rt: HostRuntime) -> Result<(), Fail> {
    all_hold(&rt, rt.alloc(), Rows::Members(ENTRIES), &most(rt.alloc())?);
    all_hold(
        &rt,
        rt.alloc(),
        Rows::Members(BAD_ENTRIES),
        &too_many(rt.alloc())?,
    );
    Ok(())
}
