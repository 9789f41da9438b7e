//! The resources of the data channel by their paths (RFC 8040, section 3.5.3; RFC 8783, sections 4.3, 6 and 7).

ghost use Rattle.std.specs.Prelude.{◌≡◌, ◌≤◌, ◌==◌, option_map, length};
ghost use Rattle.std.specs.List.{position_or_len};
ghost use Rattle.data_channel.specs.Paths.{is_segment, place_value};
ghost use Rattle.data_channel.specs.Places.{path_of, has_query, behind_front, unnamed, named, below_client, client_place, below_root, place_in};

/// The root of the data channel.
pub const ROOT: &[u8] = b"/restconf/data/ietf-dots-data-channel:dots-data";

/// What stands between the root and the name of a client.
pub const DOTS_CLIENT: &[u8] = b"/dots-client=";

/// What stands below a client: all aliases, and what is in front of the name of one.
pub const ALIASES: &[u8] = b"/aliases";

pub const ALIAS: &[u8] = b"/aliases/alias=";

/// The same of access lists.
pub const ACLS: &[u8] = b"/acls";

pub const ACL: &[u8] = b"/acls/acl=";

/// A kind of resource.
#[derive(Clone, Copy)]
pub enum Kind {
    Root,
    Client,
    Aliases,
    Alias,
    Acls,
    Acl,
}

/// A resource, with the names in its path as they stand there; a name that it hasn't is empty.
#[derive(Clone, Copy)]
pub struct Place<'a> {
    pub kind: Kind,
    pub client: &'a [u8],
    pub name: &'a [u8],
}

/// Where the byte stands first, or how many bytes there are.
fn place_of_first(bytes: &[u8], wanted: u8) -> usize
    ensures place { result ≡ position_or_len (λ byte. byte == wanted) bytes.now }
    ensures within { result ≤ length bytes.now }
{
    let mut at = 0;
    while at < bytes.len() {
        if bytes[at] == wanted {
            return at;
        }
        at += 1;
    }
    at
}

/// The path of a target, which the first `?` ends.
pub fn path_of(target: &[u8]) -> &[u8]
    ensures { result.now ≡ path_of target.now }
{
    &target[..place_of_first(target, b'?')]
}

/// Whether a target has a query, be it empty.
pub fn has_query(target: &[u8]) -> bool
    ensures { result ≡ has_query target.now }
{
    target.iter().any(|byte| *byte == b'?')
}

/// What stands behind the front, where the bytes begin with it.
fn behind_front<'a>(front: &[u8], bytes: &'a [u8]) -> Option<&'a [u8]>
    ensures { option_map (λ rest. rest.now) result ≡ behind_front front.now bytes.now }
{
    let mut rest = bytes;
    let mut wanted = front;
    while let Some((first, others)) = wanted.split_first() {
        let Some((byte, behind)) = rest.split_first() else {
            return None;
        };
        if *byte != *first {
            return None;
        }
        wanted = others;
        rest = behind;
    }
    Some(rest)
}

fn is_segment(bytes: &[u8]) -> bool
    ensures { result ≡ is_segment bytes.now }
{
    bytes.iter().all(|byte| *byte != b'/')
}

/// The resource of this kind that has no name.
fn unnamed(kind: Kind, client: &[u8]) -> Place<'_>
    ensures { place_value result ≡ unnamed kind client.now }
{
    Place {
        kind,
        client,
        name: b"",
    }
}

/// The resource of this kind whose name stands in one segment at the end of the path.
fn named<'a>(kind: Kind, client: &'a [u8], name: &'a [u8]) -> Option<Place<'a>>
    ensures { option_map place_value result ≡ named kind client.now name.now }
{
    if !is_segment(name) {
        return None;
    }
    Some(Place { kind, client, name })
}

/// The resource of a client, or of what stands below it.
fn below_client<'a>(client: &'a [u8], below: &'a [u8]) -> Option<Place<'a>>
    ensures { option_map place_value result ≡ below_client client.now below.now }
{
    if below == b"".as_slice() {
        return Some(unnamed(Kind::Client, client));
    }
    if below == ALIASES {
        return Some(unnamed(Kind::Aliases, client));
    }
    if below == ACLS {
        return Some(unnamed(Kind::Acls, client));
    }
    if let Some(name) = behind_front(ALIAS, below) {
        return named(Kind::Alias, client, name);
    }
    match behind_front(ACL, below) {
        Some(name) => named(Kind::Acl, client, name),
        None => None,
    }
}

fn client_place(rest: &[u8]) -> Option<Place<'_>>
    ensures { option_map place_value result ≡ client_place rest.now }
{
    let (client, below) = rest.split_at(place_of_first(rest, b'/'));
    below_client(client, below)
}

fn below_root(below: &[u8]) -> Option<Place<'_>>
    ensures { option_map place_value result ≡ below_root below.now }
{
    if below == b"".as_slice() {
        return Some(unnamed(Kind::Root, b""));
    }
    match behind_front(DOTS_CLIENT, below) {
        Some(rest) => client_place(rest),
        None => None,
    }
}

/// The resource of a path, or None where there is none.
pub fn place_in(path: &[u8]) -> Option<Place<'_>>
    ensures { option_map place_value result ≡ place_in path.now }
{
    match behind_front(ROOT, path) {
        Some(below) => below_root(below),
        None => None,
    }
}
