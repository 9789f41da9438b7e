//! The path of a request.

ghost use Rattle.std.specs.Prelude.{◌≡◌, [], ◌∷◌, MatchOption, option_map};
ghost use Rattle.std.specs.Option.{option_copied};
ghost use Rattle.dots_keys.specs.Options.{values_of};
ghost use Rattle.dots_keys.specs.Paths.{take_parameter, mitigation_at, config_at, resource_named, resource_at, ended};
ghost use Rattle.dots_keys.specs.PathValues.{resource_value};

use crate::options::{URI_PATH, next_value};
use coap_message::{Message, Options};
use std::marker::Model;

/// The segments before the parameters (RFC 9132, sections 4.4.1, 4.5.1 and 4.7).
const WELL_KNOWN: &[u8] = b".well-known";

const DOTS: &[u8] = b"dots";

const MITIGATE: &[u8] = b"mitigate";

const CONFIG: &[u8] = b"config";

const HEARTBEAT: &[u8] = b"hb";

/// A resource, with the values of the parameters that stand in its path.
#[derive(Clone, Copy)]
pub enum Resource<'a> {
    Mitigation {
        cdid: Option<&'a [u8]>,
        cuid: Option<&'a [u8]>,
        mid: Option<&'a [u8]>,
    },
    Config {
        sid: Option<&'a [u8]>,
    },
    Heartbeat,
}

/// The segments of a path that are still to be read.
#[derive(Drop)]
struct Segments<'a> {
    /// The next one.
    next: Option<&'a [u8]>,
    /// The options behind it.
    rest: Options<'a>,
}

impl<'a> Model for Segments<'a> {
    ghost use Rattle.std.specs.Prelude.{ℕ, List};
    ghost use Rattle.std.specs.Option.{option_copied};
    ghost use Rattle.dots_keys.specs.Segments.{segments_left};

    ghost Value = { List (List ℕ) };

    ghost view = { λ segments. segments_left (option_copied segments.next) segments.rest };
}

impl<'a> Segments<'a> {
    fn of(message: &Message<'a>) -> Self
        ensures { result ≡ values_of 11 message.now.options }
    {
        let mut rest = message.options();
        let next = next_value(&mut rest, URI_PATH);
        Segments { next, rest }
    }

    /// The next segment, which is then read.
    fn next(&mut self) -> Option<&'a [u8]>
        ensures { MatchOption result (self.old ≡ []) (λ segment. self.old ≡ segment.now ∷ self.new) }
    {
        let Some(segment) = self.next else {
            return None;
        };
        self.next = next_value(&mut self.rest, URI_PATH);
        Some(segment)
    }

    /// The value of this parameter, if that is the next segment, which is then read.
    fn parameter(&mut self, name: &[u8]) -> Option<&'a [u8]>
        ensures { (option_copied result, self.new) ≡ take_parameter name.now self.old }
    {
        let Some(segment) = self.next else {
            return None;
        };
        let Some(value) = segment.strip_prefix(name) else {
            return None;
        };
        self.next = next_value(&mut self.rest, URI_PATH);
        Some(value)
    }

    /// The resource, if no segment is left.
    fn ended(&self, resource: Resource<'a>) -> Option<Resource<'a>>
        ensures { option_map resource_value result ≡ ended (resource_value resource.entry) self.now }
    {
        if self.next.is_some() {
            return None;
        }
        Some(resource)
    }

    fn mitigation(&mut self) -> Option<Resource<'a>>
        ensures { option_map resource_value result ≡ mitigation_at self.old }
    {
        let cdid = self.parameter(b"cdid=");
        let cuid = self.parameter(b"cuid=");
        let mid = self.parameter(b"mid=");
        self.ended(Resource::Mitigation { cdid, cuid, mid })
    }

    fn config(&mut self) -> Option<Resource<'a>>
        ensures { option_map resource_value result ≡ config_at self.old }
    {
        let sid = self.parameter(b"sid=");
        self.ended(Resource::Config { sid })
    }

    /// The resource of this name, whose parameters are left.
    fn resource(&mut self, name: &[u8]) -> Option<Resource<'a>>
        ensures { option_map resource_value result ≡ resource_named name.now self.old }
    {
        if name == MITIGATE {
            return self.mitigation();
        }
        if name == CONFIG {
            return self.config();
        }
        if name == HEARTBEAT {
            return self.ended(Resource::Heartbeat);
        }
        None
    }
}

/// The resource of the path of a message, if there is one.
pub fn resource_of<'a>(message: &Message<'a>) -> Option<Resource<'a>>
    ensures { option_map resource_value result ≡ resource_at (values_of 11 message.now.options) }
{
    let mut segments = Segments::of(message);
    let Some(first) = segments.next() else {
        return None;
    };
    let Some(second) = segments.next() else {
        return None;
    };
    let Some(name) = segments.next() else {
        return None;
    };
    if first != WELL_KNOWN || second != DOTS {
        return None;
    }
    segments.resource(name)
}
