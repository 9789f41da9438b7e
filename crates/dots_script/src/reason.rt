ghost use Rattle.std.specs.Prelude.{◌≡◌, ◌++◌, OnOk};
ghost use Rattle.dots_script.specs.Reason.{reason_words, reason_number, reason_text, number_text};

use crate::mistakes::mistake_words;
use dots_lists::NoMemory;
use dots_settings::Mistake;
use itoa::Buffer;

/// Why a line of the settings or of a script is at fault.
#[derive(Clone, Copy)]
pub enum Reason {
    /// A line of the settings has none of the ten forms.
    Mistake(Mistake),
    /// It has none of the forms.
    Form,
    /// The domain stands above.
    DomainTwice,
    /// The peer stands above.
    PeerTwice,
    /// An upstream stands above, or the peer does.
    UpstreamTwice,
    /// The ceiling stands above.
    CeilingTwice,
    /// Whether -1 is granted stands above.
    IndefiniteTwice,
    /// The capacity stands above.
    CapacityTwice,
    /// What it gives stands above.
    Twice,
    /// The domain doesn't stand above.
    UnknownDomain,
    /// The file is too long.
    TooLarge,
    /// There are too many domains.
    ManyDomains,
    /// A domain has too many prefixes.
    ManyPrefixes,
    /// There are too many peers.
    ManyPeers,
    /// There are too many peers or gateways.
    ManyGateways,
    /// There are too many host names or addresses.
    ManyNames,
    /// There are too many packets.
    ManyPackets,
    /// There is too much of it.
    Many,
    /// A line of a script is too long.
    LineTooLong,
    /// The last line of a script has no line feed.
    Unended,
    /// A line of a script isn't `at SECONDS` and one of `from PEER HEX`, `open CONN PEER`, `piece CONN HEX`, `close CONN`, `tick` and
    /// `restart`.
    EventFields,
    /// One with `from` has other fields than `at SECONDS from PEER HEX`.
    DatagramFields,
    /// One with `open` has other fields than `at SECONDS open CONN PEER`.
    OpeningFields,
    /// One with `piece` has other fields than `at SECONDS piece CONN HEX`.
    PieceFields,
    /// One with `close` has other fields than `at SECONDS close CONN`.
    ClosingFields,
    /// One with `tick` has more fields than `at SECONDS tick`.
    TickFields,
    /// One with `restart` has more fields than `at SECONDS restart`.
    RestartFields,
    /// It doesn't begin with `at`.
    At,
    /// The time is none.
    Seconds,
    /// The third word is none of `from`, `open`, `piece`, `close`, `tick` and `restart`.
    EventWord,
    /// The bytes of a datagram are none.
    Datagram,
    /// The number of a connection is none.
    Connection,
    /// The bytes of a connection are none.
    Piece,
    /// The limit of a capacity is out of its range: this is the greatest.
    OutOfRange { most: u32 },
    /// The prefix meets one of another domain: this is the first line with such a one.
    Overlap { first: u32 },
}

impl Reason {
    fn words(self) -> &'static [u8]
        ensures { result.now ≡ reason_words self }
    {
        match self {
            Reason::Mistake(mistake) => mistake_words(mistake),
            Reason::Form => b"a line has one of the ten forms",
            Reason::DomainTwice => b"a line above declares this domain already",
            Reason::PeerTwice =>
                b"a line above names this peer already, as a client, a gateway or the upstream",
            Reason::UpstreamTwice =>
                b"a line above names the upstream already, or this peer as a client or a gateway",
            Reason::CeilingTwice => b"a line above gives the ceiling already",
            Reason::IndefiniteTwice =>
                b"a line above says already whether lifetimes without end are granted",
            Reason::CapacityTwice => b"a line above gives this capacity already",
            Reason::Twice => b"a line above says this already",
            Reason::UnknownDomain => b"no line above declares this domain",
            Reason::TooLarge => b"a file has at most 65536 bytes, and this line passes them",
            Reason::ManyDomains => b"a file has at most 16 domains",
            Reason::ManyPrefixes => b"a domain has at most 16 prefixes",
            Reason::ManyPeers => b"a file has at most 64 clients and gateways",
            Reason::ManyGateways =>
                b"a file has at most 64 clients and gateways, and at most 4 of them are gateways",
            Reason::ManyNames =>
                b"a file has at most 64 host names, and a host name at most 4 prefixes",
            Reason::ManyPackets => b"a file has at most 256 sample packets",
            Reason::Many => b"this passes a limit",
            Reason::LineTooLong => b"a line has at most 8400 bytes",
            Reason::Unended => b"the last line does not end with a line feed",
            Reason::EventFields =>
                b"a line is: at SECONDS, and one of: from PEER HEX, open CONN PEER, piece CONN HEX, close CONN, tick, restart, with one space between two fields",
            Reason::DatagramFields =>
                b"a from line is: at SECONDS from PEER HEX, with one space between two fields",
            Reason::OpeningFields =>
                b"an open line is: at SECONDS open CONN PEER, with one space between two fields",
            Reason::PieceFields =>
                b"a piece line is: at SECONDS piece CONN HEX, with one space between two fields",
            Reason::ClosingFields =>
                b"a close line is: at SECONDS close CONN, with one space between two fields",
            Reason::TickFields =>
                b"a tick line is: at SECONDS tick, with one space between two fields",
            Reason::RestartFields =>
                b"a restart line is: at SECONDS restart, with one space between two fields",
            Reason::At => b"the first word of a line is at",
            Reason::Seconds =>
                b"the time is a number of seconds below 281474976710656, without leading zeros",
            Reason::EventWord =>
                b"the third word of a line is from, open, piece, close, tick or restart",
            Reason::Datagram => b"a datagram is 1 to 4096 bytes in hexadecimal, two digits each",
            Reason::Connection =>
                b"a connection is a number from 0 to 4294967295, without leading zeros",
            Reason::Piece => b"a piece is 1 to 4096 bytes in hexadecimal, two digits each",
            Reason::OutOfRange { .. } => b"the limit of this capacity is a number from 1 to ",
            Reason::Overlap { .. } =>
                b"this prefix overlaps one of another domain, which stands in line ",
        }
    }

    /// The number behind the words.
    fn number(self) -> Option<u32>
        ensures { result ≡ reason_number self }
    {
        match self {
            Reason::OutOfRange { most } => Some(most),
            Reason::Overlap { first } => Some(first),
            _ => None,
        }
    }
}

/// Adds the reason in words.
pub fn add_reason(text: &mut Vec<u8>, reason: Reason) -> Result<(), NoMemory>
    ensures { OnOk result (text.new.items ≡ text.old.items ++ reason_text reason) }
{
    text.extend_from_slice(reason.words())?;
    add_number(text, reason.number())
}

fn add_number(text: &mut Vec<u8>, number: Option<u32>) -> Result<(), NoMemory>
    ensures { OnOk result (text.new.items ≡ text.old.items ++ number_text number) }
{
    let Some(number) = number else {
        return Ok(());
    };
    let mut buffer = Buffer::new();
    text.extend_from_slice(buffer.format(number).as_bytes())?;
    Ok(())
}
