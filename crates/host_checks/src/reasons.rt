ghost use Rattle.std.specs.Prelude.{◌≡◌};
ghost use Rattle.host_checks.specs.Reasons.{reason_words};

use dots_edge::Reason;

/// Why a line of a host file is at fault, in words.
pub fn reason_words(reason: Reason) -> &'static [u8]
    ensures { result.now ≡ reason_words reason }
{
    match reason {
        Reason::Word =>
            b"the first word of a line is journal, reserve, signal, http, peer, events, filters, filters-nft or figures",
        Reason::OneField => b"behind this word stands one field, with one space between two fields",
        Reason::TwoFields =>
            b"a peer line is: peer NUMBER ADDRESS, or: peer NUMBER ADDRESS:PORT, with one space between two fields",
        Reason::Path => b"a path is some UTF-8 text without a space",
        Reason::Bytes => b"the bytes are a number from 0 to 1073741824, without leading zeros",
        Reason::End => b"an address and a port are as 192.0.2.1:4646 or [2001:db8::1]:4646",
        Reason::Peer => b"a peer is a number from 0 to 4294967294, without leading zeros",
        Reason::PeerEnd =>
            b"the address of a peer is as 192.0.2.1 or 2001:db8::1, or with a port as 192.0.2.1:4646 or [2001:db8::1]:4646",
        Reason::Count =>
            b"the number of events is below 10000000000000000000, without leading zeros",
        Reason::Form => b"a line has one of the ten forms",
        Reason::Twice => b"a line above says this already, or names its file",
        Reason::Many => b"four lines of this kind stand above",
        Reason::Wildcard =>
            b"a line for all addresses, as with 0.0.0.0 or [::], is the only one of its kind",
    }
}
