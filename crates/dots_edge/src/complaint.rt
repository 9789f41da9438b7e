//! What is to be mended in a line of a host file.

ghost use Rattle.std.specs.Prelude.{◌≡◌, [], ◌∷◌, Some, None};
ghost use Rattle.dots_lists.specs.Lines.{fields_of};
ghost use Rattle.dots_edge.specs.Complaints.{JudgesPath, JudgesBytes, JudgesEnd, JudgesPeer, JudgesCount, names_file, Judges, JudgesLine, JudgesFault};

use crate::endpoint_text::endpoint_of;
use crate::host_fault::HostFault;
use crate::host_lines::{bytes_of, is_word, parse_line, path_of, peer_number_of, peer_text_of};
use dots_lists::{one_field, parse_decimal, split_field, two_fields};

/// Why a line has none of the forms, or can't stand behind those above it.
#[derive(Clone, Copy)]
pub enum Reason {
    /// The first word is none of `journal`, `reserve`, `signal`, `http`, `peer`, `events`, `filters`, `filters-nft` and `figures`.
    Word,
    /// Behind this word stands one field, one space away.
    OneField,
    /// Behind `peer` stand two fields, with one space between two.
    TwoFields,
    /// A path is some UTF-8 text.
    Path,
    /// The bytes are a number up to 2^30, without leading zeros.
    Bytes,
    /// An address and a port are as `192.0.2.1:4646` or `[2001:db8::1]:4646`.
    End,
    /// The number of a peer is below 4294967295, without leading zeros.
    Peer,
    /// The address of a peer is one alone, or with a port as in [`Reason::End`].
    PeerEnd,
    /// The number of events is below 10^19, without leading zeros.
    Count,
    /// The line has none of the forms.
    Form,
    /// A line above says this already, or names its file.
    Twice,
    /// Four lines of its kind stand above.
    Many,
    /// A line for all addresses, as with `0.0.0.0` or `[::]`, is the only one of its kind.
    Wildcard,
}

/// What is to be mended in a line: why, and the field where, counted from 0, or the whole line.
#[derive(Clone, Copy)]
pub struct Complaint {
    pub reason: Reason,
    pub field: Option<usize>,
}

impl Complaint {
    fn of_field(reason: Reason, field: usize) -> Self
        ensures { result ≡ record { reason = reason; field = Some field } }
    {
        Complaint {
            reason,
            field: Some(field),
        }
    }

    fn of_line(reason: Reason) -> Self
        ensures { result ≡ record { reason = reason; field = None } }
    {
        Complaint {
            reason,
            field: None,
        }
    }
}

/// What is to be mended in the line of this text, at which a host file has the fault. None where memory ran out.
pub fn complaint_about(fault: HostFault, line: &[u8]) -> Option<Complaint>
    ensures { JudgesFault fault line.now result }
{
    match fault {
        HostFault::Line { .. } => complaint_of(line),
        HostFault::Twice { .. } => Some(Complaint::of_line(Reason::Twice)),
        HostFault::Many { .. } => Some(Complaint::of_line(Reason::Many)),
        HostFault::Wildcard { .. } => Some(Complaint::of_field(Reason::Wildcard, 1)),
        HostFault::NoMemory => None,
    }
}

/// What is to be mended in a line that says nothing, or None where it says something.
pub fn complaint_of(line: &[u8]) -> Option<Complaint>
    ensures { JudgesLine line.now result }
{
    match parse_line(line) {
        Some(_) => None,
        None => match judge(line) {
            Some(complaint) => Some(complaint),
            None => Some(Complaint::of_line(Reason::Form)),
        },
    }
}

/// The first field of the line that isn't what it has to be.
#[tactic(auto, unfolding(crate::specs::Complaints::Judges))]
fn judge(line: &[u8]) -> Option<Complaint>
    ensures { Judges (fields_of line.now) result }
{
    let Some((word, rest)) = split_field(line) else {
        return judge_alone(line);
    };
    if names_file(word) {
        return judge_path(rest);
    }
    if is_word(word, b"reserve") {
        return judge_bytes(rest);
    }
    if is_word(word, b"signal") || is_word(word, b"http") {
        return judge_end(rest);
    }
    if is_word(word, b"peer") {
        return judge_peer(rest);
    }
    if is_word(word, b"events") {
        return judge_count(rest);
    }
    Some(Complaint::of_field(Reason::Word, 0))
}

/// The same of a line that is one field.
#[tactic(auto, unfolding(crate::specs::Complaints::Judges))]
fn judge_alone(line: &[u8]) -> Option<Complaint>
    ensures { Judges (line.now ∷ []) result }
{
    if is_word(line, b"peer") {
        return Some(Complaint::of_line(Reason::TwoFields));
    }
    if names_file(line) || is_word(line, b"reserve") || is_word(line, b"events") {
        return Some(Complaint::of_line(Reason::OneField));
    }
    if is_word(line, b"signal") || is_word(line, b"http") {
        return Some(Complaint::of_line(Reason::OneField));
    }
    Some(Complaint::of_field(Reason::Word, 0))
}

/// Whether the word is one behind which a path stands.
fn names_file(word: &[u8]) -> bool
    ensures { result ≡ names_file word.now }
{
    is_word(word, b"journal")
        || is_word(word, b"filters")
        || is_word(word, b"filters-nft")
        || is_word(word, b"figures")
}

fn judge_path(rest: &[u8]) -> Option<Complaint>
    ensures { JudgesPath (fields_of rest.now) result }
{
    let Some(text) = one_field(rest) else {
        return Some(Complaint::of_line(Reason::OneField));
    };
    match path_of(text) {
        Some(_) => None,
        None => Some(Complaint::of_field(Reason::Path, 1)),
    }
}

fn judge_bytes(rest: &[u8]) -> Option<Complaint>
    ensures { JudgesBytes (fields_of rest.now) result }
{
    let Some(text) = one_field(rest) else {
        return Some(Complaint::of_line(Reason::OneField));
    };
    match bytes_of(text) {
        Some(_) => None,
        None => Some(Complaint::of_field(Reason::Bytes, 1)),
    }
}

fn judge_end(rest: &[u8]) -> Option<Complaint>
    ensures { JudgesEnd (fields_of rest.now) result }
{
    let Some(text) = one_field(rest) else {
        return Some(Complaint::of_line(Reason::OneField));
    };
    match endpoint_of(text) {
        Some(_) => None,
        None => Some(Complaint::of_field(Reason::End, 1)),
    }
}

fn judge_count(rest: &[u8]) -> Option<Complaint>
    ensures { JudgesCount (fields_of rest.now) result }
{
    let Some(text) = one_field(rest) else {
        return Some(Complaint::of_line(Reason::OneField));
    };
    match parse_decimal(text) {
        Some(_) => None,
        None => Some(Complaint::of_field(Reason::Count, 1)),
    }
}

fn judge_peer(rest: &[u8]) -> Option<Complaint>
    ensures { JudgesPeer (fields_of rest.now) result }
{
    let Some((digits, text)) = two_fields(rest) else {
        return Some(Complaint::of_line(Reason::TwoFields));
    };
    let Some(_number) = peer_number_of(digits) else {
        return Some(Complaint::of_field(Reason::Peer, 1));
    };
    let Some(_end) = peer_text_of(text) else {
        return Some(Complaint::of_field(Reason::PeerEnd, 2));
    };
    None
}
