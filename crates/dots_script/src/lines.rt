ghost use Rattle.std.specs.Prelude.{◌≡◌, ◌+◌, ◌<◌, ◌≤◌, length, get_or, IfSome, IfNone, IsTrue, ◌↔◌};
ghost use Rattle.std.specs.Io.KnownBytes.{Keeps};
ghost use Rattle.dots_host.specs.Causes.{Rose};
ghost use Rattle.dots_script.specs.Script.{IsSkipped};
ghost use Rattle.dots_script.specs.Lines.{HasNoFeed, to_come};
ghost use Rattle.dots_script.specs.Finding.{Finds, Reaches};

use crate::block::Block;
use dots_host::{Failed, Source};
use memchr::memchr;

/// The greatest number of bytes of a line, without its line feed.
pub const MAX_LINE_BYTES: usize = 8_400;

/// The greatest number of lines that one call skips.
pub const MAX_SKIPPED: u64 = 1_099_511_627_776;

/// What stands at the front of the bytes that come: a line of so many bytes and its line feed; nothing; what is
/// no line; or the source failed.
#[derive(Clone, Copy)]
pub enum Found {
    Line { len: usize },
    End,
    Fault,
    Failed,
}

/// Reads ahead until the first line is in the block.
pub fn find_line<S: Source>(block: &mut Block, source: &mut S) -> Found
    ensures kept { Keeps (to_come block.old (S.left source.old))
        (to_come block.new (S.left source.new)) }
    ensures found { Finds result block.new (S.left source.new)
        (Rose (S.faults source.old) (S.faults source.new)) }
    ensures later { S.faults source.old ≤ S.faults source.new }
{
    let mut seen = 0;
    'reads: loop {
        if let Some(len) = find_feed(block.bytes(), seen) {
            if len > MAX_LINE_BYTES {
                return Found::Fault;
            }
            return Found::Line { len };
        }
        seen = block.bytes().len();
        if seen > MAX_LINE_BYTES {
            return Found::Fault;
        }
        let Ok(count) = block.fill(source) else {
            return Found::Failed;
        };
        if count == 0 {
            if seen == 0 {
                return Found::End;
            }
            return Found::Fault;
        }
    }
}

/// Where the first line feed stands, none of which is before a place.
fn find_feed(bytes: &[u8], from: usize) -> Option<usize>
    requires within { from ≤ length bytes.now }
    requires none_before { HasNoFeed from bytes.now }
    ensures some { IfSome result (λ at. (at < length bytes.now) ×
        (get_or bytes.now at 0 ≡ 10) × HasNoFeed at bytes.now) }
    ensures none { IfNone result (HasNoFeed (length bytes.now) bytes.now) }
{
    match memchr(b'\n', &bytes[from..]) {
        Some(at) => Some(from + at),
        None => None,
    }
}

/// Whether a line is blank or begins with `#`.
fn is_skipped(line: &[u8]) -> bool
    ensures { IsTrue result ↔ IsSkipped line.now }
{
    match line {
        [] => true,
        [first, ..] => *first == b'#',
    }
}

/// Passes the lines that are skipped, and reads ahead until the first other line is in the block.
pub fn find_unskipped<S: Source>(block: &mut Block, source: &mut S) -> Found
    ensures found { Reaches (to_come block.old (S.left source.old)) result block.new
        (S.left source.new) (Rose (S.faults source.old) (S.faults source.new)) }
    ensures later { S.faults source.old ≤ S.faults source.new }
{
    'skips: for count in 0..MAX_SKIPPED {
        let found = find_line(block, source);
        let Found::Line { len } = found else {
            return found;
        };
        if !is_skipped(&block.bytes()[..len]) {
            return found;
        }
        block.pass(len + 1);
    }
    Found::Fault
}
