ghost use Rattle.std.specs.Prelude.{◌≡◌, ◌+◌, ◌≤◌, ◌++◌, length, codes, decimal};
ghost use Rattle.dots_settings.specs.FaultText.{fault_text};
ghost use Rattle.dots_settings.specs.declared.fault.SettingsFault.TheVariants as fault;

use arrayvec::ArrayString;
use dots_lists::NoMemory;
use itoa::Buffer;
use std::alloc::AllocError;
use std::error::Error;
use std::fmt;

/// Why there are no settings. Lines are counted from 1 on, those that are skipped too.
#[derive(Clone, Copy, Debug)]
pub enum SettingsFault {
    /// The line has none of the forms.
    Line { n: u32 },
    /// What the line gives stands already: a domain, a peer, the upstream, the ceiling, whether -1 is granted, or one capacity.
    Twice { n: u32 },
    /// The domain of the line isn't declared above it.
    Unknown { n: u32 },
    /// The prefix of line `b` meets a prefix of another domain; `a` is the first line that has such a one.
    Overlap { a: u32, b: u32 },
    /// The line passes a limit, or the 65,537th byte of the file stands in it.
    Capacity { n: u32 },
    /// The source failed before the file was read.
    ReadFault,
    /// Memory ran out.
    NoMemory,
}

/// The greatest length of a fault's line, in bytes: two words, two numbers of ten digits, two blanks and a line feed.
pub const MAX_FAULT_LINE: usize = 39;

impl SettingsFault {
    /// What is printed of the fault, without a line feed. Takes no memory.
    pub fn text(self) -> ArrayString<MAX_FAULT_LINE>
        ensures text { result.bytes ≡ fault_text self }
        ensures short { length result.bytes ≤ 38 }
    {
        match self {
            SettingsFault::Line { n } => numbered("settings line ", n),
            SettingsFault::Twice { n } => numbered("settings twice ", n),
            SettingsFault::Unknown { n } => numbered("settings unknown ", n),
            SettingsFault::Overlap { a, b } => overlap(a, b),
            SettingsFault::Capacity { n } => numbered("settings capacity ", n),
            SettingsFault::ReadFault => words("reading the settings failed"),
            SettingsFault::NoMemory => words("out of memory"),
        }
    }

    /// The line that is printed of the fault. Takes no memory.
    pub fn line(self) -> ArrayString<MAX_FAULT_LINE>
        ensures line { result.bytes ≡ fault_text self ++ codes "\n" }
        ensures short { length result.bytes ≤ 39 }
    {
        let mut line = self.text();
        line.push_str("\n");
        line
    }
}

fn words(text: &str) -> ArrayString<MAX_FAULT_LINE>
    requires { length text.now ≤ 38 }
    ensures { result.bytes ≡ text.now }
{
    let mut line = ArrayString::new();
    line.push_str(text);
    line
}

fn numbered(text: &str, number: u32) -> ArrayString<MAX_FAULT_LINE>
    requires { length text.now ≤ 28 }
    ensures text { result.bytes ≡ text.now ++ decimal number }
    ensures short { length result.bytes ≤ length text.now + 10 }
{
    let mut line = words(text);
    let mut buffer = Buffer::new();
    line.push_str(buffer.format(number));
    line
}

fn overlap(a: u32, b: u32) -> ArrayString<MAX_FAULT_LINE>
    ensures text { result.bytes ≡ codes "settings overlap " ++ decimal a ++ codes " " ++ decimal b }
    ensures short { length result.bytes ≤ 38 }
{
    let mut line = numbered("settings overlap ", a);
    let mut buffer = Buffer::new();
    line.push_str(" ");
    line.push_str(buffer.format(b));
    line
}

impl fmt::Display for SettingsFault {
    ghost use Rattle.std.specs.Prelude.{Some};
    ghost use Rattle.dots_settings.specs.FaultText.{fault_text};

    ghost output = { λ fault. Some (fault_text fault) };

    fn fmt<W: fmt::Write>(&self, f: &mut fmt::Formatter<W>) -> fmt::Result {
        f.write_str(self.text().as_str())
    }
}

impl Error for SettingsFault {}

impl From<NoMemory> for SettingsFault {
    ghost from_gives = { λ _ made. made ≡ fault.NoMemory };

    fn from(_: NoMemory) -> Self {
        SettingsFault::NoMemory
    }
}

impl From<AllocError> for SettingsFault {
    ghost from_gives = { λ _ made. made ≡ fault.NoMemory };

    fn from(_: AllocError) -> Self {
        SettingsFault::NoMemory
    }
}
