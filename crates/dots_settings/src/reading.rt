//! From the bytes of the file to settings, line by line.

ghost use Rattle.std.specs.Prelude.{◌≡◌, ◌≢◌, ℕ, ◌+◌, ◌^◌, ◌≤◌, List, [], ◌∷◌, ◌++◌, length, IfOk, IfErr, OnOk};
ghost use Rattle.sha2.specs.Hashers.{Holds256};
ghost use Rattle.dots_settings.specs.File.{SettingsAre, IsRefused, is_past};
ghost use Rattle.dots_settings.specs.Lines.{lines_of};
ghost use Rattle.dots_settings.specs.Taking.{TakesLine, RefusesLine};

use crate::draft::Draft;
use crate::fault::SettingsFault;
use crate::line::read_form;
use crate::settings::Settings;
use dots_lists::{fields_of, is_skipped, split_line};
use sha2::{Digest, Sha256};
use std::alloc::Global;

/// The greatest size of a file, in bytes.
pub const MAX_FILE: usize = 65_536;

/// What the lines so far have said, and their digest.
#[derive(Drop)]
struct Taken {
    /// The number of the line that is taken next, or was last.
    number: u32,
    draft: Draft,
    hasher: Sha256,
}

/// The settings of a file of which these are the first 65,537 bytes.
pub fn settings_of(alloc: Global, content: &[u8]) -> Result<Settings, SettingsFault>
    requires { length content.now ≤ 2 ^ 16 + 1 }
    ensures ok { IfOk result (SettingsAre content.now) }
    ensures refused { IfErr result (IsRefused content.now) }
    ensures unread { result ≢ Err SettingsFault.ReadFault }
{
    let mut taken = Taken {
        number: 0,
        draft: Draft::new(alloc),
        hasher: Sha256::new(),
    };
    let mut rest = content;
    while let Some((line, behind)) = split_line(rest) {
        taken.number += 1;
        if is_past(content, behind) {
            let n = taken.number;
            drop(taken);
            return Err(SettingsFault::Capacity { n });
        }
        if let Err(fault) = taken.take(line) {
            drop(taken);
            return Err(fault);
        }
        rest = behind;
    }
    let settings = taken.draft.finish(taken.number, taken.hasher.finalize())?;
    Ok(settings)
}

impl Taken {
    /// Takes the line of the number that stands.
    fn take(&mut self, line: &[u8]) -> Result<(), SettingsFault>
        ensures ok { OnOk result (TakesLine line.now self.old self.new) }
        ensures refused { IfErr result (RefusesLine line.now self.old) }
    {
        if is_skipped(line) {
            return Ok(());
        }
        let fields = fields_of(self.draft.alloc, line)?;
        let Ok(form) = read_form(fields.as_slice()) else {
            return Err(SettingsFault::Line { n: self.number });
        };
        if let Some(fault) = self.draft.fault_of(self.number, &form) {
            return Err(fault);
        }
        self.draft.admit(self.number, &form)?;
        if form.is_packet() {
            return Ok(());
        }
        self.hash(line);
        Ok(())
    }

    /// Adds the line and a line feed to what the digest is of.
    fn hash(&mut self, line: &[u8])
        ensures number { self.new.number ≡ self.old.number }
        ensures draft { self.new.draft ≡ self.old.draft }
        ensures hashed { (text : List ℕ) → Holds256 self.old.hasher text
            → Holds256 self.new.hasher (text ++ line.now ++ 10 ∷ []) }
    {
        self.hasher.update(line);
        self.hasher.update(b"\n".as_slice());
    }
}

/// Whether the 65,537th byte stands in the line that ends where these bytes are left.
pub fn is_past(content: &[u8], behind: &[u8]) -> bool
    ensures { result ≡ is_past content.now (lines_of behind.now) }
{
    behind.is_empty() && content.len() > MAX_FILE
}
