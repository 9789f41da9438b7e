//! What was put at a path, in a log that exists in proofs alone.

ghost use Rattle.std.specs.Prelude.{◌≡◌, ℕ, Bool, List, [], ◌∷◌};
ghost use Rattle.std.specs.Coded.{coded_list, coded×, coded_bool, coded_ℕ};

use std::marker::Model;

/// The files that were handed over for a path so far. It takes no memory and no time, and is kept where the file system is called.
#[derive(Drop)]
pub struct FileLog {
    /// The bytes of each, and whether the path leads to them since then, the last one first.
    pub ghost puts: { List (List ℕ × Bool) } by { coded_list (coded× (coded_list coded_ℕ) coded_bool) },
}

impl Model for FileLog {
    ghost use base.Fml.{ftrue};

    ghost also_owns = { λ _. ftrue };
}

/// What was handed over, and whether it stands now.
#[derive(Clone, Copy)]
pub struct Put<'a> {
    pub bytes: &'a [u8],
    pub stands: bool,
}

impl FileLog {
    /// Nothing yet.
    pub fn new() -> FileLog
        ensures { result.puts ≡ [] }
    {
        FileLog {}
    }

    /// The log with one file more.
    pub fn after(&self, _put: &Put<'_>) -> FileLog
        ensures { result.puts ≡ (_put.now.bytes.now, _put.now.stands) ∷ self.now.puts }
    {
        FileLog {}
    }
}
