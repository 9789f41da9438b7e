//! What a call of a socket answered.

ghost use Rattle.std.specs.Prelude.{◌≡◌, MatchResult};
ghost use Rattle.dots_edge.specs.Answers.{went};

use std::io;
use std::io::{Error, ErrorKind};

/// What a call of a socket answered.
#[derive(Clone, Copy)]
pub enum Answer {
    /// It took or gave so many bytes. A read of a connection that gives none is at its end.
    Went(usize),
    /// It takes none now, or has none.
    Nothing,
    /// This time there was none, as where the call was interrupted.
    Again,
    /// The call failed.
    Failed,
}

impl Answer {
    /// What a call answered that failed so.
    pub fn of(kind: ErrorKind) -> Answer
        ensures went { went result ≡ 0 }
        ensures none { result ≡ Answer.Went 0 → ⊥ }
    {
        match kind {
            ErrorKind::WouldBlock => Answer::Nothing,
            ErrorKind::Interrupted => Answer::Again,
            _ => Answer::Failed,
        }
    }

    /// How many bytes went, or an error where the call failed.
    pub fn count(self) -> io::Result<usize>
        ensures { MatchResult result (λ count. count ≡ went self) (λ _. self ≡ Answer.Failed) }
    {
        match self {
            Answer::Went(count) => Ok(count),
            Answer::Nothing | Answer::Again => Ok(0),
            Answer::Failed => Err(Error::from(ErrorKind::Other)),
        }
    }
}
