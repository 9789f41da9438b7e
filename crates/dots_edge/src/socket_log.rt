//! What a socket did, in a log that exists in proofs alone.

ghost use Rattle.std.specs.Prelude.{◌≡◌, ℕ, List, [], ◌∷◌, ◌++◌};
ghost use Rattle.std.specs.Coded.{coded_list, coded_ℕ};
ghost use Rattle.dots_edge.specs.declared.answer.Answer.{Answer};
ghost use Rattle.dots_edge.specs.contracts.answer.Answer as answer_row;

use crate::answer::Answer;
use std::marker::Model;

/// What a socket did so far, one way: it gave bytes, or it took them. It takes no memory and no time, and is kept where the socket is called.
#[derive(Drop)]
pub struct SocketLog {
    /// The bytes that went, in their order.
    pub ghost bytes: { List ℕ } by { coded_list coded_ℕ },
    /// What each call answered, the last one first.
    pub ghost answers: { List Answer } by { coded_list answer_row.the_row.coded },
}

impl Model for SocketLog {
    ghost use base.Fml.{ftrue};

    ghost also_owns = { λ _. ftrue };
}

/// What a call of a socket answered, and the bytes that went.
#[derive(Clone, Copy)]
pub struct Step<'a> {
    pub answer: Answer,
    pub bytes: &'a [u8],
}

impl SocketLog {
    /// No call yet.
    pub fn new() -> SocketLog
        ensures { (result.bytes ≡ []) × (result.answers ≡ []) }
    {
        SocketLog {}
    }

    /// The log with one call more.
    pub fn after(&self, _step: &Step<'_>) -> SocketLog
        ensures { (result.bytes ≡ self.now.bytes ++ _step.now.bytes.now) × (result.answers ≡ _step.now.answer ∷ self.now.answers) }
    {
        SocketLog {}
    }

    /// Takes down what a call answered, with the bytes that went.
    pub fn note(&mut self, answer: Answer, bytes: &[u8]) -> Answer
        ensures answer { result ≡ answer }
        ensures bytes { self.new.bytes ≡ self.old.bytes ++ bytes.now }
        ensures answers { self.new.answers ≡ answer ∷ self.old.answers }
    {
        *self = self.after(&Step { answer, bytes });
        answer
    }
}
