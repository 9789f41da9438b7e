//! What the definitions come to: each function's contract is a law, and its body does nothing.

ghost use Rattle.std.specs.Prelude.{◌≡◌, ◌<◌, ℕ, List, Some};
ghost use Rattle.dots_client.specs.Client.{WaitingValue, due_answer, due_after};
ghost use Rattle.dots_client.specs.Ending.{turns_left};

/// Each message that is handed out at a time leaves fewer to hand out. So [`ClientCore::tick`](crate::ClientCore::tick) comes to None.
pub fn ticks_end()
    ensures { (now : ℕ) (waiting : List WaitingValue) (bytes : List ℕ) → due_answer now waiting ≡ Some bytes → turns_left (due_after now waiting) < turns_left waiting }
{}
