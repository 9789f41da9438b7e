//! The answer to a request of the data channel, as a value (RFC 8783, sections 5 to 7).
//!
//! A [`RestAnswer`] is the bytes of a reply and, where something changes, the entry of it. `specs/Answers.antt` says what it is, by what a
//! history comes to at a time (`specs/Known.antt`); `specs/Changes.antt` says what a request changes, and `specs/Replies.antt` has the bytes.
//! In which order a request is judged is in `data_channel`. A [`RestFront`] is what stands at the front of a connection, and `specs/Turns.antt`
//! says what a turn of the connection does of it.
//!
//! The functions make the parts of an answer, and look nothing up. [`laws`] says what an accepted change has. A [`RestReply`] is a reply without a body, which is written without memory.
#![tactic(auto)]

mod answer;
mod caller;
mod changes;
mod faults;
mod front;
pub mod laws;
mod replies;
mod reply;

pub use answer::RestAnswer;
pub use caller::Caller;
pub use changes::{change_of, entry_of};
pub use faults::is_faulty;
pub use front::RestFront;
pub use replies::{content_reply, decision_reply, refusal, rejection, unavailable};
pub use reply::RestReply;
