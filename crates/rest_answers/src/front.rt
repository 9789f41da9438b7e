use crate::answer::RestAnswer;
use http_cut::HttpFault;

/// What stands at the front of a connection. An accepted entry is an `E`, as in [`RestAnswer`].
#[derive(Drop)]
pub enum RestFront<E> {
    /// Less than a request: more is waited for.
    Waits,
    /// No request, whatever follows. It is answered, and the connection is closed.
    Refused(HttpFault),
    /// A request.
    Answered {
        /// How many bytes it has, head and body.
        size: usize,
        /// Whether the connection is closed behind the reply.
        close: bool,
        answer: RestAnswer<E>,
    },
}
