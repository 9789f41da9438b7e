//! What observers are shown.

ghost use Rattle.std.specs.Prelude.{◌≡◌, ℕ, List, IfOk};
ghost use Rattle.coap_observe.specs.declared.observer.Observer.{Observer};

use coap_observe::{Observer, Views};
use dots_lists::{Bytes, NoMemory};
use std::alloc::Global;

/// The live mitigations of clients, as observers see them, with the bodies that tell of them.
pub trait ViewBodies: Views {
    /// The body of the reply to the GET that registered an observer, as it would be now (RFC 9132, section 4.4.2).
    ghost bodies: { Self → Observer → List ℕ };

    /// That body.
    fn body(&self, alloc: Global, observer: &Observer) -> Result<Bytes, NoMemory>
        ensures { IfOk result (λ body. body ≡ bodies self.now observer.now) };
}
