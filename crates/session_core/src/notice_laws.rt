//! What the definitions come to: each function's contract is a law, and its body does nothing.

ghost use Rattle.std.specs.Prelude.{◌≡◌, ℕ, List};
ghost use Rattle.dots_host.specs.declared.out.OwnedOut.{OwnedOut};
ghost use Rattle.coap_observe.specs.declared.observer.Observer.{Observer};
ghost use Rattle.coap_observe.specs.Seen.{Lists};
ghost use Rattle.coap_observe.specs.Observed.{ObservedValue};
ghost use Rattle.coap_observe.specs.Observing.{entered, deregistered, without_id};
ghost use Rattle.session_core.specs.declared.contact.PeerContact.{PeerContact};
ghost use Rattle.session_core.specs.Notifying.{Bodies, Notifies, Apart};

/// The sends fix who was notified: where no two observers have one peer and token, notifications with the same sends leave the same observers
/// and the same Message IDs.
pub fn sends_fix_who_was_notified()
    ensures { (lists : Lists) (bodies : Bodies) (old new other : List ObservedValue) (contacts left last : List PeerContact) (sends : List OwnedOut) → Apart old
        → Notifies lists bodies old contacts sends new left → Notifies lists bodies old contacts sends other last → (new ≡ other) × (left ≡ last) }
{}

/// No two observers have one peer and token, whatever becomes of them: of none that is true, and it stays so where one is registered, where
/// some go, and where some are notified.
pub fn observers_stay_apart()
    ensures registered { (observer : Observer) (seen : List (ℕ × ℕ)) (old : List ObservedValue) → Apart old → Apart (entered observer seen old) }
    ensures gone { (peer : ℕ) (token : List ℕ) (old : List ObservedValue) → Apart old → Apart (deregistered peer token old) }
    ensures reset { (peer id : ℕ) (old : List ObservedValue) → Apart old → Apart (without_id peer id old) }
    ensures notified { (lists : Lists) (bodies : Bodies) (old new : List ObservedValue) (contacts left : List PeerContact) (sends : List OwnedOut) → Apart old
        → Notifies lists bodies old contacts sends new left → Apart new }
{}
