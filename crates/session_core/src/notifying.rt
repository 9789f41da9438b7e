//! Notifications after an event.

ghost use Rattle.std.specs.Prelude.{◌≡◌, ◌+◌, ◌^◌, ◌<◌, ◌≤◌, true, if◌then◌else◌, List, length, slice_get, Some, None, IfOk, IfSome, MatchOption};
ghost use Rattle.dots_host.specs.Runs.{Added};
ghost use Rattle.dots_host.specs.declared.out.OwnedOut.{OwnedOut};
ghost use Rattle.dots_host.specs.Becoming.{KeepsMedia};
ghost use Rattle.coap_observe.specs.Observed.{ObservedValue, is_due};
ghost use Rattle.coap_observe.specs.Observing.{NoneIsDue};
ghost use Rattle.coap_observe.specs.DueAmong.{AreNotified};
ghost use Rattle.coap_observe.specs.declared.due_among.DueAmong.TheVariants.{Nobody, Anybody};
ghost use Rattle.session_core.specs.Notices.{content_notice, gone_notice};
ghost use Rattle.session_core.specs.Notifying.{Notifies, SentTo, IsMade, OneNotified, IsKnown, OnlyUnheardAreDue, IsExcused};

use crate::notices::{content_notice, gone_notice};
use crate::sending::send_to;
use crate::view_bodies::ViewBodies;
use crate::watch::Watch;
use coap_observe::{DueAmong, Notice};
use dots_host::Host;
use dots_lists::{Bytes, NoMemory};
use std::alloc::Global;

/// A notification that is due.
#[derive(Drop)]
struct Due {
    /// The place of the observer in the order of registration.
    place: usize,
    peer: u32,
    /// Whether nothing is left to see.
    gone: bool,
    /// What is sent; None where there is no memory for it, or the peer wasn't heard.
    bytes: Option<Bytes>,
    /// What refused memory for it.
    refused: Option<NoMemory>,
}

/// Notifies each observer that is due of what there is to see now, in the order of registration (RFC 7641, section 4.2; RFC 9132, section
/// 4.4.2.1). Those alone are looked at among whom one may be due. One whose notification can't be made is passed over, and stays due.
/// Whether a notification left makes no difference.
pub fn notify<H: Host, S: ViewBodies>(
    host: &mut H,
    alloc: Global,
    watch: &mut Watch,
    view_bodies: &S,
)
    ensures notified { (sends : List OwnedOut)
        × Notifies (S.Views.lists view_bodies.now) (S.bodies view_bodies.now) watch.old.observers.observed watch.old.sessions sends watch.new.observers.observed watch.new.sessions
        × Added (H.acts host.old) (H.acts host.new) (SentTo (H.moment host.old) (H.moment host.new) sends) }
    // Where all others were notified before, nobody is due any more, or one is that was passed over.
    ensures due { AreNotified (S.Views.lists view_bodies.now) watch.old.due watch.old.observers.observed
        → IsKnown (S.Views.lists view_bodies.now) watch.new.due watch.new.observers.observed }
    // And where no memory was refused, nobody is due but those whose peer was never heard.
    ensures all { AreNotified (S.Views.lists view_bodies.now) watch.old.due watch.old.observers.observed → watch.new.refused ≡ None
        → OnlyUnheardAreDue (S.Views.lists view_bodies.now) watch.new.sessions watch.new.observers.observed }
    ensures room { watch.new.observers.room ≡ watch.old.observers.room }
    ensures pairs { watch.new.observers.pairs ≡ watch.old.observers.pairs }
    ensures media { KeepsMedia (H.media host.old) (H.media host.new) }
    ensures extent { H.extent host.new ≡ H.extent host.old }
    ensures disk { H.Disk.faults host.new ≡ H.Disk.faults host.old }
    ensures wire { H.Wire.faults host.new ≡ H.Wire.faults host.old }
    ensures leads { H.leads host.old host.new }
{
    let mut from = 0;
    let mut passed_over = false;
    let mut refused = None;
    while let Some(due) = next_notice(alloc, watch, view_bodies, from) {
        passed_over |= due.bytes.is_none();
        refused = last_refused(refused, due.refused);
        from = notify_one(host, watch, view_bodies, due);
    }
    watch.due = due_behind(passed_over);
    watch.refused = refused;
}

/// Among whom an observer may be due, once all were notified but those that were passed over.
fn due_behind(passed_over: bool) -> DueAmong
    ensures { result ≡ (if passed_over then Anybody else Nobody) }
{
    if passed_over {
        return DueAmong::Anybody;
    }
    DueAmong::Nobody
}

/// The first notification, from the place on, that is due.
fn next_notice<S: ViewBodies>(
    alloc: Global,
    watch: &Watch,
    view_bodies: &S,
    from: usize,
) -> Option<Due>
    ensures next { MatchOption result (NoneIsDue (S.Views.lists view_bodies.now) watch.now.due from (length watch.now.observers.observed) watch.now.observers.observed)
        (λ due. (one : ObservedValue) × (slice_get watch.now.observers.observed due.place ≡ Some one)
        × (due.place < length watch.now.observers.observed) × (from ≤ due.place) × (is_due (S.Views.lists view_bodies.now) one ≡ true)
        × IsMade (S.Views.lists view_bodies.now) (S.bodies view_bodies.now) watch.now.sessions one due.peer due.gone due.bytes
        × NoneIsDue (S.Views.lists view_bodies.now) watch.now.due from due.place watch.now.observers.observed) }
    ensures excused { IfSome result (λ due. IsExcused watch.now.sessions due.peer due.bytes due.refused) }
    ensures few { IfSome result (λ due. due.place + 1 < 2 ^ 64) }
{
    let notice = watch.observers.next_due(view_bodies, watch.due, from)?;
    let peer = notice.observer.peer;
    let (bytes, refused) = match watch.sessions.next_number(peer) {
        Some(id) => match bytes_of(alloc, view_bodies, &notice, id) {
            Ok(bytes) => (Some(bytes), None),
            Err(fault) => (None, Some(fault)),
        },
        None => (None, None),
    };
    Some(Due {
        place: notice.place,
        peer,
        gone: notice.gone,
        bytes,
        refused,
    })
}

/// What refused memory last.
fn last_refused(before: Option<NoMemory>, now: Option<NoMemory>) -> Option<NoMemory>
    ensures { result ≡ None → (before ≡ None) × (now ≡ None) }
{
    match now {
        Some(fault) => Some(fault),
        None => before,
    }
}

/// The bytes of a notification with this Message ID.
fn bytes_of<S: ViewBodies>(
    alloc: Global,
    view_bodies: &S,
    notice: &Notice<'_>,
    id: u16,
) -> Result<Bytes, NoMemory>
    ensures { IfOk result (λ bytes. bytes ≡ (if notice.now.gone then gone_notice id notice.now.observer.now.token
        else content_notice id notice.now.observer.now.token notice.now.number (S.bodies view_bodies.now notice.now.observer.now))) }
{
    if notice.gone {
        return gone_notice(alloc, id, &notice.observer.token);
    }
    let body = view_bodies.body(alloc, notice.observer)?;
    content_notice(
        alloc,
        id,
        &notice.observer.token,
        notice.number,
        body.items(),
    )
}

/// Notifies the observer at the place exactly where its notification could be made, and answers from which place on the next one is looked
/// for.
fn notify_one<H: Host, S: ViewBodies>(
    host: &mut H,
    watch: &mut Watch,
    view_bodies: &S,
    due: Due,
) -> usize
    requires within { due.place < length watch.old.observers.observed }
    requires few { due.place + 1 < 2 ^ 64 }
    requires made { (one : ObservedValue) → slice_get watch.old.observers.observed due.place ≡ Some one
        → IsMade (S.Views.lists view_bodies.now) (S.bodies view_bodies.now) watch.old.sessions one due.peer due.gone due.bytes }
    ensures notified { (one : ObservedValue) → slice_get watch.old.observers.observed due.place ≡ Some one → (sends : List OwnedOut)
        × OneNotified (S.Views.lists view_bodies.now) (S.bodies view_bodies.now) watch.old.observers.observed watch.old.sessions due.place one due.bytes sends
        watch.new.observers.observed watch.new.sessions result
        × Added (H.acts host.old) (H.acts host.new) (SentTo (H.moment host.old) (H.moment host.new) sends) }
    ensures due { watch.new.due ≡ watch.old.due }
    ensures room { watch.new.observers.room ≡ watch.old.observers.room }
    ensures pairs { watch.new.observers.pairs ≡ watch.old.observers.pairs }
    ensures media { KeepsMedia (H.media host.old) (H.media host.new) }
    ensures extent { H.extent host.new ≡ H.extent host.old }
    ensures disk { H.Disk.faults host.new ≡ H.Disk.faults host.old }
    ensures wire { H.Wire.faults host.new ≡ H.Wire.faults host.old }
    ensures leads { H.leads host.old host.new }
{
    let Due {
        place,
        peer,
        gone,
        bytes,
        refused: _,
    } = due;
    match bytes {
        Some(bytes) => {
            let id = watch.sessions.number(peer);
            send_to(host, peer, bytes.items());
            watch.observers.notified(view_bodies, place, id);
            if gone {
                return place;
            }
            return place + 1;
        }
        None => return place + 1,
    }
}
