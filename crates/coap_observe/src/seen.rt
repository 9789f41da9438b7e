//! What an observer was notified of.

ghost use Rattle.std.specs.Prelude.{◌≡◌, ◌≤◌, length, slice_get, is_none};
ghost use Rattle.dots_history.specs.Entries.{option_any};
ghost use Rattle.dots_history.specs.Histories.{is_nil};
ghost use Rattle.coap_observe.specs.Seen.{list_for, same_one, same_seen};

use crate::observer::Observer;
use crate::views::Views;
use arrayvec::ArrayVec;
use std::marker::Model;

/// The most mitigations that an observer sees.
const MAX_SEEN: usize = 64;

/// Mids with their statuses, in order.
#[derive(Drop)]
pub struct SeenList {
    items: ArrayVec<(u32, u8), MAX_SEEN>,
}

impl Model for SeenList {
    ghost use Rattle.std.specs.Prelude.{ℕ, List};

    ghost Value = { List (ℕ × ℕ) };

    ghost view = { λ list. list.items.items };
}

impl SeenList {
    /// What there is to see for an observer now.
    pub fn of<V: Views>(views: &V, observer: &Observer) -> Self
        ensures { result ≡ list_for (V.lists views.now) observer.now }
    {
        let mut items = ArrayVec::new();
        for place in 0..MAX_SEEN {
            let Some(seen) = view_at(views, observer, place) else {
                return SeenList { items };
            };
            items.push(seen);
        }
        SeenList { items }
    }

    /// Whether it is what there is to see for an observer now.
    pub fn is<V: Views>(&self, views: &V, observer: &Observer) -> bool
        ensures { result ≡ same_seen self.now (list_for (V.lists views.now) observer.now) }
    {
        is_seen(self.items.as_slice(), views, observer)
    }

    /// Whether there is nothing.
    pub fn is_empty(&self) -> bool
        ensures { result ≡ is_nil self.now }
    {
        matches!(self.items.as_slice(), [])
    }
}

/// Whether these are what there is to see for an observer now.
fn is_seen<V: Views>(items: &[(u32, u8)], views: &V, observer: &Observer) -> bool
    ensures { result ≡ same_seen items.now (list_for (V.lists views.now) observer.now) }
{
    for (place, seen) in items.iter().enumerate() {
        if !is_at(views, observer, place, *seen) {
            return false;
        }
    }
    ends_at(views, observer, items.len())
}

/// Whether this is what there is to see at the place.
fn is_at<V: Views>(views: &V, observer: &Observer, place: usize, seen: (u32, u8)) -> bool
    ensures { result ≡ option_any (same_one seen) (slice_get (list_for (V.lists views.now) observer.now) place) }
{
    match view_at(views, observer, place) {
        Some(other) => seen.0 == other.0 && seen.1 == other.1,
        None => false,
    }
}

/// Whether there is nothing to see at the place.
pub fn ends_at<V: Views>(views: &V, observer: &Observer, place: usize) -> bool
    ensures { result ≡ is_none (slice_get (list_for (V.lists views.now) observer.now) place) }
{
    match view_at(views, observer, place) {
        Some(_) => false,
        None => true,
    }
}

/// What there is to see at the place.
fn view_at<V: Views>(views: &V, observer: &Observer, place: usize) -> Option<(u32, u8)>
    ensures value { result ≡ slice_get (list_for (V.lists views.now) observer.now) place }
    ensures few { length (list_for (V.lists views.now) observer.now) ≤ 64 }
{
    views.view(observer.domain, observer.cuid.bytes(), observer.mid, place)
}
