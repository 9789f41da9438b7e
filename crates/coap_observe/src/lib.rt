//! Observers of mitigations (RFC 7641; RFC 9132, section 4.4.2.1).
//!
//! [`Observers`] keeps who observes which mitigations, in the order of registration, and what each was notified of last. What
//! there is to see comes from a [`Views`], a trait that whoever keeps the mitigations implements. Contracts see the observers as a
//! list, and each call says what the list is after it. An observer is due exactly where what there is to see isn't what it was
//! notified of last.
//!
//! Observers stand in orders of numbers, in which one comes and goes without passing over the others. An [`Order`] is seen as the list of its
//! slots; these are linked in both directions, and stand at positions in a tree that counts them, so the one at a place is found by going down
//! as many levels as the logarithm of the room says. Once in as many calls as there is room, when the positions are used up, the slots get
//! theirs anew. [`Rings`] has several orders, each slot in one of them at most; there a slot isn't found by its place.
//!
//! Only [`Observers::new`], [`Order::new`] and [`Rings::new`] take memory. Start reading at `specs/Observing.antt` and `specs/Observed.antt`.
#![tactic(auto)]

mod chains;
mod due_among;
pub mod laws;
mod observed;
mod observer;
mod observers;
mod order;
mod places;
mod rings;
mod roll;
mod seen;
mod spots;
mod views;

pub use due_among::DueAmong;
pub use observed::Observed;
pub use observer::Observer;
pub use observers::{Notice, Observers};
pub use order::Order;
pub use rings::Rings;
pub use seen::SeenList;
pub use views::Views;
