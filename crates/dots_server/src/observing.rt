//! Observers of mitigations, and what they are shown (RFC 7641; RFC 9132, section 4.4.2.1).

ghost use Rattle.std.specs.Prelude.{◌≡◌, List, IfOk, ⊤};
ghost use Rattle.dots_host.specs.Runs.{Added};
ghost use Rattle.dots_host.specs.declared.out.OwnedOut.{OwnedOut};
ghost use Rattle.dots_host.specs.Becoming.{KeepsMedia};
ghost use Rattle.dots_settings.specs.Settings.{SettingsValue};
ghost use Rattle.dots_history.specs.declared.entry.Entry.{Entry};
ghost use Rattle.dots_machine.specs.Machine.{State, Notified};
ghost use Rattle.session_core.specs.Notifying.{SentTo, IsKnown, OnlyUnheardAreDue};
ghost use Rattle.dots_registry.specs.ObserverViews.{views_of};
ghost use Rattle.dots_server.specs.Observing.{MayObserve, changed};
ghost use Rattle.dots_server.specs.ServerValues.{observers_of, RestartsWith};

use crate::long_replies::retrieved_body;
use crate::mitigations::views_of;
use crate::server::Server;
use coap_observe::{Observer, Views};
use dots_host::Host;
use dots_lists::{Bytes, List, NoMemory};
use dots_machine::Watching;
use dots_registry::Registry;
use dots_settings::Settings;
use session_core::{ViewBodies, notify};
use std::alloc::Global;
use std::marker::Model;

/// The mitigations of all clients, as their observers are shown them.
#[derive(Drop)]
pub(crate) struct ServerViews<'a> {
    pub settings: &'a Settings,
    pub registry: &'a Registry,
}

impl<'a> Model for ServerViews<'a> {
    ghost use Rattle.dots_server.specs.Observing.{ServerViewsValue, AreServerViews};

    ghost Value = { ServerViewsValue };

    ghost view = { λ shown. record { settings = shown.settings.now; registry = shown.registry.now } };

    ghost invariant = { λ shown. AreServerViews (record { settings = shown.settings.now; registry = shown.registry.now }) };
}

impl Views for ServerViews<'_> {
    ghost lists = { λ shown. views_of shown.registry };

    fn view(&self, domain: u16, cuid: &[u8], mid: Option<u32>, place: usize) -> Option<(u32, u8)> {
        self.registry.view(domain, cuid, mid, place)
    }
}

impl ViewBodies for ServerViews<'_> {
    ghost use Rattle.dots_server.specs.Observing.{bodies_of};

    ghost bodies = { λ shown. bodies_of shown.registry };

    fn body(&self, alloc: Global, observer: &Observer) -> Result<Bytes, NoMemory> {
        if observer.domain < self.settings.domains() {
            let views = views_of(
                alloc,
                self.registry,
                observer.domain,
                &observer.cuid,
                observer.mid,
                observer.content,
            )?;
            return retrieved_body(alloc, views);
        }
        retrieved_body(alloc, List::new(alloc))
    }
}

impl Server {
    /// What is asked of observation is done: an observer is registered, or one goes.
    pub(crate) fn observe(&mut self, peer: u32, watching: Watching)
        requires { MayObserve self.old.watch.observers.pairs watching }
        ensures { self.new ≡ record self.old {
          watch = record self.old.watch {
            observers = record self.old.watch.observers {
              observed = changed self.old.watch.observers.room (views_of self.old.registry) peer watching self.old.watch.observers.observed;
            };
          };
        } }
    {
        match watching {
            Watching::Nothing => {}
            Watching::Registers(observer) => {
                self.watch.register(observer, self.ledger.registry());
            }
            Watching::Cancels(token) => self.watch.cancel(peer, token.bytes()),
            Watching::Rejects(id) => self.watch.reset(peer, id),
        }
    }

    /// Notifies the observers that are due. None is looked at where none can be due.
    pub(crate) fn notify<H: Host>(&mut self, host: &mut H)
        ensures notified { (settings : SettingsValue) (state : State) (entries : List Entry) → RestartsWith self.old settings state entries
            → (sends : List OwnedOut) × (new : State) × Notified settings state sends new × RestartsWith self.new settings new entries
            × Added (H.acts host.old) (H.acts host.new) (SentTo (H.moment host.old) (H.moment host.new) sends) }
        ensures known { IsKnown (views_of self.new.registry) self.new.watch.due self.new.watch.observers.observed }
        ensures all { self.new.watch.refused ≡ None
            → OnlyUnheardAreDue (views_of self.new.registry) self.new.watch.sessions self.new.watch.observers.observed }
        ensures journal { self.new.journal ≡ self.old.journal }
        ensures settings { self.new.settings ≡ self.old.settings }
        ensures adds { Added (H.acts host.old) (H.acts host.new) (λ _. ⊤) }
        ensures media { KeepsMedia (H.media host.old) (H.media host.new) }
        ensures extent { H.extent host.new ≡ H.extent host.old }
        ensures disk { H.Disk.faults host.new ≡ H.Disk.faults host.old }
        ensures wire { H.Wire.faults host.new ≡ H.Wire.faults host.old }
        ensures leads { H.leads host.old host.new }
    {
        let shown = ServerViews {
            settings: &self.settings,
            registry: self.ledger.registry(),
        };
        notify(host, self.alloc, &mut self.watch, &shown);
    }
}
