ghost use Rattle.std.specs.Prelude.{◌≡◌, ◌+◌, ◌^◌, ◌<◌, ◌≤◌, ◌&&◌, ◌==◌, true, nat_le, if◌then◌else◌, [], Some, None, IfOk, IfSome, length, option_map, unwrap_or, MatchOption};
ghost use Rattle.std.specs.List.{find, list_any};
ghost use Rattle.dots_history.specs.Entries.{option_any};
ghost use Rattle.dots_history.specs.Histories.{tally};
ghost use Rattle.coap_exchange.specs.Firsts.{replace_at};
ghost use Rattle.coap_observe.specs.Links.{Distinct};
ghost use Rattle.coap_observe.specs.Chains.{chain_at, room_in, AreChained, SameRoom};
ghost use Rattle.coap_observe.specs.Rolls.{keys_of, observed_of, has_key, one_at, without_key, first_key, peer_of};
ghost use Rattle.coap_observe.specs.DueAmong.{includes_one};
ghost use Rattle.coap_observe.specs.declared.due_among.DueAmong.TheVariants.{Domain};
ghost use Rattle.coap_observe.specs.Observed.{is_token, is_of, had_id, is_due};
ghost use Rattle.coap_observe.specs.Observing.{ObserversValue, own_of, has_room, number_for, entered, registered, deregistered, without_id, NoneIsDue, IsNextDue, notified_or_gone, after_notice, has_one, AreOf};
ghost use Rattle.coap_exchange.specs.Pairs.{is_pair, pairs_of};

use crate::chains::Chains;
use crate::due_among::DueAmong;
use crate::observed::Observed;
use crate::observer::Observer;
use crate::roll::Roll;
use crate::seen::{SeenList, ends_at};
use crate::views::Views;
use coap_exchange::{Pair, Pairs};
use dots_lists::NoMemory;
use dots_settings::Settings;
use std::alloc::Global;
use std::marker::Model;

/// A notification that is due.
#[derive(Drop)]
pub struct Notice<'a> {
    /// The place of the observer in the order of registration.
    pub place: usize,
    pub observer: &'a Observer,
    /// The number of the notification, for its Observe (RFC 7641, section 3.4).
    pub number: u32,
    /// Whether nothing is left to see.
    pub gone: bool,
}

/// Observers of mitigations (RFC 7641; RFC 9132, section 4.4.2.1), in the order of their registration.
#[derive(Drop)]
pub struct Observers {
    roll: Roll,
    /// The keys of each peer's.
    chains: Chains,
    pairs: Pairs,
    /// How many there may be of one peer and domain.
    room: usize,
}

impl Model for Observers {
    ghost use Rattle.std.specs.Prelude.{◌*◌, ◌≤◌, length};
    ghost use Rattle.coap_observe.specs.Chains.{AreChained, HaveRoom};
    ghost use Rattle.coap_observe.specs.Rolls.{observed_of};
    ghost use Rattle.coap_observe.specs.Observing.{ObserversValue, AreBounded};

    ghost Value = { ObserversValue };

    ghost view = { λ o. record { room = o.room; pairs = o.pairs; observed = observed_of o.roll.members } };

    ghost invariant = { λ o. record {
      bounded : AreBounded o.pairs o.room (observed_of o.roll.members);
      reserved : length o.pairs * o.room ≤ o.roll.room;
      chained : AreChained o.chains.chains o.roll.members;
      rooms : HaveRoom o.pairs o.room o.chains.chains;
      limit : o.roll.room ≤ o.chains.limit;
    } };
}

impl Observers {
    /// No observers, and room for `observers` of each peer of the settings and each domain that it may act for. This is the
    /// only call that takes memory.
    pub fn new(alloc: Global, settings: &Settings) -> Result<Self, NoMemory>
        ensures { IfOk result (λ made. made ≡ record { room = settings.now.limits.observers; pairs = pairs_of settings.now; observed = [] }) }
    {
        let pairs = Pairs::new(alloc, settings)?;
        let room = settings.limits().observers as usize;
        let Some(count) = pairs.pairs().len().checked_mul(room) else {
            return Err(NoMemory);
        };
        let roll = Roll::new(alloc, count)?;
        let chains = Chains::new(alloc, pairs.pairs(), room, roll.room())?;
        Ok(Observers {
            roll,
            chains,
            pairs,
            room,
        })
    }

    /// Whether there may be observers of this peer and domain: the settings let it act for the domain.
    pub fn holds(&self, peer: u32, domain: u16) -> bool
        ensures { result ≡ list_any (is_pair peer domain) self.now.pairs }
    {
        self.pairs.holds(peer, domain)
    }

    /// Registers an observer, whose peer and domain are a pair that the settings gave, and answers the number for the Observe
    /// of the reply. What it sees now counts as sent. One of the same peer and token is registered again: it keeps its place,
    /// and its numbers go on. None exactly where its peer and domain have as many observers as they may and it isn't one of
    /// them; then nothing changes.
    pub fn register<V: Views>(&mut self, observer: Observer, views: &V) -> Option<u32>
        requires { list_any (is_pair observer.peer observer.domain) self.old.pairs ≡ true }
        ensures number { result ≡ (if has_room self.old.room observer self.old.observed then Some (number_for observer self.old.observed) else None) }
        ensures list { self.new ≡ record self.old { observed = registered (V.lists views.now) self.old.room observer self.old.observed } }
    {
        if has_room(&self.roll, &self.chains, self.room, &observer) {
            let seen = SeenList::of(views, &observer);
            return Some(enter(&mut self.roll, &mut self.chains, observer, seen));
        }
        None
    }

    /// The number that [`Observers::register`] answers for this observer; None exactly where there is no room for it. Nothing changes.
    pub fn number(&self, observer: &Observer) -> Option<u32>
        ensures { result ≡ (if has_room self.now.room observer.now self.now.observed then Some (number_for observer.now self.now.observed) else None) }
    {
        if has_room(&self.roll, &self.chains, self.room, observer) {
            return Some(number_for(&self.roll, &self.chains, observer));
        }
        None
    }

    /// Takes the observer of this peer and token away, where there is one.
    pub fn deregister(&mut self, peer: u32, token: &[u8])
        ensures { self.new ≡ record self.old { observed = deregistered peer token.now self.old.observed } }
    {
        retain_others(&mut self.roll, &mut self.chains, peer, token);
    }

    /// Takes the observer of this peer away whose last notification had this Message ID, where there is one: it was
    /// rejected (RFC 7641, section 3.6).
    pub fn reset(&mut self, peer: u32, id: u16)
        ensures { self.new ≡ record self.old { observed = without_id peer id self.old.observed } }
    {
        retain_other_ids(&mut self.roll, &mut self.chains, peer, id);
    }

    /// The first observer of these at the place `from` or behind it that is due: what there is to see isn't what it was
    /// notified of last. What others see isn't looked at. Nothing changes.
    pub fn next_due<V: Views>(&self, views: &V, among: DueAmong, from: usize) -> Option<Notice<'_>>
        ensures next { MatchOption result (NoneIsDue (V.lists views.now) among from (length self.now.observed) self.now.observed)
            (λ notice. IsNextDue (V.lists views.now) among from self.now.observed notice.place notice.observer.now notice.number notice.gone) }
        // The place behind it is one, too.
        ensures few { IfSome result (λ notice. notice.place + 1 < 2 ^ 64) }
    {
        if !has_any_among(&self.roll, &self.chains, self.pairs.pairs(), among) {
            return None;
        }
        next_due(&self.roll, views, among, from)
    }

    /// A notification to the observer at this place was sent with this Message ID. Where nothing is left to
    /// see the observer goes, so that the next one has its place.
    pub fn notified<V: Views>(&mut self, views: &V, place: usize, id: u16)
        requires { place < length self.old.observed }
        ensures { self.new ≡ record self.old { observed = replace_at place (after_notice (V.lists views.now) id) self.old.observed } }
    {
        notify(&mut self.roll, &mut self.chains, views, place, id);
    }
}

/// Whether the observer is there already for its domain, or there are fewer of its peer and domain than the room.
fn has_room(roll: &Roll, chains: &Chains, room: usize, observer: &Observer) -> bool
    requires { AreChained chains.now.chains roll.now.members }
    ensures { result ≡ has_room room observer.now (observed_of roll.now.members) }
{
    if is_at_home(roll, chains, observer) {
        return true;
    }
    count_of(roll, chains, observer.peer, observer.domain) < room
}

/// Whether the observer is there already, and for its domain.
fn is_at_home(roll: &Roll, chains: &Chains, observer: &Observer) -> bool
    requires { AreChained chains.now.chains roll.now.members }
    ensures { result ≡ option_any (λ o. o.observer.domain == observer.now.domain) (own_of observer.now (observed_of roll.now.members)) }
{
    match token_key(roll, chains, observer.peer, observer.token.bytes()) {
        Some(key) => is_domain_at(roll, key, observer.domain),
        None => false,
    }
}

fn is_domain_at(roll: &Roll, key: usize, domain: u16) -> bool
    ensures { result ≡ option_any (λ o. o.observer.domain == domain) (one_at key roll.now.members) }
{
    match roll.get(key) {
        Some(one) => one.observer().domain == domain,
        None => false,
    }
}

/// The number of the next message to an observer.
fn number_for(roll: &Roll, chains: &Chains, observer: &Observer) -> u32
    requires { AreChained chains.now.chains roll.now.members }
    ensures { result ≡ number_for observer.now (observed_of roll.now.members) }
{
    match token_key(roll, chains, observer.peer, observer.token.bytes()) {
        Some(key) => number_at(roll, key),
        None => 1,
    }
}

fn number_at(roll: &Roll, key: usize) -> u32
    ensures { result ≡ unwrap_or (option_map (λ o. o.number) (one_at key roll.now.members)) 1 }
{
    match roll.get(key) {
        Some(one) => one.number(),
        None => 1,
    }
}

/// The key of the observer of this peer and token.
fn token_key(roll: &Roll, chains: &Chains, peer: u32, token: &[u8]) -> Option<usize>
    requires { AreChained chains.now.chains roll.now.members }
    ensures { result ≡ first_key (is_token peer token.now) roll.now.members }
{
    match chains.place(peer) {
        Some(at) => token_among(roll, chains, at, peer, token),
        None => None,
    }
}

/// The first key of the chain at this place whose observer is of this peer and token.
fn token_among(roll: &Roll, chains: &Chains, at: usize, peer: u32, token: &[u8]) -> Option<usize>
    requires { at < length chains.now.chains }
    ensures { result ≡ find (λ key. option_any (is_token peer token.now) (one_at key roll.now.members)) (chain_at at chains.now.chains).keys }
{
    let mut key = chains.start(at);
    for place in 0..chains.len(at) {
        key = chains.behind(at, key, place);
        if is_token_at(roll, key, peer, token) {
            return Some(key);
        }
    }
    None
}

fn is_token_at(roll: &Roll, key: usize, peer: u32, token: &[u8]) -> bool
    ensures { result ≡ option_any (is_token peer token.now) (one_at key roll.now.members) }
{
    match roll.get(key) {
        Some(one) => one.is_token(peer, token),
        None => false,
    }
}

/// The key of the first observer of this peer whose last notification had this Message ID.
fn id_key(roll: &Roll, chains: &Chains, peer: u32, id: u16) -> Option<usize>
    requires { AreChained chains.now.chains roll.now.members }
    ensures { result ≡ first_key (had_id peer id) roll.now.members }
{
    match chains.place(peer) {
        Some(at) => id_among(roll, chains, at, peer, id),
        None => None,
    }
}

/// The first key of the chain at this place whose observer is of this peer and had this Message ID.
fn id_among(roll: &Roll, chains: &Chains, at: usize, peer: u32, id: u16) -> Option<usize>
    requires { at < length chains.now.chains }
    ensures { result ≡ find (λ key. option_any (had_id peer id) (one_at key roll.now.members)) (chain_at at chains.now.chains).keys }
{
    let mut key = chains.start(at);
    for place in 0..chains.len(at) {
        key = chains.behind(at, key, place);
        if had_id_at(roll, key, peer, id) {
            return Some(key);
        }
    }
    None
}

fn had_id_at(roll: &Roll, key: usize, peer: u32, id: u16) -> bool
    ensures { result ≡ option_any (had_id peer id) (one_at key roll.now.members) }
{
    match roll.get(key) {
        Some(one) => one.had_id(peer, id),
        None => false,
    }
}

/// How many observers are of this peer and domain.
fn count_of(roll: &Roll, chains: &Chains, peer: u32, domain: u16) -> usize
    requires { AreChained chains.now.chains roll.now.members }
    ensures { result ≡ tally (is_of peer domain) (observed_of roll.now.members) }
{
    match chains.place(peer) {
        Some(at) => count_among(roll, chains, at, peer, domain),
        None => 0,
    }
}

/// How many keys of the chain at this place have an observer of this peer and domain.
fn count_among(roll: &Roll, chains: &Chains, at: usize, peer: u32, domain: u16) -> usize
    requires { at < length chains.now.chains }
    ensures { result ≡ tally (λ key. option_any (is_of peer domain) (one_at key roll.now.members)) (chain_at at chains.now.chains).keys }
{
    let mut key = chains.start(at);
    let mut count = 0;
    for place in 0..chains.len(at) {
        key = chains.behind(at, key, place);
        if is_of_at(roll, key, peer, domain) {
            count += 1;
        }
    }
    count
}

fn is_of_at(roll: &Roll, key: usize, peer: u32, domain: u16) -> bool
    ensures { result ≡ option_any (is_of peer domain) (one_at key roll.now.members) }
{
    match roll.get(key) {
        Some(one) => one.is_of(peer, domain),
        None => false,
    }
}

/// Puts an observer into the place of the one of its peer and token, or else to the end, and answers its number.
fn enter(roll: &mut Roll, chains: &mut Chains, observer: Observer, seen: SeenList) -> u32
    requires fits { length (entered observer seen (observed_of roll.old.members)) ≤ roll.old.room }
    requires chained { AreChained chains.old.chains roll.old.members }
    requires room { tally (λ o. peer_of o == observer.peer) (entered observer seen (observed_of roll.old.members)) ≤ room_in observer.peer chains.old.chains }
    requires limit { roll.old.room ≤ chains.old.limit }
    ensures number { result ≡ number_for observer (observed_of roll.old.members) }
    ensures list { observed_of roll.new.members ≡ entered observer seen (observed_of roll.old.members) }
    ensures capacity { roll.new.room ≡ roll.old.room }
    ensures chained { AreChained chains.new.chains roll.new.members }
    ensures room { SameRoom chains.old chains.new }
{
    let peer = observer.peer;
    match token_key(roll, chains, peer, observer.token.bytes()) {
        Some(key) => roll.register_again(key, observer, seen),
        None => {
            let key = roll.push(Observed::new(observer, seen));
            chains.push(peer, key);
            1
        }
    }
}

/// The observer under this key, which is of this peer, goes.
fn remove_key(roll: &mut Roll, chains: &mut Chains, peer: u32, key: usize)
    requires own { option_map peer_of (one_at key roll.old.members) ≡ Some peer }
    requires chained { AreChained chains.old.chains roll.old.members }
    ensures rows { roll.new.members ≡ without_key key roll.old.members }
    ensures capacity { roll.new.room ≡ roll.old.room }
    ensures chained { AreChained chains.new.chains roll.new.members }
    ensures room { SameRoom chains.old chains.new }
{
    roll.remove(key);
    chains.depart(peer, key);
}

fn retain_others(roll: &mut Roll, chains: &mut Chains, peer: u32, token: &[u8])
    requires chained { AreChained chains.old.chains roll.old.members }
    ensures items { observed_of roll.new.members ≡ deregistered peer token.now (observed_of roll.old.members) }
    ensures capacity { roll.new.room ≡ roll.old.room }
    ensures chained { AreChained chains.new.chains roll.new.members }
    ensures room { SameRoom chains.old chains.new }
{
    while let Some(key) = token_key(roll, chains, peer, token) {
        remove_key(roll, chains, peer, key);
    }
}

fn retain_other_ids(roll: &mut Roll, chains: &mut Chains, peer: u32, id: u16)
    requires chained { AreChained chains.old.chains roll.old.members }
    ensures items { observed_of roll.new.members ≡ without_id peer id (observed_of roll.old.members) }
    ensures capacity { roll.new.room ≡ roll.old.room }
    ensures chained { AreChained chains.new.chains roll.new.members }
    ensures room { SameRoom chains.old chains.new }
{
    while let Some(key) = id_key(roll, chains, peer, id) {
        remove_key(roll, chains, peer, key);
    }
}

/// Whether an observer is among these. Those of a domain are looked for among those of its peers alone.
fn has_any_among(roll: &Roll, chains: &Chains, pairs: &[Pair], among: DueAmong) -> bool
    requires chained { AreChained chains.now.chains roll.now.members }
    requires known { AreOf pairs.now (observed_of roll.now.members) }
    ensures { result ≡ list_any (includes_one among) (observed_of roll.now.members) }
{
    if roll.len() == 0 {
        return false;
    }
    match among {
        DueAmong::Nobody => return false,
        DueAmong::Domain(domain) => return has_any_of(roll, chains, pairs, domain),
        DueAmong::Anybody => return true,
    }
}

/// Whether an observer is of this domain.
fn has_any_of(roll: &Roll, chains: &Chains, pairs: &[Pair], domain: u16) -> bool
    requires chained { AreChained chains.now.chains roll.now.members }
    requires known { AreOf pairs.now (observed_of roll.now.members) }
    ensures { result ≡ list_any (includes_one (Domain domain)) (observed_of roll.now.members) }
{
    for pair in pairs {
        if has_one(roll, chains, *pair, domain) {
            return true;
        }
    }
    false
}

/// Whether the pair is one of this domain, and has an observer.
fn has_one(roll: &Roll, chains: &Chains, pair: Pair, domain: u16) -> bool
    requires { AreChained chains.now.chains roll.now.members }
    ensures { result ≡ has_one domain (observed_of roll.now.members) pair }
{
    pair.domain == domain && pair_key(roll, chains, pair.peer, domain).is_some()
}

/// The key of the first observer of this peer and domain.
fn pair_key(roll: &Roll, chains: &Chains, peer: u32, domain: u16) -> Option<usize>
    requires { AreChained chains.now.chains roll.now.members }
    ensures { result ≡ first_key (is_of peer domain) roll.now.members }
{
    match chains.place(peer) {
        Some(at) => pair_among(roll, chains, at, peer, domain),
        None => None,
    }
}

/// The first key of the chain at this place whose observer is of this peer and domain.
fn pair_among(roll: &Roll, chains: &Chains, at: usize, peer: u32, domain: u16) -> Option<usize>
    requires { at < length chains.now.chains }
    ensures { result ≡ find (λ key. option_any (is_of peer domain) (one_at key roll.now.members)) (chain_at at chains.now.chains).keys }
{
    let mut key = chains.start(at);
    for place in 0..chains.len(at) {
        key = chains.behind(at, key, place);
        if is_of_at(roll, key, peer, domain) {
            return Some(key);
        }
    }
    None
}

fn next_due<'a, V: Views>(
    roll: &'a Roll,
    views: &V,
    among: DueAmong,
    from: usize,
) -> Option<Notice<'a>>
    requires { Distinct (keys_of roll.now.members) }
    ensures next { MatchOption result (NoneIsDue (V.lists views.now) among from (length (observed_of roll.now.members)) (observed_of roll.now.members))
        (λ notice. IsNextDue (V.lists views.now) among from (observed_of roll.now.members) notice.place notice.observer.now notice.number notice.gone) }
    ensures few { IfSome result (λ notice. notice.place + 1 < 2 ^ 64) }
{
    let mut key = roll.start();
    for place in 0..roll.len() {
        key = roll.behind(key, place);
        if is_next(roll, key, views, among, place, from) {
            let one = roll.one(key);
            return Some(Notice {
                place,
                observer: one.observer(),
                number: one.number(),
                gone: ends_at(views, one.observer(), 0),
            });
        }
    }
    None
}

/// Whether the observer under this key is one of these and due, and its place is `from` or behind it. One before it isn't looked at.
fn is_next<V: Views>(
    roll: &Roll,
    key: usize,
    views: &V,
    among: DueAmong,
    place: usize,
    from: usize,
) -> bool
    requires { has_key key roll.now.members ≡ true }
    ensures { result ≡ nat_le from place && option_any (λ o. includes_one among o && is_due (V.lists views.now) o) (one_at key roll.now.members) }
{
    place >= from && is_due_among(roll.one(key), views, among)
}

fn is_due_among<V: Views>(one: &Observed, views: &V, among: DueAmong) -> bool
    ensures { result ≡ includes_one among one.now && is_due (V.lists views.now) one.now }
{
    among.includes(one.observer().domain) && one.is_due(views)
}

/// The observer at this place was notified of what there is to see, or goes where there is nothing.
fn notify<V: Views>(roll: &mut Roll, chains: &mut Chains, views: &V, place: usize, id: u16)
    requires at { place < length roll.old.members }
    requires chained { AreChained chains.old.chains roll.old.members }
    ensures items { observed_of roll.new.members ≡ replace_at place (after_notice (V.lists views.now) id) (observed_of roll.old.members) }
    ensures capacity { roll.new.room ≡ roll.old.room }
    ensures chained { AreChained chains.new.chains roll.new.members }
    ensures room { SameRoom chains.old chains.new }
{
    let key = roll.at(place);
    let one = roll.one(key);
    let peer = one.observer().peer;
    let seen = SeenList::of(views, one.observer());
    if seen.is_empty() {
        remove_key(roll, chains, peer, key);
        return;
    }
    roll.notify(key, seen, id);
}
