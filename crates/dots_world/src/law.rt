//! Laws of a step of the machine, beside its clients.

ghost use Rattle.std.specs.Prelude.{◌≡◌, ◌<◌, ◌≤◌, ◌^◌, ℕ, ℤ, Bool, true, false, IsTrue, List, length, Contains, None, Result, Ok};
ghost use Rattle.acl_lists.specs.declared.asked.Asked.{Asked};
ghost use Rattle.cbor_profile.specs.Valid.{IsValid};
ghost use Rattle.coap_message.specs.Message.{CoapMessage, IsMessage, spelling};
ghost use Rattle.dots_host.specs.Runs.{outs_of};
ghost use Rattle.dots_host.specs.declared.event.Event.{Event};
ghost use Rattle.dots_host.specs.declared.event.Event.TheVariants as event;
ghost use Rattle.dots_host.specs.declared.out.OwnedOut.{OwnedOut};
ghost use Rattle.dots_host.specs.declared.out.OwnedOut.TheVariants as owned;
ghost use Rattle.dots_keys.specs.declared.reject.Reject.{Reject};
ghost use Rattle.dots_keys.specs.Operations.{is_client_name};
ghost use Rattle.dots_keys.specs.declared.request.Request.{Request};
ghost use Rattle.dots_keys.specs.Meaning.{Means};
ghost use Rattle.dots_history.specs.declared.entry.Entry.{Entry};
ghost use Rattle.dots_history.specs.declared.put.Put.{Put};
ghost use Rattle.dots_settings.specs.Settings.{SettingsValue};
ghost use Rattle.reply_bodies.specs.Requests.{request_tree};
ghost use Rattle.dots_client.specs.Asked.{CanAsk, asked_for, withdrawn};
ghost use Rattle.dots_client.specs.Grants.{IsGranted};
ghost use Rattle.dots_client.specs.Requests.{asking, withdrawing};
ghost use Rattle.dots_gateway.specs.Forwarding.{forwarded};
ghost use Rattle.dots_gateway.specs.Wanted.{passage, wanted_of};
ghost use Rattle.dots_machine.specs.Answering.{AreBytes};
ghost use Rattle.dots_keys.specs.Exchanges.{exchange_in, dismissed};
ghost use Rattle.dots_machine.specs.Replies.{granting};
ghost use Rattle.dots_machine.specs.Requests.{received_as};
ghost use Rattle.dots_keys.specs.declared.exchange.Exchange.{Exchange};
ghost use Rattle.dots_machine.specs.Machine.{State, later, Answers, Step};
ghost use Rattle.dots_world.specs.Adding.{CarriesRequest, AddsWhatIsAsked};
ghost use Rattle.dots_world.specs.Granting.{IsGrant, WasAnswered, IsNoDatagram, IsGrantFor};
ghost use Rattle.dots_world.specs.ReceivedAs.{IsReadAs};
ghost use Rattle.dots_world.specs.Forwarding.{passage_for, asked_in, withdrawn_in};

/// A datagram adds to the history that the signal of its client is back, where that was lost and the datagram can be read. Behind that it adds no
/// entry, or exactly one, which carries what the datagram asks: at its time, from its sender, for the domain
/// that this acts for, under the datagram's type and Message ID. What is granted has the mid, the lists and, by the settings, the lifetime
/// that were asked for.
pub fn adds()
    ensures answers { (settings : SettingsValue) (state : State) (peer : ℕ) (datagram : List ℕ) (sends : List OwnedOut) (new : State)
        → Answers settings state peer datagram sends new → AddsWhatIsAsked settings state.time peer datagram state.history new.history }
    ensures step { (settings : SettingsValue) (old : State) (peer : ℕ) (datagram : List ℕ) (at : ℕ) (owed : List (State × OwnedOut)) (new : State)
        → Step settings old (event.Datagram peer datagram) at owed new
        → AddsWhatIsAsked settings (later old at).time peer datagram old.history new.history }
{}

/// Where a datagram makes the machine send a grant, to whomever, the history that it leaves has an entry of this peer with these bytes as its
/// reply (`step`). No other event makes it send a grant (`elsewhere`). The reply to a request that is granted is a grant, with the token of the
/// request and the mid and lifetime that were granted (`granted`), and of no other token, mid or lifetime (`one`). So where the reply of an entry that
/// a datagram added is a grant, the datagram asked for a mitigation, and the grant has its token and tells what the entry says, by settings
/// with a ceiling below 2^31 or where the entry's lifetime is one that a grant can tell (`kept`).
pub fn grants()
    ensures step { (settings : SettingsValue) (old : State) (peer : ℕ) (datagram : List ℕ) (at : ℕ) (owed : List (State × OwnedOut)) (new : State)
        (to : ℕ) (bytes token : List ℕ) (mid : ℕ) (lifetime : ℤ) → Step settings old (event.Datagram peer datagram) at owed new
        → Contains (outs_of owed) (owned.To to bytes) → IsGrant bytes token mid lifetime → WasAnswered new.history to bytes }
    ensures elsewhere { (settings : SettingsValue) (old : State) (what : Event) (at : ℕ) (owed : List (State × OwnedOut)) (new : State)
        (to : ℕ) (bytes token : List ℕ) (mid : ℕ) (lifetime : ℤ) → IsNoDatagram what → Step settings old what at owed new
        → Contains (outs_of owed) (owned.To to bytes) → IsGrant bytes token mid lifetime → ⊥ }
    ensures granted { (exchange : Exchange) (put : Put) (refreshed : Bool)
        → exchange.id < 2 ^ 16 → length exchange.token ≤ 8 → put.mid < 2 ^ 32 → IsGranted put.granted
        → IsGrant (granting exchange (record { put = put; refreshed = refreshed })) exchange.token put.mid put.granted }
    ensures one { (bytes token other_token : List ℕ) (mid other_mid : ℕ) (lifetime other_lifetime : ℤ)
        → IsGrant bytes token mid lifetime → IsGrant bytes other_token other_mid other_lifetime
        → (token ≡ other_token) × (mid ≡ other_mid) × (lifetime ≡ other_lifetime) }
    ensures kept { (settings : SettingsValue) (time peer : ℕ) (datagram : List ℕ) (entry : Entry) (token : List ℕ) (mid : ℕ) (lifetime : ℤ)
        (carries : CarriesRequest settings time peer datagram entry) → IsGrant entry.reply token mid lifetime
        → IsGrantFor settings carries.exchange entry token mid lifetime }
{}

/// A message that asks something is received as what it means, and as nothing else. So a client's request for a mitigation is received as this
/// request, or refused where it names no prefix, name or alias, and its withdrawal as this withdrawal.
pub fn reads()
    ensures meant { (m : CoapMessage) (gateway : Bool) (answer : Result Request Reject) → IsMessage m → dismissed m ≡ None → Means m gateway answer
        → AreBytes (spelling m) → IsReadAs (spelling m) gateway (received_as (exchange_in m) answer) }
    ensures asked { (number mid : ℕ) (cuid : List ℕ) (asked : Asked) (lifetime : ℤ)
        → IsTrue (is_client_name cuid) → mid < 2 ^ 32 → CanAsk asked → IsGranted lifetime → IsValid (request_tree asked lifetime)
        → AreBytes (spelling (asking number cuid mid asked lifetime))
        → IsReadAs (spelling (asking number cuid mid asked lifetime)) false
        (received_as (exchange_in (asking number cuid mid asked lifetime)) (asked_for cuid mid asked lifetime)) }
    ensures withdrawn { (number mid : ℕ) (cuid : List ℕ) → IsTrue (is_client_name cuid) → mid < 2 ^ 32 → AreBytes (spelling (withdrawing number cuid mid))
        → IsReadAs (spelling (withdrawing number cuid mid)) false (received_as (exchange_in (withdrawing number cuid mid)) (withdrawn cuid mid)) }
{}

/// What a gateway passes on of a client's request is received as this request for the domain that the gateway names, or refused where it names no
/// prefix, name or alias, and as nothing else. A gateway takes the client's cuid and mid from it, and a Hop-Limit of 16 (`passes`,
/// `passes_withdrawn`).
pub fn forwards()
    ensures passes { (number mid : ℕ) (cuid : List ℕ) (asked : Asked) (lifetime : ℤ) → IsTrue (is_client_name cuid) → mid < 2 ^ 32
        → wanted_of (asking number cuid mid asked lifetime) ≡ Ok (passage (passage_for cuid mid)) }
    ensures passes_withdrawn { (number mid : ℕ) (cuid : List ℕ) → IsTrue (is_client_name cuid) → mid < 2 ^ 32
        → wanted_of (withdrawing number cuid mid) ≡ Ok (passage (passage_for cuid mid)) }
    ensures asked { (next number mid : ℕ) (domain cuid : List ℕ) (asked : Asked) (lifetime : ℤ)
        → IsTrue (is_client_name domain) → IsTrue (is_client_name cuid) → mid < 2 ^ 32 → CanAsk asked → IsGranted lifetime → IsValid (request_tree asked lifetime)
        → AreBytes (spelling (forwarded next domain (passage_for cuid mid) (asking number cuid mid asked lifetime)))
        → IsReadAs (spelling (forwarded next domain (passage_for cuid mid) (asking number cuid mid asked lifetime))) true
        (received_as (exchange_in (forwarded next domain (passage_for cuid mid) (asking number cuid mid asked lifetime))) (asked_in domain cuid mid asked lifetime)) }
    ensures withdrawn { (next number mid : ℕ) (domain cuid : List ℕ) → IsTrue (is_client_name domain) → IsTrue (is_client_name cuid) → mid < 2 ^ 32
        → AreBytes (spelling (forwarded next domain (passage_for cuid mid) (withdrawing number cuid mid)))
        → IsReadAs (spelling (forwarded next domain (passage_for cuid mid) (withdrawing number cuid mid))) true
        (received_as (exchange_in (forwarded next domain (passage_for cuid mid) (withdrawing number cuid mid))) (withdrawn_in domain cuid mid)) }
{}
