//! Laws of runs.

ghost use Rattle.std.specs.Prelude.{◌≡◌, ◌⊎◌, ◌==◌, ℕ, ◌+◌, ◌<◌, ◌≤◌, max, false, ◌&&◌, List, [], ◌∷◌, ◌++◌, length, take, filter, Option, Some};
ghost use Rattle.std.specs.List.{list_any};
ghost use Rattle.dots_host.specs.Acts.{Timed};
ghost use Rattle.dots_host.specs.Runs.{Owing, resting, outs_of, Trace};
ghost use Rattle.dots_host.specs.declared.event.Event.{Event};
ghost use Rattle.dots_host.specs.declared.event.Event.TheVariants as event;
ghost use Rattle.dots_host.specs.declared.out.OwnedOut.{OwnedOut};
ghost use Rattle.dots_host.specs.declared.out.OwnedOut.TheVariants as owned;
ghost use Rattle.dots_history.specs.declared.entry.Entry.{Entry};
ghost use Rattle.dots_history.specs.Entries.{signals, may_repeat};
ghost use Rattle.dots_history.specs.Rows.{plain_rows};
ghost use Rattle.dots_keys.specs.declared.request.Request.{Request};
ghost use Rattle.dots_settings.specs.Settings.{SettingsValue};
ghost use Rattle.dots_settings.specs.Lookups.{role_of};
ghost use Rattle.dots_host.specs.Media.{Media};
ghost use Rattle.slot_store.specs.Gates.{Sees};
ghost use Rattle.slot_store.specs.Layout.{needed_of};
ghost use Rattle.slot_journal.specs.DiskEntries.{HasEntries};
ghost use Rattle.slot_journal.specs.Sizes.{slots_of};
ghost use Rattle.dots_history.specs.Histories.{Calm, Kept, tally};
ghost use Rattle.dots_history.specs.Fits.{last_time};
ghost use Rattle.http_cut.specs.Requests.{Request as Message};
ghost use Rattle.rest_answers.specs.declared.caller.Caller.{Caller};
ghost use Rattle.rest_answers.specs.Answer.{RestAnswer};
ghost use Rattle.rest_answers.specs.Answers.{Answers};
ghost use Rattle.session_core.specs.Notifying.{Apart};
ghost use Rattle.dots_machine.specs.Surviving.{MeansAt, shown, time_at};
ghost use Rattle.dots_machine.specs.Endings.{GivesSettings, IsReady, Ran};
ghost use Rattle.dots_machine.specs.declared.ending.Stop.{Stop};
ghost use Rattle.dots_machine.specs.ConfiguredPeers.{configured_in};
ghost use Rattle.dots_machine.specs.Facts.{Facts, AreFacts};
ghost use Rattle.dots_machine.specs.OneView.{HaveOneView, ConfigureInOneDomain, AreReadAlike};
ghost use Rattle.dots_machine.specs.Apart.{domain_of, SameFor, HaveOnePart, StaysApart};
ghost use Rattle.dots_machine.specs.Answering.{AreBytes, IsHandedIn, IsUnavailable, HaveOneAnswer, Differ};
ghost use Rattle.dots_machine.specs.Domains.{is_gateway, is_stranger};
ghost use Rattle.dots_machine.specs.Requests.{IsReceived};
ghost use Rattle.dots_machine.specs.MessageRepeats.{sent_for, IsRepeatOf};
ghost use Rattle.dots_machine.specs.RepeatRule.{remembered_for, AsksToChange};
ghost use Rattle.dots_machine.specs.Machine.{State, afresh, begun_from, later, DecidesRequest, Decides, AnswersFront, Step};
ghost use Rattle.dots_machine.specs.Handlings.{Handling, IsHandling, EachHandling, handlings_of};
ghost use Rattle.dots_machine.specs.Adding.{AddsExactly};
ghost use Rattle.dots_machine.specs.RepeatAnswers.{IsRepeated, AnswersRepeats};
ghost use Rattle.dots_machine.specs.Isolation.{IsIsolated};
ghost use Rattle.dots_machine.specs.Orderly.{IsOrderly, SharesNoneSince, SharesNone, AllCameSince};
ghost use Rattle.dots_keys.specs.declared.exchange.Exchange.{Exchange};
ghost use Rattle.dots_machine.specs.declared.received.Received.TheVariants as received;
ghost use Rattle.dots_machine.specs.Verdict.{Verdict};
ghost use Rattle.dots_machine.specs.declared.verdict.Verdict.TheVariants as verdict;

/// A list of acts fixes one state: whatever was free to choose shows in the sends. No two observers have one peer and token at its start, and
/// so it stays, as it is at the beginning, where nobody observes.
pub fn one_state()
    ensures begun { (settings : SettingsValue) (entries : List Entry) (t : ℕ) → Apart (afresh settings entries t).observers }
    ensures step { (settings : SettingsValue) (old : State) (event : Event) (at : ℕ) (owed : List (State × OwnedOut)) (new : State)
        → Apart old.observers → Step settings old event at owed new → Apart new.observers }
    ensures one { (settings : SettingsValue) (from : State) (acts : List Timed) (trace others : List State) (new other : State)
        → Apart from.observers
        → Trace (Step settings) (resting from) acts trace (resting new)
        → Trace (Step settings) (resting from) acts others (resting other)
        → new ≡ other }
{}

/// An event has one answer: of one state and one event any two steps give the same replies in the same state, or one of them is 5.00 for want
/// of memory. The turns of a piece are the same so far as none of them is 500 for want of memory, and a connection on which no head can come any
/// more isn't refused at once in one of them alone. Behind the replies an observer that is due may not be told, for want of memory too.
pub fn one_answer()
    ensures { (settings : SettingsValue) (old : State) (event : Event) (at : ℕ) (owed others : List (State × OwnedOut)) (new other : State)
        → IsHandedIn event → Step settings old event at owed new → Step settings old event at others other
        → HaveOneAnswer settings event (outs_of owed) new (outs_of others) other ⊎ Differ settings (later old at) event (outs_of owed) (outs_of others) }
{}

/// The domains stay apart: of two states of one time that have the same entries of a domain, and in which its clients were heard at the same times,
/// a step from the one is for another domain, and leaves the entries of this one as they were, or its datagram is decided on from the other in the same way, the sends begin with the
/// replies of that verdict, and it leaves this domain the same on both. So it is with a piece of a connection, where the other state has the same
/// connections: it is of another domain, or its turns are the same from both. At a tick the same signals of it are lost from both. Or none of these came,
/// and the entries of this one are as they were. Behind
/// the replies stand notifications, and at a tick heartbeats, which go to peers of all domains. And the same rows of mitigations filter for it in both.
pub fn domains_stay_apart()
    ensures step { (settings : SettingsValue) (domain : ℕ) (old other : State) (event : Event) (at : ℕ) (owed : List (State × OwnedOut)) (new : State)
        → HaveOnePart settings domain old other → Step settings old event at owed new → StaysApart settings domain old other event at (outs_of owed) new }
    ensures rows { (domain : ℕ) (one other : State) → SameFor domain one other
        → filter (λ row. row.domain == domain) (plain_rows one.time one.history) ≡ filter (λ row. row.domain == domain) (plain_rows other.time other.history) }
{}

/// A message that is accepted is repeated by each message of its peer for its domain with its Message ID, for 247 seconds if it was confirmable
/// and for 145 if it wasn't, as long as fewer accepted ones of that peer and domain come after it than are remembered, and none of these
/// with that Message ID. And a repeat, whatever it asks to change, is answered with the bytes that answered the message, by the rules, over
/// each step and over each handling of a run, nothing is added to the history but that its peer's signal is back, where it was lost, and notifications may
/// follow; or 5.00 is answered, for want of memory.
pub fn repeats_are_answered()
    ensures accepted { (settings : SettingsValue) (state : State) (peer : ℕ) (exchange : Exchange) (asked : Request) (reply : List ℕ) (entry : Entry)
        → DecidesRequest settings state peer exchange asked (verdict.Accept reply entry)
        → (domain : ℕ) × (domain_of settings (role_of settings peer) asked ≡ Some domain) × (entry.reply ≡ reply)
        × ((t : ℕ) (since : List Entry) → t ≤ state.time + remembered_for exchange.kind → tally (signals peer domain) since < settings.limits.remembered
        → list_any (λ (e : Entry). signals peer domain e && may_repeat t exchange.id e.time e.key) since ≡ false
        → IsRepeatOf settings.limits.remembered t (state.history ++ entry ∷ since) (sent_for peer exchange domain) entry) }
    ensures rules { (settings : SettingsValue) (state : State) (peer : ℕ) (exchange : Exchange) (asked : Request) (domain : ℕ) (entry : Entry) (decided : Verdict)
        → AsksToChange settings (role_of settings peer) domain asked
        → IsRepeatOf settings.limits.remembered state.time state.history (sent_for peer exchange domain) entry
        → DecidesRequest settings state peer exchange asked decided → decided ≡ verdict.Reply entry.reply }
    ensures step { (settings : SettingsValue) (old : State) (peer : ℕ) (datagram : List ℕ) (at : ℕ) (owed : List (State × OwnedOut)) (new : State)
        (exchange : Exchange) (asked : Request) (domain : ℕ) (entry : Entry) → AreBytes datagram → is_stranger (role_of settings peer) ≡ false
        → IsReceived datagram (is_gateway (role_of settings peer)) (received.Asked exchange asked)
        → AsksToChange settings (role_of settings peer) domain asked
        → IsRepeatOf settings.limits.remembered (later old at).time old.history (sent_for peer exchange domain) entry
        → Step settings old (event.Datagram peer datagram) at owed new
        → IsRepeated settings old peer entry.reply at (outs_of owed) new ⊎ IsUnavailable (event.Datagram peer datagram) owed }
    ensures run { (settings : SettingsValue) (from : State) (acts : List Timed) (trace : List State) (new : State)
        → Trace (Step settings) (resting from) acts trace (resting new) → EachHandling (AnswersRepeats settings) from (handlings_of acts) new }
{}

/// An entry is added to the history exactly where the rules accept what came, at its time, with that entry; or 5.00 was answered, for
/// want of memory. And it is added that a signal is lost, or back, exactly where it is. So it is with each request of a piece, which is answered 500 for want of memory. It holds of each handling, and so of each
/// handling of a run.
pub fn entries_are_accepted()
    ensures handling { (settings : SettingsValue) (old : State) (handling : Handling) (new : State) → IsHandling settings old handling new → AddsExactly settings old handling new }
    ensures run { (settings : SettingsValue) (from : State) (acts : List Timed) (trace : List State) (new : State)
        → Trace (Step settings) (resting from) acts trace (resting new) → EachHandling (AddsExactly settings) from (handlings_of acts) new }
{}

/// Over a whole run what a domain has (its entries, and when its clients were heard) is what its own turns make: the messages of its clients, its
/// requests of the signal channel and of the data channel, the ticks and the restarts, each with the time that the whole run gave it. And each of the
/// requests is answered by the domain's entries alone.
pub fn domains_are_isolated()
    ensures { (settings : SettingsValue) (domain : ℕ) (from : State) (acts : List Timed) (trace : List State) (new : State)
        → Trace (Step settings) (resting from) acts trace (resting new) → IsIsolated settings from (handlings_of acts) new domain }
{}

/// No two mitigations of a domain that stand have an address in common, and of two of one client that overlap the one with the higher mid
/// stands: so it is at the beginning, and so it stays over each step and each run.
///
/// That none is shared stays by itself, and over a crash, too. It does at the beginning (`shares_begun`), and over each step and each run whose events come since the time since
/// which it does (`shares_step`, `shares_run`). Where a run began so, however it ended, a restart after a crash at any moment finds what
/// shares none since the machine's time at that moment (`recovered`): a clock that runs backwards over a crash may make what had ended stand again. Where that time isn't
/// after the last entry none is shared at any time (`since_last`).
pub fn mitigations_stand_apart()
    ensures begun { (settings : SettingsValue) (t : ℕ) → IsOrderly (afresh settings [] t) }
    ensures step { (settings : SettingsValue) (old : State) (event : Event) (at : ℕ) (owed : List (State × OwnedOut)) (new : State)
        → IsOrderly old → Step settings old event at owed new → IsOrderly new }
    ensures run { (settings : SettingsValue) (from : State) (acts : List Timed) (trace : List State) (new : State)
        → IsOrderly from → Trace (Step settings) (resting from) acts trace (resting new) → IsOrderly new }
    ensures shares_begun { (settings : SettingsValue) (t : ℕ) → SharesNone (afresh settings [] t) }
    ensures shares_step { (settings : SettingsValue) (since : ℕ) (old : State) (event : Event) (at : ℕ) (owed : List (State × OwnedOut)) (new : State)
        → SharesNoneSince since old → since ≤ at → Step settings old event at owed new → SharesNoneSince since new }
    ensures shares_run { (settings : SettingsValue) (since : ℕ) (from : State) (acts : List Timed) (trace : List State) (new : State)
        → SharesNoneSince since from → AllCameSince since acts → Trace (Step settings) (resting from) acts trace (resting new) → SharesNoneSince since new }
    ensures recovered { (settings : SettingsValue) (since : ℕ) (start : State) (trace : List State) (end : Owing State) (how : Stop) (acts : List Timed)
        (m : ℕ) (image : ℕ → ℕ) (media : Option Media) (stored : List Entry)
        → SharesNoneSince since start → AllCameSince since acts → Ran settings start trace end how acts
        → MeansAt settings start acts trace end.last.history m image → Sees media image → ((seen : ℕ → ℕ) → Sees media seen → HasEntries settings seen stored)
        → SharesNoneSince (max since (time_at m acts trace start.time)) (begun_from settings stored) }
    ensures since_last { (since : ℕ) (state : State) → since ≤ last_time state.history → SharesNoneSince since state → SharesNone state }
{}

/// What is decided is read from the view. Of two histories with one view, in each of which the session configurations of a peer are of one
/// domain, what is known of the one is known of the other (`facts`): how a request is judged, whose name is taken, what stands and is shown, what is remembered and what is
/// configured. All but the last needs the view alone (`rest`), and the configurations of a calm history are so (`calm`). So each datagram of each peer is decided on alike in two such
/// states of one time (`decides`); each request of the data channel is answered alike (`answers`); and what stands at the front of a connection is answered alike, and adds the
/// same to both (`fronts`).
pub fn views_are_answered()
    ensures facts { (settings : SettingsValue) (t : ℕ) (one other : List Entry) (facts : Facts)
        → AreReadAlike settings t one other → AreFacts settings t one facts → AreFacts settings t other facts }
    ensures rest { (settings : SettingsValue) (t : ℕ) (one other : List Entry) → HaveOneView settings t one other
        → (facts : Facts) → AreFacts settings t one facts → AreFacts settings t other (record facts { configured = configured_in other }) }
    ensures decides { (settings : SettingsValue) (old other : State) (peer : ℕ) (datagram : List ℕ) (decided : Verdict) → old.time ≡ other.time
        → AreReadAlike settings old.time old.history other.history → Decides settings old peer datagram decided → Decides settings other peer datagram decided }
    ensures answers { (settings : SettingsValue) (t : ℕ) (one other : List Entry) → HaveOneView settings t one other
        → (caller : Caller) (message : Message) (answered : RestAnswer) → Answers settings t one caller message answered → Answers settings t other caller message answered }
    ensures fronts { (settings : SettingsValue) (conn : ℕ) (old other : State) (sends : List OwnedOut) (new : State) → old.time ≡ other.time → old.lines ≡ other.lines
        → HaveOneView settings old.time old.history other.history → AnswersFront settings conn old sends new
        → (extra : List Entry) × (new.history ≡ old.history ++ extra)
        × AnswersFront settings conn other sends (record other { history = other.history ++ extra; lines = new.lines }) }
    ensures calm { (entries : List Entry) → Calm entries → ConfigureInOneDomain entries }
{}

/// Runs go on from one another over a crash. Where an image represents what a run had accepted and told at a moment, and a read of the disk of another run
/// gives this image, then what that run recovered (the entries that its disk held, as `was_stored` of `Serves` says) means a front of what the first one
/// accepted, with all that was told before the moment (`found`). And the disk is ready for it, if it is large enough (`ready`), so it isn't refused.
pub fn runs_go_on()
    ensures found { (settings : SettingsValue) (start : State) (acts : List Timed) (trace : List State) (history : List Entry) (m : ℕ) (image : ℕ → ℕ) (media : Option Media) (stored : List Entry)
        → MeansAt settings start acts trace history m image → Sees media image → ((seen : ℕ → ℕ) → Sees media seen → HasEntries settings seen stored)
        → (count : ℕ) × (count ≤ length history) × (shown m acts trace (length start.history) ≤ count)
        × Kept settings.limits.remembered (time_at m acts trace start.time) stored (take count history) }
    ensures ready { (start : State) (acts : List Timed) (trace : List State) (history : List Entry) (m : ℕ) (image : ℕ → ℕ) (left : Option (List ℕ)) (media : Option Media) (extent : ℕ)
        → (gives : GivesSettings left) → MeansAt gives.settings start acts trace history m image → Sees media image → needed_of (slots_of gives.settings) ≤ extent
        → IsReady left media extent }
{}
