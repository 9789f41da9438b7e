//! Laws of the world.

ghost use Rattle.std.specs.Prelude.{◌≡◌, ◌≤◌, ◌^◌, ℕ, List, [], length, map, Contains};
ghost use Rattle.dots_host.specs.Acts.{Timed};
ghost use Rattle.dots_host.specs.Runs.{resting, Trace};
ghost use Rattle.dots_history.specs.declared.entry.Entry.{Entry};
ghost use Rattle.dots_client.specs.declared.granted.Granted.{Granted};
ghost use Rattle.dots_client.specs.Client.{ClientValue};
ghost use Rattle.dots_machine.specs.Machine.{State, begun_from, Step};
ghost use Rattle.dots_world.specs.Plans.{PlanClient, Plan, IsPlan};
ghost use Rattle.dots_world.specs.Worlds.{MadeAsk, World, WorldEvent, begun, IsClient, Runs};
ghost use Rattle.dots_world.specs.Granted.{IsGrantedTo, WasAsked, HasOneEntry};
ghost use Rattle.dots_world.specs.Once.{Finds, RunsFinding};
ghost use Rattle.dots_world.specs.OneWorld.{RunsWell, RunsChosenWell};

/// What a client's ledger shows as granted is in the server's history: with its mid, its scope and its lifetime, for the client's domain and
/// under its name. So it is after each list of at most 2^31 events, whatever was lost, repeated and reordered, and whenever the server and the
/// gateway restarted.
pub fn ledgers_are_granted()
    ensures { (plan : Plan) (events : List WorldEvent) (world : World State) → IsPlan plan → length events ≤ 2 ^ 31
        → Runs (Step plan.settings) plan (begun plan (begun_from plan.settings [])) events world
        → (i : ℕ) (c : PlanClient) (client : ClientValue) (row : Granted) → IsClient plan world i c client → Contains client.ledger row
        → IsGrantedTo plan world.server.history i row }
{}

/// Each entry of the server's history carries what a client asked, for the domain that the settings give this client and under its name.
pub fn entries_are_asked()
    ensures { (plan : Plan) (events : List WorldEvent) (world : World State) → IsPlan plan → length events ≤ 2 ^ 31
        → Runs (Step plan.settings) plan (begun plan (begun_from plan.settings [])) events world
        → (entry : Entry) → Contains world.server.history entry → WasAsked plan world.asks entry }
{}

/// The acts of the server are a run of its machine from the empty history to the state that it has, whatever their moments are.
pub fn acts_are_a_run()
    ensures { (plan : Plan) (events : List WorldEvent) (world : World State)
        → Runs (Step plan.settings) plan (begun plan (begun_from plan.settings [])) events world
        → (acts : List Timed) → map (λ (timed : Timed). timed.act) acts ≡ world.acts
        → (trace : List State) × Trace (Step plan.settings) (resting (begun_from plan.settings [])) acts trace (resting world.server) }
{}

/// An ask has at most one entry where each of its packets that comes to the server, once there is an entry of it, finds that entry remembered by
/// the packet's own Message ID: whether its client sent it, or the gateway passed it on, under whatever number.
pub fn an_ask_has_one_entry()
    ensures { (plan : Plan) (a : MadeAsk) (events : List WorldEvent) (world : World State) → IsPlan plan → length events ≤ 2 ^ 31
        → RunsFinding (Step plan.settings) (λ state. state.history) (Finds plan.settings) plan a (begun plan (begun_from plan.settings [])) events world
        → Contains world.asks a → HasOneEntry plan world.gateway.kept world.server.history a }
{}

/// Where nobody lacks memory the events decide the world (`one`): two worlds of one plan and one list of events are the same, if the server sent no
/// 5.00 in either, and neither the gateway nor a client gave up anything for want of memory. So are two worlds of one plan and as many events, each
/// chosen by its place and by the world before it, and their events are the same (`chosen`). Such a run is a run (`run`).
pub fn one_world()
    ensures one { (plan : Plan) (events : List WorldEvent) (world other : World State) → IsPlan plan → length events ≤ 2 ^ 31
        → RunsWell (Step plan.settings) plan (begun plan (begun_from plan.settings [])) events world
        → RunsWell (Step plan.settings) plan (begun plan (begun_from plan.settings [])) events other → world ≡ other }
    ensures chosen { (plan : Plan) (choose : ℕ → World State → WorldEvent) (events others : List WorldEvent) (world other : World State)
        → IsPlan plan → length events ≤ 2 ^ 31 → length others ≡ length events
        → RunsChosenWell (Step plan.settings) choose plan 0 (begun plan (begun_from plan.settings [])) events world
        → RunsChosenWell (Step plan.settings) choose plan 0 (begun plan (begun_from plan.settings [])) others other
        → (events ≡ others) × (world ≡ other) }
    ensures run { (plan : Plan) (events : List WorldEvent) (old new : World State)
        → RunsWell (Step plan.settings) plan old events new → Runs (Step plan.settings) plan old events new }
{}
