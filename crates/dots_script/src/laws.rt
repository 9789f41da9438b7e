ghost use Rattle.std.specs.Prelude.{◌≡◌, ℕ, List, Option, Some};
ghost use Rattle.dots_host.specs.Causes.{Rose};
ghost use Rattle.dots_host.specs.Memory.{Coming};
ghost use Rattle.dots_script.specs.Lines.{NextIs, IsFault, with_feeds};
ghost use Rattle.dots_script.specs.Accounts.{AreMade, LineSays};

use dots_host::Event;

/// Where the source doesn't fail, what is known to come decides the answer of a call, and what is known to come
/// after it.
pub fn a_script_has_one_answer()
    ensures { (text : List ℕ) (new next : Option (List ℕ)) (event other : Event) (at time : ℕ) →
        NextIs (Some text) new event at ⊥ → NextIs (Some text) next other time ⊥ →
        (event ≡ other) × (at ≡ time) × (new ≡ next) }
{}

/// Where what comes is known to go on with no line of a script, a call fails and reads no further, so each later
/// call fails too.
pub fn a_fault_stays()
    ensures { (text : List ℕ) (new : Option (List ℕ)) (event : Event) (at before now : ℕ) → IsFault text →
        NextIs (Some text) new event at (Rose before now) → (event ≡ Event.Failed) × (new ≡ Some text) }
{}

/// However a text is split into lines, they say one list of events.
pub fn lines_say_one_list()
    ensures { (lines others : List (List ℕ)) (said told : List Coming) → with_feeds lines ≡ with_feeds others →
        AreMade LineSays lines said → AreMade LineSays others told → said ≡ told }
{}
