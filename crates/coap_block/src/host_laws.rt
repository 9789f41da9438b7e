//! Laws about runs over a host around a host, and about fetched blocks. No program needs to call these functions.

ghost use Rattle.std.specs.Prelude.{◌≡◌, List, ℕ, [], Option, Bool, true};
ghost use Rattle.std.specs.List.{concat};
ghost use Rattle.dots_host.specs.Acts.{Timed};
ghost use Rattle.dots_host.specs.Runs.{Added};
ghost use Rattle.dots_host.specs.declared.act.Act.{Act};
ghost use Rattle.coap_block.specs.Blocks.{Blocks};
ghost use Rattle.coap_block.specs.Around.{seen_above, AreSeen, ArePlain, GoesOnSeen, IsSeenFrom, IsRunAround, no_blocks};
ghost use Rattle.coap_block.specs.Fetching.{Fetch, Fetches};

/// Where a peer fetches the blocks of one request with one size, none of them is missing and the last says that no more
/// follow, the blocks joined are the body that the first was cut from.
pub fn blocks_join()
    ensures { (fetch : Fetch) (old : Blocks) (inner outer : Timed) (inners outers : List Timed) (body : List ℕ)
        (parts : List (List ℕ)) → Fetches fetch old inner outer inners outers body parts → concat parts ≡ body }
{}

/// What any run over a [`BlockHost`](crate::BlockHost) shows of the acts that it sees, it shows of acts that stand so to those of the
/// host inside. What that one told before the run is seen as it was.
pub fn run_around()
    // Before a run those above see what the host inside told.
    ensures begins { (old : Option (List Timed)) → seen_above old [] ≡ old }
    // After a run, as the host around says of its calls, they see the same, and then the new acts as they were handed on.
    ensures goes_on { (old new : Option (List Timed)) (log : List Act) (blocks : Blocks)
        → GoesOnSeen old [] no_blocks new log blocks → IsSeenFrom old new (seen_above new log) }
    // So the acts inside are those of a run, as they were handed on.
    ensures ends { (shows : List Timed → Bool) (old new seen : Option (List Timed)) → IsSeenFrom old new seen
        → Added old seen (λ acts. shows acts ≡ true) → Added old new (IsRunAround (λ acts. shows acts ≡ true)) }
{}

/// Where no request has a Block2 and no payload that is sent has more than 1,024 bytes, the acts above are those inside.
pub fn short_replies_stay()
    ensures { (inners outers : List Timed) (blocks : Blocks) → AreSeen no_blocks inners outers blocks → ArePlain inners outers → outers ≡ inners }
{}
