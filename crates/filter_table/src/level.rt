//! How many ranks there are of each kind.

ghost use Rattle.std.specs.Prelude.{◌≡◌, ◌<◌, ◌≤◌, ◌+◌, ◌^◌, nat_lt, length, vec_capacity};
ghost use Rattle.std.specs.List.{prefix_len, AllByRecursion};
ghost use Rattle.filter_table.specs.Levels.{one_more, one_less};

/// A kind that has ranks, and how many.
#[derive(Clone, Copy, Drop)]
pub struct Level {
    pub kind: u16,
    pub len: usize,
}

/// How many levels are of a lower kind.
fn levels_below(kind: u16, levels: &[Level]) -> usize
    ensures value { result ≡ prefix_len (λ level. nat_lt level.kind kind) levels.now }
    ensures within { result ≤ length levels.now }
{
    levels.iter().take_while(|level| level.kind < kind).count()
}

/// One more rank is of this kind.
pub fn add_one(levels: &mut Vec<Level>, kind: u16)
    requires room { length levels.old.items < vec_capacity levels.old }
    requires counts { AllByRecursion (λ level. level.len + 1 < 2 ^ 64) levels.old.items }
    ensures items { levels.new.items ≡ one_more kind levels.old.items }
    ensures capacity { vec_capacity levels.new ≡ vec_capacity levels.old }
{
    let at = levels_below(kind, levels.as_slice());
    if at < levels.len() && levels[at].kind == kind {
        levels[at].len += 1;
        return;
    }
    let _room_was_reserved = levels.insert(at, Level { kind, len: 1 });
}

/// One rank less is of this kind, which has some.
pub fn take_one(levels: &mut Vec<Level>, kind: u16)
    ensures items { levels.new.items ≡ one_less kind levels.old.items }
    ensures capacity { vec_capacity levels.new ≡ vec_capacity levels.old }
{
    let at = levels_below(kind, levels.as_slice());
    if levels.len() <= at {
        return;
    }
    if levels[at].len <= 1 {
        levels.remove(at);
        return;
    }
    levels[at].len -= 1;
}
