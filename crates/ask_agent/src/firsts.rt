ghost use Rattle.std.specs.Prelude.{◌≡◌, ◌<◌, ◌≤◌, ◌^◌};
ghost use Rattle.dots_client.specs.declared.client.TheConstants.{MAX_MID};
ghost use Rattle.ask_agent.specs.Numbers.{mid_at, number_at};

use dots_client::MAX_MID;

/// The numbers with which a client begins where its settings don't say them.
#[derive(Clone, Copy)]
pub struct Firsts {
    /// The mid of the first new ask, at most [`MAX_MID`].
    pub mid: u32,
    /// The number of the first request.
    pub number: u64,
}

impl Firsts {
    /// Both are 1.
    pub fn ones() -> Self
        ensures { result ≡ record { mid = 1; number = 1 } }
    {
        Firsts { mid: 1, number: 1 }
    }

    /// The numbers of a client that begins at this second since 1970, below 2^48. A server takes a message for another's repeat within
    /// 247 seconds by its Message ID, and those of two runs of at most 64 requests differ where they begin at two seconds in so short a
    /// time: [`crate::laws::numbers_stay_apart`].
    pub fn at(second: u64) -> Self
        requires { second < 2 ^ 48 }
        ensures mid { result.mid ≡ mid_at second }
        ensures number { result.number ≡ number_at second }
        ensures fit { result.mid ≤ MAX_MID }
    {
        Firsts {
            mid: (second % u64::from(MAX_MID)) as u32,
            number: second * 65_536 + second % 1024 * 64,
        }
    }
}
