ghost use Rattle.std.specs.Prelude.{◌≡◌};
ghost use Rattle.lifetime_clock.specs.Lifetime.{IsLifetime, granted};

/// The lifetime that asks for no end.
const INDEFINITE: i32 = -1;

/// The lifetime that is granted where `asked` was asked for, both in seconds, -1 being an indefinite one (RFC 9132,
/// section 4.4.1).
///
/// An indefinite lifetime is granted where `indefinite` says so, and is else cut to the ceiling; any other one is
/// granted up to the ceiling.
pub fn grant(asked: i32, ceiling: i32, indefinite: bool) -> i32
    requires { IsLifetime asked }
    ensures { result ≡ granted asked ceiling indefinite }
{
    if asked != INDEFINITE {
        return asked.min(ceiling);
    }
    if indefinite { INDEFINITE } else { ceiling }
}
