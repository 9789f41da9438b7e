//! Who looks on at a server.

ghost use Rattle.std.specs.Prelude.{List, [], ◌∷◌, ◌++◌, ⊤};
ghost use Rattle.dots_server.specs.ServerValues.{ServerValue};
ghost use Rattle.dots_server.specs.Onlooking.{seen_at};

use crate::server::Server;
use dots_host::What;

/// Who is shown a server at each tick, with the host that it serves, as one that writes its filters to a file.
pub trait Onlooker<H> {
    /// What it says of its own looks: from the one state to the other it was shown these, in order.
    ghost sees: { Self → Self → List ServerValue → Type 0 };

    /// Takes a look at the server and its host.
    fn look(&mut self, host: &H, server: &Server)
        ensures { sees self.old self.new (server.now ∷ []) };

    ghost sees_none: { (onlooker : Self) → sees onlooker onlooker [] };

    ghost sees_then: { (old mid new : Self) (seen more : List ServerValue) → sees old mid seen → sees mid new more → sees old new (seen ++ more) };
}

/// Nobody.
#[derive(Drop)]
pub struct Nobody;

impl<H> Onlooker<H> for Nobody {
    ghost sees = { λ _ _ _. ⊤ };

    ghost sees_none = { λ _. tt };

    ghost sees_then = { λ _ _ _ _ _ _ _. tt };

    fn look(&mut self, _host: &H, _server: &Server) {}
}

/// Shows the server and its host at a tick.
pub(crate) fn show<H, W: Onlooker<H>>(host: &H, server: &Server, what: What, onlooker: &mut W)
    ensures { W.sees onlooker.old onlooker.new (seen_at what server.now) }
{
    if let What::Tick = what {
        onlooker.look(host, server);
    }
}
