//! What the definitions come to: each function's contract is a law, and its body does nothing.

ghost use Rattle.std.specs.Prelude.{◌≡◌, ◌+◌, ◌⊎◌, ℕ, List, Option, Some, Ok};
ghost use Rattle.coap_message.specs.Message.{CoapMessage, spelling};
ghost use Rattle.dots_gateway.specs.Answered.{IsAnswered};
ghost use Rattle.dots_gateway.specs.declared.exchange.Exchange.{Exchange};
ghost use Rattle.dots_gateway.specs.declared.passed.Passed.TheVariants as passed;
ghost use Rattle.dots_gateway.specs.Gateway.{GatewayValue, Ups, Downs, IsBeat, after};
ghost use Rattle.dots_gateway.specs.PassedOn.{IsPassedOn};
ghost use Rattle.dots_gateway.specs.Routes.{domain_for};

/// What is passed on asks what the client asked, for the client's own domain: whatever cdid the client gave isn't in it. Its Hop-Limit is
/// less by one, and it observes nothing.
pub fn passed_on()
    ensures { (g : GatewayValue) (peer : ℕ) (datagram bytes : List ℕ) (fresh : Option Exchange)
        → Ups g peer datagram (Ok (passed.Forward bytes fresh))
        → (domain : List ℕ) × (domain_for g.routes g.upstream peer ≡ Some domain) × IsPassedOn domain datagram bytes }
{}

/// What goes to a peer for a datagram of the upstream is the answer to a heartbeat, which goes to the upstream, or the answer to a request
/// of just this client, which waits.
pub fn answered_to()
    ensures { (g : GatewayValue) (datagram : List ℕ) (to : ℕ) (bytes : List ℕ) → Downs g datagram (passed.Reply to bytes)
        → ((m : CoapMessage) × (datagram ≡ spelling m) × IsBeat m × (to ≡ g.upstream)) ⊎ IsAnswered g.exchanges datagram to bytes }
{}

/// An exchange that is new has the next number, and no later one has it.
pub fn numbers_rise()
    ensures fresh { (g : GatewayValue) (peer : ℕ) (datagram bytes : List ℕ) (exchange : Exchange)
        → Ups g peer datagram (Ok (passed.Forward bytes (Some exchange))) → exchange.number ≡ g.exchanges.next }
    ensures next { (g : GatewayValue) (datagram bytes : List ℕ) (exchange : Exchange)
        → (after g datagram (Ok (passed.Forward bytes (Some exchange)))).exchanges.next ≡ g.exchanges.next + 1 }
{}
