//! A client that ends by itself.

ghost use Rattle.ask_agent.specs.Asking.{step};
ghost use Rattle.ask_agent.specs.Protecting.{is_over};
ghost use Rattle.ask_agent.specs.Unmoved.{step_ends, step_fails};

use crate::asker::Asker;
use dots_host::{Agent, Got, Wire};
use std::marker::Model;

/// The same client, which is over when all its asks were reached and no request waits for its answer.
#[derive(Drop)]
pub struct UntilAnswered {
    pub asker: Asker,
}

impl Model for UntilAnswered {
    ghost use Rattle.ask_agent.specs.Asking.{AskState};

    ghost Value = { AskState };

    ghost view = { λ client. client.asker };
}

impl<W: Wire> Agent<W> for UntilAnswered {
    ghost step = { step };

    ghost over = { is_over };

    fn is_over(&self) -> bool {
        self.asker.is_over()
    }

    fn turn(&mut self, wire: &mut W, got: &Got, room: &[u8]) {
        self.asker.turn(wire, got, room)
    }

    ghost ends = { step_ends };

    ghost fails = { step_fails };
}
