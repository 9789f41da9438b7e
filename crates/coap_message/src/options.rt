use crate::option::OptionRow;
use crate::option_reading::read_option;
use std::marker::Model;

/// The options of a message in their order, seen as the list of those that are left.
#[derive(Drop)]
pub struct Options<'a> {
    pub(crate) previous: u16,
    pub(crate) rest: &'a [u8],
}

impl<'a> Model for Options<'a> {
    ghost use Rattle.std.specs.Prelude.{ℕ, List};
    ghost use Rattle.coap_message.specs.Message.{CoapOption};
    ghost use Rattle.coap_message.specs.MessageReading.{options_in};

    ghost Value = { List CoapOption };

    ghost view = { λ options. options_in options.previous options.rest.now };
}

impl<'a> Iterator for Options<'a> {
    type Item = OptionRow<'a>;

    ghost use Rattle.std.specs.Iterator.{YieldsFirstBy, item_count};
    ghost use Rattle.coap_message.specs.CodeValues.{option_value};

    ghost next_gives = { YieldsFirstBy option_value (λ options. options) };

    ghost remaining = { item_count (λ options. options) };

    #[tactic(auto, using(crate::proofs::OptionList::options_none, crate::proofs::OptionList::options_step))]
    fn next(&mut self) -> Option<OptionRow<'a>> {
        let Ok((row, rest)) = read_option(self.rest.len(), self.previous, self.rest) else {
            return None;
        };
        self.previous = row.number;
        self.rest = rest;
        Some(row)
    }
}
