// SUA as a family of messages, with the built-in characters.
ghost use Rattle.bcd.specs.Digits.{built_in};
ghost use Rattle.bcd.proofs.Characters.{built_in_lawful};
ghost use Rattle.form.specs.Form.{Part};
ghost use Rattle.form.specs.Laws.{sua, sua_puts, sua_lawful, sua_put_there};

use crate::family::MessageFamily;
use crate::item::Item;
use crate::{is_address, is_hop_counter};
use address::rewrite::{rewrite_parameter, rewritten_length};
use bcd::error::Refusal;
use message::types::MessageType;

#[derive(Clone, Copy)]
pub(crate) struct Sua;

impl MessageFamily for Sua {
    type Kind = MessageType;

    ghost part = { Part };

    ghost family = { λ s. sua built_in };

    ghost puts = { λ s. sua_puts };

    ghost lawful = { λ s. sua_lawful built_in built_in_lawful };

    ghost put_there = { λ s. sua_put_there };

    #[tactic(auto, using(crate::proofs::Taken::param_taken))]
    fn settled_length(&self, item: Item<'_>) -> Result<usize, Refusal> {
        if is_address(item.tag) {
            let n = rewritten_length(item.tag, item.value)?;
            return parameter::wire_length(item.tag, n);
        }
        if is_hop_counter(item.tag) {
            return Ok(0);
        }
        parameter::wire_length(item.tag, item.value.len())
    }

    #[tactic(auto, using(crate::proofs::Taken::param_put))]
    fn put(&self, item: Item<'_>, out: &mut [u8]) -> Result<usize, Refusal> {
        if is_address(item.tag) {
            return rewrite_parameter(item.tag, item.value, out);
        }
        if is_hop_counter(item.tag) {
            return Ok(0);
        }
        parameter::encode(item.tag, item.value, out)
    }
}
