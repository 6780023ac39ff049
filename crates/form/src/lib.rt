// The settled form of a message: octets that depend on its meaning and on nothing else.
#![tactic(auto)]

mod builtin;
pub mod family;
pub mod item;

ghost use Rattle.std.specs.Prelude.{◌≡◌, length};
ghost use Rattle.bcd.specs.Outcome.{mapped, delivered, deliver};
ghost use Rattle.bcd.specs.Answers.{outcome_of};
ghost use Rattle.bcd.specs.Digits.{built_in};
ghost use Rattle.form.specs.Form.{is_address, is_hop_counter, settled};

use crate::builtin::Sua;
use crate::family::{settle_in, settled_length_in};
use bcd::error::Refusal;
use parameter::tags;

// Whether a parameter is a source or a destination address.
pub fn is_address(tag: u16) -> bool
    ensures { result ≡ is_address tag }
{
    matches!(tag, tags::SOURCE_ADDRESS | tags::DESTINATION_ADDRESS)
}

// Whether a parameter is a hop counter, which no form has.
fn is_hop_counter(tag: u16) -> bool
    ensures { result ≡ is_hop_counter tag }
{
    tag == tags::SS7_HOP_COUNTER
}

// The length of a message's form, with the refusals of settling except 14.
pub fn settled_length(input: &[u8]) -> Result<usize, Refusal>
    ensures { outcome_of result ≡ mapped length (settled built_in input.now) }
{
    settled_length_in(&Sua, input)
}

// Writes the form of a message. Reading's refusals, then each address's, 9, 10 in wire order, then 14.
pub fn settle(input: &[u8], out: &mut [u8]) -> Result<usize, Refusal>
    ensures { delivered (outcome_of result) out.new
        ≡ deliver (settled built_in input.now) out.old }
{
    settle_in(&Sua, input, out)
}
