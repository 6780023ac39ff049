// The day tally by member: each message adds itself and its data's octets to one row (document 02, CR 1).
#![tactic(auto)]

pub mod list;
pub mod members;
pub mod place;
pub mod rows;

ghost use Rattle.std.specs.Prelude.{◌≡◌};
ghost use Rattle.bcd.specs.Answers.{outcome_of};
ghost use Rattle.tally.specs.Rows.{rows};
ghost use Rattle.tally.specs.Tally.{tally, tallied};

use bcd::error::Refusal;
use members::Members;

// Tallies one message under a member list, and answers the row that gained. 16, before the message is read.
pub fn tally(
    digits: &[u8],
    lengths: &[u8],
    input: &[u8],
    messages: &mut [u64],
    octets: &mut [u64],
) -> Result<usize, Refusal>
    ensures { tallied (outcome_of result) (rows messages.new octets.new)
        ≡ tally digits.now lengths.now input.now
        (rows messages.old octets.old) }
{
    if !list::valid_lengths(lengths, digits.len()) || !list::decimal(digits) {
        return Err(Refusal::InvalidTally);
    }
    let numbers = list::numbers(digits, lengths);
    if !list::distinct(&numbers[..lengths.len()]) || !rows::valid(lengths.len(), messages, octets) {
        return Err(Refusal::InvalidTally);
    }
    let gain = Members::new(digits, lengths, &numbers).place(input);
    rows::gain(gain, messages, octets);
    Ok(gain.row)
}
