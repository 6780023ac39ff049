// The rows of a tally: whether they can gain a message, and what they gain.
ghost use Rattle.std.specs.Prelude.{◌≡◌, ◌≤◌, ltb, sum};
ghost use Rattle.tally.specs.Rows.{rows, most_messages, within, valid_rows, gained};
ghost use Rattle.tally.specs.Steps.Room.{HasRoom};

use crate::place::Gain;

// Whether the rows hold under 4,294,967,295 messages together.
fn few(messages: &[u64]) -> bool
    ensures { result ≡ ltb (sum messages.now) most_messages }
{
    messages.iter().fold(0u64, |sum, &m| sum.saturating_add(m)) < 4294967295
}

// Whether no row holds over 65,531 octets for each of its messages.
fn proportionate(messages: &[u64], octets: &[u64]) -> bool
    ensures { result ≡ within messages.now octets.now }
{
    messages
        .iter()
        .zip(octets)
        .all(|(&m, &o)| o <= m.saturating_mul(65531))
}

// Whether rows for so many members can gain a message.
#[tactic(auto, unfolding(crate::specs::Rows::valid_rows))]
pub(crate) fn valid(members: usize, messages: &[u64], octets: &[u64]) -> bool
    requires { members ≤ 64 }
    ensures { result ≡ valid_rows members (rows messages.now octets.now) }
{
    let n = members + 2;
    messages.len() == n && octets.len() == n && few(messages) && proportionate(messages, octets)
}

// Adds what a message adds to its row.
pub(crate) fn gain(gain: Gain, messages: &mut [u64], octets: &mut [u64])
    requires { HasRoom gain (rows messages.old octets.old) }
    ensures { rows messages.new octets.new ≡ gained gain (rows messages.old octets.old) }
{
    messages[gain.row] += 1;
    octets[gain.row] += gain.octets as u64;
}
