// Several routing contexts together: whether each that the first such parameter lists is in a set (RFC 3868, 3.9).
ghost use Rattle.std.specs.Prelude.{◌≡◌};
ghost use Rattle.bcd.specs.Outcome.{among};
ghost use Rattle.bcd.specs.Answers.{outcome_of};
ghost use Rattle.lookup.specs.Contexts.{all_in_set, contexts_in};

use bcd::error::Refusal;
use parameter::table::Records;
use parameter::tags::ROUTING_CONTEXT;

// Whether a number is in a set. All of it is looked at, so that the loop has no branch.
fn in_set(set: &[u32], number: u32) -> bool
    ensures { result ≡ among number set.now }
{
    set.iter().fold(false, |found, &n| found | (n == number))
}

// Whether a value is a positive multiple of four octets, and each routing context that it lists is in a set.
fn all_in_set(value: &[u8], set: &[u32]) -> bool
    ensures { result ≡ all_in_set set.now value.now }
{
    let (groups, rest) = value.as_chunks::<4>();
    if value.is_empty() || !rest.is_empty() {
        return false;
    }
    groups
        .iter()
        .all(|&four| in_set(set, u32::from_be_bytes(four)))
}

// Whether each routing context that the first such parameter lists is in a set. No where there is none, or its value is no
// positive multiple of four octets. 15.
#[tactic(auto, unfolding(crate::specs::Contexts::contexts_in))]
pub fn contexts_in(lent: Records<'_, '_>, count: usize, set: &[u32]) -> Result<bool, Refusal>
    ensures { outcome_of result ≡ contexts_in lent.entry.values.now lent.entry.rows.now count set.now }
{
    match lent.find_parameter(count, ROUTING_CONTEXT)? {
        None => Ok(false),
        Some(place) => Ok(all_in_set(place.value(lent.values), set)),
    }
}
