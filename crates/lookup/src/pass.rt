// One pass over a list of records: 15, and the first record with each of the seven tags of the handling fields.
ghost use Rattle.std.specs.Prelude.{◌≡◌};
ghost use Rattle.bcd.specs.Answers.{outcome_of};
ghost use Rattle.lookup.specs.Steps.Pass.{wanted, place_among, first_of};

use bcd::error::Refusal;
use parameter::Place;
use parameter::table::Records;
use parameter::tags::{
    DESTINATION_ADDRESS, PROTOCOL_CLASS, ROUTING_CONTEXT, SCCP_CAUSE, SEQUENCE_CONTROL,
    SOURCE_ADDRESS, SS7_HOP_COUNTER,
};

// Bit n is set where one of the seven tags is n modulo 32.
const SIEVE: u32 = 0x60004E;

// The place of a tag among the seven. The sieve tells most others by one test.
fn place_of(tag: u16) -> Option<usize>
    ensures { result ≡ place_among wanted tag }
{
    if (SIEVE >> (tag % 32)) % 2 == 0 {
        return None;
    }
    match tag {
        ROUTING_CONTEXT => Some(0),
        PROTOCOL_CLASS => Some(1),
        SEQUENCE_CONTROL => Some(2),
        SS7_HOP_COUNTER => Some(3),
        SCCP_CAUSE => Some(4),
        SOURCE_ADDRESS => Some(5),
        DESTINATION_ADDRESS => Some(6),
        _ => None,
    }
}

// The first record with each of the seven tags. 15. The pass goes from the last record to the first, so that an earlier one
// takes the place of a later one.
pub(crate) fn first_of(lent: Records<'_, '_>, count: usize) -> Result<[Option<Place>; 7], Refusal>
    ensures { outcome_of result ≡ first_of wanted lent.entry.values.now lent.entry.rows.now count }
{
    let n = lent.values.len();
    let Some(rows) = lent.rows.get(..count) else {
        return Err(Refusal::OutsideSlice);
    };
    let mut first = [None; 7];
    for &row in rows.iter().rev() {
        if !row.ends_within(n) {
            return Err(Refusal::OutsideSlice);
        }
        if let Some(place) = place_of(row.tag) {
            first[place] = Some(row);
        }
    }
    Ok(first)
}
