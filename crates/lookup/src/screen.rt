// All handling fields of a message from one pass over its records.
ghost use Rattle.std.specs.Prelude.{◌≡◌};
ghost use Rattle.lookup.specs.Screen.{handling, screen_of};
ghost use Rattle.lookup.specs.Steps.Pass.{refused_screen};

use crate::pass::first_of;
use crate::{SccpCause, address_at, cause_at, number_at, octet_at};
use address::SuaAddress;
use bcd::error::Refusal;
use parameter::Place;
use parameter::table::Records;
use parameter::tags::{DESTINATION_ADDRESS, SOURCE_ADDRESS};

// The handling fields, each what its own accessor answers.
#[derive(Clone, Copy, Debug, PartialEq, Eq)]
pub struct Screen {
    pub routing_context: Result<Option<u32>, Refusal>,
    pub protocol_class: Result<Option<u8>, Refusal>,
    pub sequence_control: Result<Option<u32>, Refusal>,
    pub ss7_hop_count: Result<Option<u8>, Refusal>,
    pub sccp_cause: Result<Option<SccpCause>, Refusal>,
    pub source_address: Result<SuaAddress, Refusal>,
    pub destination_address: Result<SuaAddress, Refusal>,
}

// One refusal in every field.
fn refused(r: Refusal) -> Screen
    ensures { result ≡ refused_screen r }
{
    Screen {
        routing_context: Err(r),
        protocol_class: Err(r),
        sequence_control: Err(r),
        ss7_hop_count: Err(r),
        sccp_cause: Err(r),
        source_address: Err(r),
        destination_address: Err(r),
    }
}

// Reads all handling fields, and each address into a table of its own. 15 in every field; 7 and an address's refusals in
// that address's alone.
pub fn handling_fields(
    lent: Records<'_, '_>,
    count: usize,
    source_others: &mut [Place],
    destination_others: &mut [Place],
) -> Screen
    ensures { screen_of result source_others.new destination_others.new
        ≡ handling lent.entry.values.now lent.entry.rows.now count source_others.old destination_others.old }
{
    let first = match first_of(lent, count) {
        Ok(first) => first,
        Err(r) => return refused(r),
    };
    let values = lent.values;
    let [context, class, control, hops, cause, source, destination] = first;
    Screen {
        routing_context: Ok(number_at(values, context)),
        protocol_class: Ok(octet_at(values, class)),
        sequence_control: Ok(number_at(values, control)),
        ss7_hop_count: Ok(octet_at(values, hops)),
        sccp_cause: Ok(cause_at(values, cause)),
        source_address: address_at(values, source, SOURCE_ADDRESS, source_others),
        destination_address: address_at(
            values,
            destination,
            DESTINATION_ADDRESS,
            destination_others,
        ),
    }
}
