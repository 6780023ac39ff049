// The parameters of a message by name (message.rs; RFC 3868, 3.9 and 3.10). 15 first, if any record meets it.
ghost use Rattle.std.specs.Prelude.{◌≡◌};
ghost use Rattle.bcd.specs.Outcome.{delivered};
ghost use Rattle.bcd.specs.Answers.{outcome_of};
ghost use Rattle.address.specs.Listing.{listed};
ghost use Rattle.pieces.specs.PointCodes.{store_codes};
ghost use Rattle.message.specs.Accessors.{routing_context, protocol_class, sequence_control, ss7_hop_count, sccp_cause};
ghost use Rattle.message.specs.Accessors.{data_at, data_part, affected_point_codes};
ghost use Rattle.message.specs.Accessors.{source_address, destination_address};
ghost use Rattle.message.specs.Accessors.{handling, screen_of, contexts_in};

use crate::SuaMessage;
use address::SuaAddress;
use bcd::error::Refusal;
pub use lookup::SccpCause;
pub use lookup::screen::Screen;
use lookup::screen::handling_fields;
use lookup::{first_address, first_cause, first_number, first_octet};
use parameter::Place;
use parameter::table::Records;
use parameter::tags::{
    AFFECTED_POINT_CODE, DATA, DESTINATION_ADDRESS, PROTOCOL_CLASS, ROUTING_CONTEXT, SCCP_CAUSE,
    SEQUENCE_CONTROL, SOURCE_ADDRESS, SS7_HOP_COUNTER,
};
use pieces::point_codes::list_codes;

impl SuaMessage {
    // The routing context. 15.
    pub fn routing_context(self, lent: Records<'_, '_>) -> Result<Option<u32>, Refusal>
        ensures { outcome_of result ≡ routing_context lent.entry.values.now lent.entry.rows.now self.count }
    {
        first_number(lent, self.count, ROUTING_CONTEXT)
    }

    // Whether every routing context that the first such parameter lists is in a set, whose numbers may stand in any order. No
    // where there is no such parameter, or its value is no positive multiple of four octets. 15.
    pub fn contexts_in(self, lent: Records<'_, '_>, set: &[u32]) -> Result<bool, Refusal>
        ensures { outcome_of result ≡ contexts_in lent.entry.values.now lent.entry.rows.now self.count set.now }
    {
        lookup::contexts::contexts_in(lent, self.count, set)
    }

    // The protocol class. 15.
    pub fn protocol_class(self, lent: Records<'_, '_>) -> Result<Option<u8>, Refusal>
        ensures { outcome_of result ≡ protocol_class lent.entry.values.now lent.entry.rows.now self.count }
    {
        first_octet(lent, self.count, PROTOCOL_CLASS)
    }

    // The sequence control. 15.
    pub fn sequence_control(self, lent: Records<'_, '_>) -> Result<Option<u32>, Refusal>
        ensures { outcome_of result ≡ sequence_control lent.entry.values.now lent.entry.rows.now self.count }
    {
        first_number(lent, self.count, SEQUENCE_CONTROL)
    }

    // The SS7 hop counter. 15.
    pub fn ss7_hop_count(self, lent: Records<'_, '_>) -> Result<Option<u8>, Refusal>
        ensures { outcome_of result ≡ ss7_hop_count lent.entry.values.now lent.entry.rows.now self.count }
    {
        first_octet(lent, self.count, SS7_HOP_COUNTER)
    }

    // The type and the value of the SCCP cause. 15.
    pub fn sccp_cause(self, lent: Records<'_, '_>) -> Result<Option<SccpCause>, Refusal>
        ensures { outcome_of result ≡ sccp_cause lent.entry.values.now lent.entry.rows.now self.count }
    {
        first_cause(lent, self.count, SCCP_CAUSE)
    }

    // Where the data stand. 15.
    pub fn data(self, lent: Records<'_, '_>) -> Result<Option<Place>, Refusal>
        ensures { outcome_of result ≡ data_at lent.entry.values.now lent.entry.rows.now self.count }
    {
        lent.find_parameter(self.count, DATA)
    }

    // The data, which live as long as the octets, whatever becomes of the rows; no octets where there are none, or where a record
    // meets 15.
    pub fn data_part<'v>(self, lent: Records<'v, '_>) -> &'v [u8]
        ensures { result.now ≡ data_part lent.entry.values.now lent.entry.rows.now self.count }
    {
        match self.data(lent) {
            Ok(Some(place)) => place.value(lent.values),
            _ => &[],
        }
    }

    // Stores the affected point codes in a lent table; where there is no such parameter, none. 15, 13.
    pub fn affected_point_codes(
        self,
        lent: Records<'_, '_>,
        out: &mut [u32],
    ) -> Result<usize, Refusal>
        ensures { delivered (outcome_of result) out.new
            ≡ store_codes (affected_point_codes lent.entry.values.now lent.entry.rows.now self.count) out.old }
    {
        match lent.find_parameter(self.count, AFFECTED_POINT_CODE)? {
            Some(place) => list_codes(place.value(lent.values), out),
            None => Ok(0),
        }
    }

    // Reads the source address; its others are stored at their places in the values. 15, 7, then the address's, then 13.
    pub fn source_address(
        self,
        lent: Records<'_, '_>,
        others: &mut [Place],
    ) -> Result<SuaAddress, Refusal>
        ensures { listed (outcome_of result) others.new
            ≡ source_address lent.entry.values.now lent.entry.rows.now self.count others.old }
    {
        first_address(lent, self.count, SOURCE_ADDRESS, others)
    }

    // Reads the destination address; its others are stored at their places in the values. 15, 7, then the address's, then 13.
    pub fn destination_address(
        self,
        lent: Records<'_, '_>,
        others: &mut [Place],
    ) -> Result<SuaAddress, Refusal>
        ensures { listed (outcome_of result) others.new
            ≡ destination_address lent.entry.values.now lent.entry.rows.now self.count others.old }
    {
        first_address(lent, self.count, DESTINATION_ADDRESS, others)
    }

    // Reads the seven handling fields in one pass over the records, and each address into a table of its own. 15 in every field;
    // 7 and an address's refusals in that address's alone.
    pub fn screen(
        self,
        lent: Records<'_, '_>,
        source_others: &mut [Place],
        destination_others: &mut [Place],
    ) -> Screen
        ensures { screen_of result source_others.new destination_others.new
            ≡ handling lent.entry.values.now lent.entry.rows.now self.count source_others.old destination_others.old }
    {
        handling_fields(lent, self.count, source_others, destination_others)
    }
}
