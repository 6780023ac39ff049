// Messages, read and written (message.rs; RFC 3868, 3.1).
#![tactic(auto)]

pub mod accessors;
pub mod constructors;
pub mod header;
pub mod kinds;
pub mod types;

ghost use Rattle.std.specs.Prelude.{◌≡◌};
ghost use Rattle.bcd.specs.Outcome.{after, delivered, deliver};
ghost use Rattle.bcd.specs.Answers.{outcome_of};
ghost use Rattle.parameter.specs.Table.{records};
ghost use Rattle.message.specs.Message.{message, write_message};
ghost use Rattle.message.specs.Listing.{listed, list_message};

use bcd::error::Refusal;
use parameter::Place;
use parameter::table::Records;
pub use pieces::point_codes::{pack_affected_point_codes, unpack_affected_point_codes};
use types::MessageType;

// A message's type and the number of its parameters: the first records of a lent table.
#[derive(Clone, Copy, Debug, PartialEq, Eq)]
pub struct SuaMessage {
    pub message_type: MessageType,
    pub count: usize,
}

impl SuaMessage {
    // Reads a message, and stores the places of its parameters, counted from its first octet. 12, 1, 2, 4, then 5 or 6 in
    // wire order, then 13.
    pub fn decode(bytes: &[u8], rows: &mut [Place]) -> Result<SuaMessage, Refusal>
        ensures { listed (outcome_of result) rows.new ≡ list_message bytes.now rows.old }
    {
        let (message_type, count) = kinds::read_into(bytes, rows)?;
        Ok(SuaMessage {
            message_type,
            count,
        })
    }

    // Writes the message of a type and a list of records over a lent slice of values. 15, 10 in order, 12, 14.
    pub fn encode(self, lent: Records<'_, '_>, out: &mut [u8]) -> Result<usize, Refusal>
        ensures { delivered (outcome_of result) out.new
            ≡ deliver
            (after
            (records lent.entry.values.now lent.entry.rows.now self.count)
            (λ ps. write_message (message self.message_type ps)))
            out.old }
    {
        kinds::write_from(self.message_type, self.count, lent, out)
    }
}
