// M3UA's messages: read, written and settled (RFC 4666).
#![tactic(auto)]

mod family;
pub mod protocol_data;
pub mod types;

ghost use Rattle.std.specs.Prelude.{◌≡◌, length};
ghost use Rattle.bcd.specs.Outcome.{after, mapped, delivered, deliver};
ghost use Rattle.bcd.specs.Answers.{outcome_of};
ghost use Rattle.parameter.specs.Table.{records};
ghost use Rattle.message.specs.Framed.{message_of};
ghost use Rattle.message.specs.Listing.{listing, list_of};
ghost use Rattle.m3ua.specs.Types.{m3ua_kinds};
ghost use Rattle.m3ua.specs.Form.{is_protocol_data, write_message, settled};

use crate::family::M3ua;
use crate::protocol_data::PROTOCOL_DATA;
use crate::types::MessageType;
use bcd::error::Refusal;
use form::family::{settle_in, settled_length_in};
use message::kinds;
use parameter::Place;
use parameter::table::Records;

// A message's type and the number of its parameters: the first records of a lent table.
#[derive(Clone, Copy, Debug, PartialEq, Eq)]
pub struct M3uaMessage {
    pub message_type: MessageType,
    pub count: usize,
}

impl M3uaMessage {
    ghost use Rattle.m3ua.specs.Fields.{listed_as};

    // Reads a message, and stores the places of its parameters, counted from its first octet. 12, 1, 2, 4, then 5 or 6 in
    // wire order, then 13.
    pub fn decode(bytes: &[u8], rows: &mut [Place]) -> Result<M3uaMessage, Refusal>
        ensures { listing (mapped listed_as (outcome_of result)) rows.new
            ≡ list_of m3ua_kinds bytes.now rows.old }
    {
        let (message_type, count) = kinds::read_into(bytes, rows)?;
        Ok(M3uaMessage {
            message_type,
            count,
        })
    }

    // Writes the message of a type and a list of records over a lent slice of values. 15, 10 in order, 12, 14.
    pub fn encode(self, lent: Records<'_, '_>, out: &mut [u8]) -> Result<usize, Refusal>
        ensures { delivered (outcome_of result) out.new
            ≡ deliver
            (after
            (records lent.entry.values.now lent.entry.rows.now self.count)
            (λ ps. write_message (message_of self.message_type ps)))
            out.old }
    {
        kinds::write_from(self.message_type, self.count, lent, out)
    }
}

// Whether a parameter is Protocol Data.
pub fn is_protocol_data(tag: u16) -> bool
    ensures { result ≡ is_protocol_data tag }
{
    tag == PROTOCOL_DATA
}

// The length of a message's form, with the refusals of settling except 14.
pub fn settled_length(input: &[u8]) -> Result<usize, Refusal>
    ensures { outcome_of result ≡ mapped length (settled input.now) }
{
    settled_length_in(&M3ua, input)
}

// Writes the form of a message. Reading's refusals, then 6 for each Protocol Data in wire order, then 14.
pub fn settle(input: &[u8], out: &mut [u8]) -> Result<usize, Refusal>
    ensures { delivered (outcome_of result) out.new ≡ deliver (settled input.now) out.old }
{
    settle_in(&M3ua, input, out)
}
