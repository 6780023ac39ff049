// The account of an M3UA message's parameters: places, and Protocol Data by its fields.
ghost use Rattle.std.specs.Prelude.{◌≡◌, ◌++◌, ◌+◌, ◌≤◌};
ghost use lib.ListN.{length};
ghost use Rattle.bcd.specs.Outcome.{most};
ghost use Rattle.bcd.specs.Answers.{outcome_of};
ghost use Rattle.m3ua.specs.Fields.{fields};
ghost use Rattle.flat.specs.Account.{data_fields, data_account};
ghost use Rattle.flat.specs.Steps.Emitting.{Writes};

use crate::account::Accounts;
use crate::writer::Writer;
use bcd::error::Refusal;
use m3ua::is_protocol_data;
use m3ua::protocol_data::{HEAD_SIZE, ProtocolData};
use m3ua::types::MessageType;
use parameter::Place;

impl<'a> Writer<'a> {
    // Stores the fields of Protocol Data whose value starts at a position of the message: the point codes, how it is handled, and
    // where the user's data starts and how long it is.
    fn data(&mut self, it: ProtocolData<'_>, base: usize)
        requires { base + length it.payload.now ≤ most }
        ensures { Writes self.old (data_fields base (fields it.entry)) self.new }
    {
        self.put(&it.originating.to_be_bytes());
        self.put(&it.destination.to_be_bytes());
        self.put(&[
            it.service_indicator,
            it.network_indicator,
            it.priority,
            it.selection,
        ]);
        self.put(&((base + HEAD_SIZE) as u32).to_be_bytes());
        self.put(&(it.payload.len() as u32).to_be_bytes());
    }
}

// M3UA's accounts.
#[derive(Clone, Copy)]
pub(crate) struct M3ua;

impl Accounts for M3ua {
    type Kind = MessageType;

    ghost told = { data_account };

    fn param(account: &mut Writer<'_>, input: &[u8], place: Place) -> Result<(), Refusal> {
        account.place(place);
        if is_protocol_data(place.tag) {
            account.data(ProtocolData::decode(place.value(input))?, place.start);
        }
        Ok(())
    }
}
