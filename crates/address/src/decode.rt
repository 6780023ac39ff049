// An address value read into a record, with its other sub-parameters in a lent table (address.rs; RFC 3868, 3.10.2).
ghost use Rattle.std.specs.Prelude.{◌≡◌, ◌∷◌, [], ◌+◌, ◌≤◌, length, option_map};
ghost use Rattle.bcd.specs.Outcome.{accepted, mapped, most};
ghost use Rattle.bcd.specs.Answers.{outcome_of};
ghost use Rattle.bcd.specs.Digits.{built_in};
ghost use Rattle.parameter.specs.Table.{tabulated, tabulate};
ghost use Rattle.address.specs.Address.{read_address};
ghost use Rattle.address.specs.Absent.{absent_in};
ghost use Rattle.address.specs.Listing.{other_places, address_places, address_record, listed, list_address};
ghost use Rattle.address.specs.Steps.Kept.{kept_record};

use crate::interpret::{Interpreted, interpret};
use crate::rewrite::is_other;
use crate::{GlobalTitle, SuaAddress};
use bcd::error::Refusal;
use parameter::{Parameters, Place};

impl<'a> Interpreted<'a> {
    // The record of the title, if there is one.
    fn title_record(&self) -> Result<Option<GlobalTitle>, Refusal>
        ensures { outcome_of result ≡ accepted (kept_record built_in self.now.value.now self.now.parts.title) }
    {
        let Some(title) = self.title() else {
            return Ok(None);
        };
        Ok(Some(GlobalTitle::decode(title.octets)?))
    }

    // The record. The include bits are those of the address indicator, whether or not their parts are there.
    fn record(&self) -> Result<SuaAddress, Refusal>
        ensures { outcome_of result
            ≡ mapped (address_record (absent_in built_in self.now.value.now)) (read_address built_in self.now.value.now) }
    {
        let bits = self.value[3];
        let include_gt = bits / 4 % 2 == 1;
        let include_pc = bits / 2 % 2 == 1;
        let include_ssn = bits % 2 == 1;
        Ok(SuaAddress {
            routing_indicator: self.routing,
            include_gt,
            include_pc,
            include_ssn,
            global_title: self.title_record()?,
            point_code: self.code().map(u32::from_be_bytes),
            ssn: self.ssn(),
            other_count: self.parts.other_count,
        })
    }

    // Stores the places of the other sub-parameters, for which there is room, by a second walk.
    fn list_others(&self, rows: &mut [Place]) -> Result<usize, Refusal>
        requires { self.now.parts.other_count ≤ length rows.old }
        ensures { tabulated (outcome_of result) rows.new ≡ tabulate (address_places self.now.value.now) rows.old }
    {
        let mut row = 0;
        for place in Parameters::new(self.value, 4) {
            let place = place?;
            if is_other(place.tag) {
                rows[row] = place;
                row += 1;
            }
        }
        Ok(row)
    }
}

impl SuaAddress {
    // Reads an address value; the table gets its other sub-parameters in order, at their places in the value. 12, 1, 8,
    // 5 or 6 of the walk, then each sub-parameter's 1 or 6, then 13.
    pub fn decode(value: &[u8], rows: &mut [Place]) -> Result<SuaAddress, Refusal>
        ensures { listed (outcome_of result) rows.new ≡ list_address value.now rows.old }
    {
        let address = interpret(value)?;
        let needed = address.parts.other_count;
        if rows.len() < needed {
            return Err(Refusal::TableTooSmall(needed));
        }
        address.list_others(rows)?;
        address.record()
    }
}
