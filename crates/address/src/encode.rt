// Addresses written from their records (address.rs; RFC 3868, 3.10.2).
ghost use Rattle.std.specs.Prelude.{◌≡◌, ◌++◌, ◌≤◌, length, drop, option_map, Some};
ghost use Rattle.bcd.specs.Outcome.{accepted, mapped, delivered, deliver};
ghost use Rattle.bcd.specs.Answers.{outcome_of};
ghost use Rattle.parameter.specs.Parameter.{four, run_octets, run_length};
ghost use Rattle.address.specs.Given.{encode_address_as, encode_address};
ghost use Rattle.address.specs.Given.{given_param};
ghost use Rattle.address.specs.Steps.GivenParts.{given_title, sub_value, given_head, title_room, title_by, Roomed, length_with, room_for};

use crate::interpret::{Digits, four_length};
use crate::{GlobalTitle, SuaAddress};
use bcd::error::Refusal;
use parameter::table::Records;
use parameter::tags::{GLOBAL_TITLE, POINT_CODE, SUBSYSTEM_NUMBER};

impl GlobalTitle {
    // What it takes on the wire, as a sub-parameter. 11; 9, if its digits are checked.
    fn wire_length(&self, digits: Digits) -> Result<usize, Refusal>
        ensures { outcome_of result ≡ title_by digits (Some self.now) }
    {
        let count = self.count;
        if 255 < count {
            return Err(Refusal::TooManyDigits(count));
        }
        let octets = match digits {
            Digits::Checked => bcd::gt_digits_length(&self.digits[..count])?,
            Digits::Unchecked => count.div_ceil(2),
        };
        Ok((12 + octets).next_multiple_of(4))
    }
}

// What the title takes on the wire, if it is there. 11; 9, if its digits are checked.
fn title_length(digits: Digits, title: &Option<GlobalTitle>) -> Result<usize, Refusal>
    ensures { outcome_of result ≡ title_by digits title.now }
{
    title.as_ref().map_or(Ok(0), |gt| gt.wire_length(digits))
}

// How many octets an address value has. 15; 11; 9, if the digits are checked; 10 for each other; 10 for the whole, with the tag
// given.
fn length_by(
    digits: Digits,
    tag: u16,
    address: &SuaAddress,
    others: Records<'_, '_>,
) -> Result<usize, Refusal>
    ensures { outcome_of result
        ≡ length_with tag (title_by digits address.now.global_title) address.now others.entry.values.now others.entry.rows.now }
{
    if others.outside(address.other_count) {
        return Err(Refusal::OutsideSlice);
    }
    let front = 4 + four_length(&address.point_code) + four_length(&address.ssn);
    let length = front
        .saturating_add(title_length(digits, &address.global_title)?)
        .saturating_add(others.parameters_length(address.other_count)?);
    if 65531 < length {
        return Err(Refusal::ValueTooLong { tag, length });
    }
    Ok(length)
}

// How many octets an address value has. 15, 11, 9, 10 for each other, 10 for the whole, with the tag given.
pub fn encoded_length(
    tag: u16,
    address: &SuaAddress,
    others: Records<'_, '_>,
) -> Result<usize, Refusal>
    ensures { outcome_of result
        ≡ mapped length
        (encode_address_as tag address.now others.entry.values.now others.entry.rows.now) }
{
    length_by(Digits::Checked, tag, address, others)
}

// Writes a sub-parameter of four octets, as a point code or an SSN, if it is there. 14.
pub fn write_four(tag: u16, value: Option<[u8; 4]>, out: &mut [u8]) -> Result<usize, Refusal>
    ensures { delivered (outcome_of result) out.new
        ≡ deliver (accepted (run_octets (given_param tag value))) out.old }
{
    match value {
        None => Ok(0),
        Some(octets) => parameter::encode(tag, &octets, out),
    }
}

// The value of an SSN's sub-parameter: three reserved octets in front of it.
pub(crate) fn ssn_octets(ssn: Option<u8>) -> Option<[u8; 4]>
    ensures { result ≡ option_map sub_value ssn }
{
    let ssn = ssn?;
    Some([0, 0, 0, ssn])
}

impl SuaAddress {
    // The value of the point code's sub-parameter, if it is there.
    fn code_octets(&self) -> Option<[u8; 4]>
        ensures { result ≡ option_map four self.now.point_code }
    {
        let code = self.point_code?;
        Some(code.to_be_bytes())
    }

    // Writes the routing indicator and the address indicator.
    fn write_head(&self, out: &mut [u8])
        requires { 4 ≤ length out.old }
        ensures { out.new ≡ given_head self.now ++ drop 4 out.old }
    {
        let routing = self.routing_indicator.value().to_be_bytes();
        let indicator = self.address_indicator().to_be_bytes();
        out[..4].copy_from_slice(&[routing[0], routing[1], indicator[0], indicator[1]]);
    }

    // Writes the title, if it is there: its value in place, and tag, length and padding round it. 9.
    fn write_title(&self, out: &mut [u8]) -> Result<usize, Refusal>
        requires { Roomed (title_room self.now.global_title) out.old }
        ensures { delivered (outcome_of result) out.new
            ≡ deliver (mapped run_octets (given_title self.now.global_title)) out.old }
    {
        let Some(gt) = &self.global_title else {
            return Ok(0);
        };
        let length = gt.encode(&mut out[4..])?;
        parameter::frame(GLOBAL_TITLE, length, out)
    }

    // Writes an address value, which has `total` octets if its digits can be written. The title goes first: nothing is written
    // before 9.
    fn write(
        &self,
        tag: u16,
        others: Records<'_, '_>,
        total: usize,
        out: &mut [u8],
    ) -> Result<usize, Refusal>
        requires total_value { accepted total ≡ room_for tag self.now others.values.now others.rows.now }
        requires total_in_bounds { total ≤ length out.old }
        ensures { delivered (outcome_of result) out.new
            ≡ deliver
            (encode_address_as tag self.now others.entry.values.now others.entry.rows.now)
            out.old }
    {
        let a = 4 + self.write_title(&mut out[4..])?;
        self.write_head(out);
        let b = a + write_four(POINT_CODE, self.code_octets(), &mut out[a..])?;
        let c = b + write_four(SUBSYSTEM_NUMBER, ssn_octets(self.ssn), &mut out[b..])?;
        others.encode_parameters(self.other_count, &mut out[c..])?;
        Ok(total)
    }

    // Writes an address value; its other sub-parameters are records over a lent slice of values. 15, 11, 9, 10 for each
    // other, 10 for the whole, with the tag given, 14.
    pub fn encode_as(
        &self,
        tag: u16,
        others: Records<'_, '_>,
        out: &mut [u8],
    ) -> Result<usize, Refusal>
        ensures { delivered (outcome_of result) out.new
            ≡ deliver
            (encode_address_as tag self.now others.entry.values.now others.entry.rows.now)
            out.old }
    {
        // The digits are looked at once, as they are written; where the address is refused for something else, before that,
        // since 9 comes before 10 and 14.
        let Ok(total) = length_by(Digits::Unchecked, tag, self, others) else {
            return encoded_length(tag, self, others);
        };
        if out.len() < total {
            encoded_length(tag, self, others)?;
            return Err(Refusal::OutputTooSmall(total));
        }
        self.write(tag, others, total, out)
    }

    // Writes an address value alone: its tag is 0.
    pub fn encode(&self, others: Records<'_, '_>, out: &mut [u8]) -> Result<usize, Refusal>
        ensures { delivered (outcome_of result) out.new
            ≡ deliver
            (encode_address self.now others.entry.values.now others.entry.rows.now)
            out.old }
    {
        self.encode_as(0, others, out)
    }
}
