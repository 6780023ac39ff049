// An address value read and written again, straight from its octets: what the settled form needs. One walk interprets
// the value, a second one writes the other sub-parameters.
ghost use Rattle.std.specs.Prelude.{◌≡◌, ◌∷◌, [], ◌++◌, map, ◌+◌, ◌%◌, ◌≤◌, ◌<◌, length, get_or, set, drop};
ghost use Rattle.bcd.specs.Outcome.{accepted, after, mapped, each, delivered, deliver};
ghost use Rattle.bcd.specs.Answers.{outcome_of};
ghost use Rattle.bcd.specs.Digits.{built_in};
ghost use Rattle.parameter.specs.Parameter.{run_octets, most_value};
ghost use Rattle.parameter.specs.Walk.{valued};
ghost use Rattle.address.specs.Address.{title_at, title, present, sub_param, read_address, write_address};
ghost use Rattle.address.specs.Parts.{kept_title};
ghost use Rattle.address.specs.Again.{with_unknown, parameter_again};
ghost use Rattle.address.specs.Listing.{is_other, other_places};
ghost use Rattle.address.specs.Steps.Plan.{Plan, head_octets, others_octets};

use crate::encode::{ssn_octets, write_four};
use crate::interpret::{Digits, Interpreted, TitleValue, interpret};
use bcd::error::Refusal;
use parameter::{Parameters, Place, tags};

// How many octets an address value has when it is read and written again. Reading's refusals, then 9, then 10.
pub fn rewritten_length(tag: u16, value: &[u8]) -> Result<usize, Refusal>
    ensures { outcome_of result
        ≡ mapped length (after (read_address built_in value.now) (write_address built_in tag)) }
{
    interpret(value)?.measure(Digits::Checked, tag)
}

impl<'a> TitleValue<'a> {
    // Writes it as one parameter: its octets as they are, but for the reserved ones, the count of the digits that are there, and
    // an odd last high half. 14.
    fn put(self, out: &mut [u8]) -> Result<usize, Refusal>
        ensures { delivered (outcome_of result) out.new
            ≡ deliver (mapped run_octets (sub_param with_unknown (title (title_at built_in self.entry.octets.now)))) out.old }
    {
        let digits = self.digit_count();
        let octets = digits.div_ceil(2);
        let length = parameter::encode(tags::GLOBAL_TITLE, &self.octets[..8 + octets], out)?;
        out[4..7].fill(0);
        out[8] = digits as u8;
        if digits % 2 == 1 {
            out[11 + octets] %= 16;
        }
        Ok(length)
    }
}

// Whether a sub-parameter is no title, point code or SSN.
pub fn is_other(tag: u16) -> bool
    ensures { result ≡ is_other tag }
{
    !matches!(
        tag,
        tags::GLOBAL_TITLE | tags::POINT_CODE | tags::SUBSYSTEM_NUMBER
    )
}

// Writes a sub-parameter of the walk, if it is another one. 14.
fn write_other(value: &[u8], place: Place, out: &mut [u8]) -> Result<usize, Refusal>
    requires { place.length ≤ most_value }
    ensures { delivered (outcome_of result) out.new
        ≡ deliver (accepted (run_octets (map (valued value.now) (other_places (place ∷ []))))) out.old }
{
    if !is_other(place.tag) {
        return Ok(0);
    }
    parameter::encode(place.tag, place.value(value), out)
}

impl<'a> Interpreted<'a> {
    // Writes the routing indicator, and the three bits of the address indicator.
    fn write_head(&self, out: &mut [u8])
        requires { 4 ≤ length out.old }
        ensures { out.new ≡ head_octets self.now.value.now ++ drop 4 out.old }
    {
        let value = self.value;
        out[..4].copy_from_slice(&[value[0], value[1], 0, value[3] % 8]);
    }

    // Writes the title, if there is one. 14.
    fn write_title(&self, out: &mut [u8]) -> Result<usize, Refusal>
        ensures { delivered (outcome_of result) out.new
            ≡ deliver
            (mapped run_octets (each (sub_param with_unknown) (present title (kept_title built_in self.now.value.now self.now.parts.title))))
            out.old }
    {
        match self.title() {
            None => Ok(0),
            Some(title) => title.put(out),
        }
    }

    // Writes the other sub-parameters, in order, by a second walk.
    fn write_others(&self, out: &mut [u8]) -> Result<usize, Refusal>
        requires { self.now.parts.other_length ≤ length out.old }
        ensures { delivered (outcome_of result) out.new ≡ deliver (accepted (others_octets self.now.value.now)) out.old }
    {
        let mut at = 0;
        for place in Parameters::new(self.value, 4) {
            at += write_other(self.value, place?, &mut out[at..])?;
        }
        Ok(at)
    }

    // Writes it, as it was planned.
    fn write(&self, total: usize, out: &mut [u8]) -> Result<usize, Refusal>
        requires plan { Plan with_unknown self.now.value.now self.now.parts total }
        requires total_in_bounds { total ≤ length out.old }
        ensures { delivered (outcome_of result) out.new
            ≡ deliver (after (read_address built_in self.now.value.now) (write_address with_unknown 0)) out.old }
    {
        self.write_head(out);
        let a = 4 + self.write_title(&mut out[4..])?;
        let b = a + write_four(tags::POINT_CODE, self.code(), &mut out[a..])?;
        let ssn = ssn_octets(self.ssn());
        let c = b + write_four(tags::SUBSYSTEM_NUMBER, ssn, &mut out[b..])?;
        if 0 < self.parts.other_count {
            self.write_others(&mut out[c..])?;
        }
        Ok(total)
    }
}

// Reads an address value and writes it again. Reading's refusals, then 9, then 10, then 14.
pub fn rewrite(tag: u16, value: &[u8], out: &mut [u8]) -> Result<usize, Refusal>
    ensures { delivered (outcome_of result) out.new
        ≡ deliver (after (read_address built_in value.now) (write_address built_in tag)) out.old }
{
    let address = interpret(value)?;
    let total = address.measure(Digits::Checked, tag)?;
    if out.len() < total {
        return Err(Refusal::OutputTooSmall(total));
    }
    address.write(total, out)
}

// Reads an address value and writes it again, as a parameter. Its digits are not checked again: a `?` is written as it was read,
// and not refused as 9. Reading's refusals, then 10, then 14.
pub fn rewrite_parameter(tag: u16, value: &[u8], out: &mut [u8]) -> Result<usize, Refusal>
    ensures { delivered (outcome_of result) out.new ≡ deliver (parameter_again tag value.now) out.old }
{
    let address = interpret(value)?;
    let length = address.measure(Digits::Unchecked, tag)?;
    let total = parameter::wire_length(tag, length)?;
    if out.len() < total {
        return Err(Refusal::OutputTooSmall(total));
    }
    address.write(length, &mut out[4..])?;
    parameter::frame(tag, length, out)
}
