// The first parameter with a tag, read: what the accessors of a message are made of (message.rs; RFC 3868, 3.9 and 3.10).
// 15 first, if any record meets it.
#![tactic(auto)]

pub mod contexts;
mod pass;
pub mod screen;

ghost use Rattle.std.specs.Prelude.{◌≡◌, map, ℕ, ◌+◌, ◌^◌, ◌≤◌, ◌<◌, length, take};
ghost use Rattle.bcd.specs.Outcome.{accepted, All};
ghost use Rattle.bcd.specs.Answers.{outcome_of};
ghost use Rattle.parameter.specs.Parameter.{four_in};
ghost use Rattle.parameter.specs.Table.{over, find_param};
ghost use Rattle.address.specs.Listing.{listed};
ghost use Rattle.lookup.specs.Accessors.{of_four, read_at, first_read, fourth, cause_in, moved, address_found};

use address::SuaAddress;
use bcd::error::Refusal;
use parameter::Place;
use parameter::table::Records;

// The type and the value of an SCCP cause.
#[derive(Clone, Copy, Debug, PartialEq, Eq)]
pub struct SccpCause {
    pub cause_type: u8,
    pub cause_value: u8,
}

// The first four octets of the value that was found; none where it has fewer.
fn four_at(values: &[u8], found: Option<Place>) -> Option<[u8; 4]>
    ensures { result ≡ read_at (of_four (take 4)) values.now found }
{
    found?.value(values).first_chunk().copied()
}

// The same four octets as a number.
#[tactic(auto, unfolding(parameter::specs::Parameter::two_at))]
fn number_at(values: &[u8], found: Option<Place>) -> Option<u32>
    ensures { result ≡ read_at (of_four four_in) values.now found }
{
    let four = four_at(values, found)?;
    Some(u32::from_be_bytes(four))
}

// The last of them.
fn octet_at(values: &[u8], found: Option<Place>) -> Option<u8>
    ensures { result ≡ read_at (of_four fourth) values.now found }
{
    let four = four_at(values, found)?;
    Some(four[3])
}

// The last two of them.
fn cause_at(values: &[u8], found: Option<Place>) -> Option<SccpCause>
    ensures { result ≡ read_at (of_four cause_in) values.now found }
{
    let [_, _, cause_type, cause_value] = four_at(values, found)?;
    Some(SccpCause {
        cause_type,
        cause_value,
    })
}

// The first four octets of the first parameter with a tag, as a number. 15.
#[tactic(auto, unfolding(crate::specs::Accessors::first_read))]
pub fn first_number(lent: Records<'_, '_>, count: usize, tag: u16) -> Result<Option<u32>, Refusal>
    ensures { outcome_of result ≡ first_read (of_four four_in) tag lent.entry.values.now lent.entry.rows.now count }
{
    Ok(number_at(lent.values, lent.find_parameter(count, tag)?))
}

// Their last octet. 15.
#[tactic(auto, unfolding(crate::specs::Accessors::first_read))]
pub fn first_octet(lent: Records<'_, '_>, count: usize, tag: u16) -> Result<Option<u8>, Refusal>
    ensures { outcome_of result ≡ first_read (of_four fourth) tag lent.entry.values.now lent.entry.rows.now count }
{
    Ok(octet_at(lent.values, lent.find_parameter(count, tag)?))
}

// Their last two octets. 15.
#[tactic(auto, unfolding(crate::specs::Accessors::first_read))]
pub fn first_cause(
    lent: Records<'_, '_>,
    count: usize,
    tag: u16,
) -> Result<Option<SccpCause>, Refusal>
    ensures { outcome_of result ≡ first_read (of_four cause_in) tag lent.entry.values.now lent.entry.rows.now count }
{
    Ok(cause_at(lent.values, lent.find_parameter(count, tag)?))
}

// Counts the starts from a base.
fn move_starts(base: usize, rows: &mut [Place])
    requires { All (λ (row : Place). base + row.start < 2 ^ 64) rows.old }
    ensures { rows.new ≡ map (moved base) rows.old }
{
    for row in rows.iter_mut() {
        row.start += base;
    }
}

// Reads the value that was found as an address. 7, then the address's.
#[tactic(auto, unfolding(crate::specs::Accessors::address_found))]
fn address_at(
    values: &[u8],
    found: Option<Place>,
    tag: u16,
    others: &mut [Place],
) -> Result<SuaAddress, Refusal>
    ensures { listed (outcome_of result) others.new ≡ address_found tag values.now (accepted found) others.old }
{
    let Some(place) = found else {
        return Err(Refusal::MissingParameter(tag));
    };
    let address = SuaAddress::decode(place.value(values), others)?;
    move_starts(place.start, &mut others[..address.other_count]);
    Ok(address)
}

// Reads the first parameter with a tag as an address. 15, 7, then the address's.
#[tactic(auto, unfolding(crate::specs::Accessors::address_found))]
pub fn first_address(
    lent: Records<'_, '_>,
    count: usize,
    tag: u16,
    others: &mut [Place],
) -> Result<SuaAddress, Refusal>
    ensures { listed (outcome_of result) others.new ≡ address_found tag lent.entry.values.now
        (find_param lent.entry.values.now lent.entry.rows.now count tag) others.old }
{
    let found = lent.find_parameter(count, tag)?;
    address_at(lent.values, found, tag, others)
}
