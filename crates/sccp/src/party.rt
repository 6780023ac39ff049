// Party addresses of SCCP, read and written (ITU-T Q.713, 3.4).
ghost use Rattle.std.specs.Prelude.{◌≡◌, ◌≤◌, [], length, option_map, unwrap_or, is_some};
ghost use Rattle.bcd.specs.Outcome.{accepted, pick, mapped, bounded, delivered, deliver};
ghost use Rattle.bcd.specs.Answers.{outcome_of};
ghost use Rattle.sccp.specs.Sccp.{digit_count, digits_of, title_in, title_by, sccp_in};
ghost use Rattle.sccp.specs.Sccp.{title_octets, indicator, sccp_octets};
ghost use Rattle.sccp.specs.Steps.{digits_from, title_from, address_from, behind, taken, title_length, party_length};

use crate::common::{Common, Digits, Title};
use bcd::error::{Refusal, within};
use bcd::half_in;

// The octets of a part, if it is there, and those behind it. 18.
fn taken<const N: usize>(there: bool, octets: &[u8]) -> Result<(Option<[u8; N]>, &[u8]), Refusal>
    ensures { mapped behind (outcome_of result) ≡ taken N there octets.now }
{
    if !there {
        return Ok((None, octets));
    }
    let (part, rest) = octets
        .split_first_chunk()
        .ok_or(Refusal::InvalidSccpAddress)?;
    Ok((Some(*part), rest))
}

// How many digits stand in octets, by their encoding scheme (Q.713, 3.4.2.3.4). 18.
fn digit_count(scheme: u8, octets: &[u8]) -> Result<usize, Refusal>
    ensures { outcome_of result ≡ digit_count scheme (length octets.now) }
{
    match scheme {
        1 if !octets.is_empty() => Ok(2 * octets.len() - 1),
        2 => Ok(2 * octets.len()),
        _ => Err(Refusal::InvalidSccpAddress),
    }
}

// The digits, by their encoding scheme: at most 255, and a half octet of 0 behind an odd number of them (Q.713, 3.4.2.3.1). 18.
#[tactic(auto, unfolding(crate::specs::Sccp::digits_of))]
fn digits_in(scheme: u8, octets: &[u8]) -> Result<Digits<'_>, Refusal>
    ensures { mapped digits_from (outcome_of result) ≡ digits_of scheme octets.now }
{
    let count = digit_count(scheme, octets)?;
    if 255 < count || half_in(octets, count) != 0 {
        return Err(Refusal::InvalidSccpAddress);
    }
    Digits::new(octets, count as u8).ok_or(Refusal::InvalidSccpAddress)
}

// A title of indicator 4. 18.
fn title_in(octets: &[u8]) -> Result<Title<'_>, Refusal>
    ensures { mapped (λ t. Some (title_from t)) (outcome_of result) ≡ title_in octets.now }
{
    let [translation_type, plan, nature_of_address, rest @ ..] = octets else {
        return Err(Refusal::InvalidSccpAddress);
    };
    if 127 < *nature_of_address {
        return Err(Refusal::InvalidSccpAddress);
    }
    Ok(Title {
        translation_type: *translation_type,
        numbering_plan: *plan / 16,
        nature_of_address: *nature_of_address,
        digits: digits_in(*plan % 16, rest)?,
    })
}

// The title by its indicator: none, or 4 (Q.713, 3.4.2.3). 18.
fn title_by(indicator: u8, octets: &[u8]) -> Result<Option<Title<'_>>, Refusal>
    ensures { mapped (option_map title_from) (outcome_of result) ≡ title_by indicator octets.now }
{
    match indicator {
        0 if octets.is_empty() => Ok(None),
        4 => Ok(Some(title_in(octets)?)),
        _ => Err(Refusal::InvalidSccpAddress),
    }
}

// A party address: the address indicator (Q.713, 3.4.1), and the parts behind it. 18.
#[tactic(auto, unfolding(crate::specs::Sccp::sccp_in))]
fn address_in(octets: &[u8]) -> Result<Common<'_>, Refusal>
    ensures { mapped address_from (outcome_of result) ≡ sccp_in octets.now }
{
    let [indicator, rest @ ..] = octets else {
        return Err(Refusal::InvalidSccpAddress);
    };
    if 127 < *indicator {
        return Err(Refusal::InvalidSccpAddress);
    }
    let (code, rest) = taken(*indicator % 2 == 1, rest)?;
    // A point code has 14 bits, and its low octet comes first (Q.713, 3.4.2.1).
    let point_code = code.map(u16::from_le_bytes);
    if 16383 < point_code.unwrap_or(0) {
        return Err(Refusal::InvalidSccpAddress);
    }
    let (ssn, rest) = taken(*indicator / 2 % 2 == 1, rest)?;
    let title = title_by(*indicator / 4 % 16, rest)?;
    Ok(Common {
        on_title: *indicator / 64 % 2 == 0,
        point_code,
        ssn: ssn.map(u8::from_be_bytes),
        title,
    })
}

// Reads a party address. 12, 18.
pub(crate) fn read(octets: &[u8]) -> Result<Common<'_>, Refusal>
    ensures { mapped address_from (outcome_of result) ≡ bounded octets.now (sccp_in octets.now) }
{
    within(octets.len())?;
    address_in(octets)
}

// Stores the octets of a part, if it is there, and tells how many they are.
#[tactic(auto, unfolding(bcd::specs::Outcome::deliver))]
fn put<const N: usize>(octets: Option<[u8; N]>, out: &mut [u8]) -> usize
    requires { pick (is_some octets) N 0 ≤ length out.old }
    ensures size { result ≡ pick (is_some octets.entry) N 0 }
    ensures written { delivered (accepted result) out.new ≡ deliver (accepted (unwrap_or octets.entry [])) out.old }
{
    let Some(octets) = octets else {
        return 0;
    };
    out[..N].copy_from_slice(&octets);
    N
}

// Stores the title, if it is there, and tells how many octets it takes. The encoding scheme is odd for an odd number of digits.
#[tactic(auto, unfolding(bcd::specs::Outcome::deliver))]
fn put_title(title: Option<Title<'_>>, out: &mut [u8]) -> usize
    requires { title_length title ≤ length out.old }
    ensures size { result ≡ title_length title.entry }
    ensures written { delivered (accepted result) out.new ≡ deliver (title_octets (option_map title_from title.entry)) out.old }
{
    let Some(title) = title else {
        return 0;
    };
    let scheme = 2 - (title.digits.count % 2) as u8;
    let plan = title.numbering_plan * 16 + scheme;
    out[..3].copy_from_slice(&[title.translation_type, plan, title.nature_of_address]);
    3 + title.digits.put(&mut out[3..])
}

// The address indicator.
fn indicator(address: Common<'_>) -> u8
    ensures { result ≡ indicator (address_from address.entry) }
{
    u8::from(address.point_code.is_some())
        + 2 * u8::from(address.ssn.is_some())
        + 16 * u8::from(address.title.is_some())
        + 64 * u8::from(!address.on_title)
}

// How many octets a party address takes.
fn party_length(address: Common<'_>) -> usize
    ensures { result ≡ party_length address.entry }
{
    1 + address.point_code.map_or(0, |_| 2)
        + address.ssn.map_or(0, |_| 1)
        + address
            .title
            .map_or(0, |title| 3 + title.digits.octets.len())
}

// Writes a party address. 14.
pub(crate) fn write(address: Common<'_>, out: &mut [u8]) -> Result<usize, Refusal>
    ensures { delivered (outcome_of result) out.new ≡ deliver (sccp_octets (address_from address.entry)) out.old }
{
    let length = party_length(address);
    if out.len() < length {
        return Err(Refusal::OutputTooSmall(length));
    }
    out[0] = indicator(address);
    // The low octet of a point code comes first (Q.713, 3.4.2.1).
    let ssn_place = 1 + put(address.point_code.map(u16::to_le_bytes), &mut out[1..]);
    let title_place = ssn_place + put(address.ssn.map(u8::to_be_bytes), &mut out[ssn_place..]);
    Ok(title_place + put_title(address.title, &mut out[title_place..]))
}
