// Address values of SUA, read and written (RFC 3868, 3.10.2).
ghost use Rattle.std.specs.Prelude.{◌≡◌, ◌++◌, ◌≤◌, leb, length, drop, option_map};
ghost use Rattle.bcd.specs.Outcome.{after, mapped, delivered, deliver};
ghost use Rattle.bcd.specs.Answers.{outcome_of};
ghost use Rattle.bcd.specs.Digits.{built_in};
ghost use Rattle.parameter.specs.Parameter.{run_octets};
ghost use Rattle.address.specs.Address.{title_at, read_address, write_address};
ghost use Rattle.address.specs.Parts.{kept_title, kept_code};
ghost use Rattle.address.specs.Records.{routing_value};
ghost use Rattle.sccp.specs.Sccp.{routes, absent_or, title_converts, converts};
ghost use Rattle.sccp.specs.Steps.{title_from, address_from, plain_parts, convertible};
ghost use Rattle.sccp.specs.Steps.{title_param, param_length, head_from, value_length};

use crate::common::{Common, Digits, Title};
use address::RoutingIndicator;
use address::encode::write_four;
use address::interpret::{Interpreted, TitleValue, interpret};
use bcd::error::Refusal;
use parameter::tags;

// Whether it is routing on title, or on SSN and point code.
fn routes(routing: RoutingIndicator) -> bool
    ensures { result ≡ routes (routing_value routing) }
{
    matches!(
        routing,
        RoutingIndicator::RouteOnGlobalTitle | RoutingIndicator::RouteOnSsnAndPc
    )
}

// Whether an address is routed on title or on SSN and point code, its include bits say which parts are there, and there are no
// other sub-parameters.
#[tactic(auto, using(crate::proofs::ValueReading::routed_as))]
fn plain(address: Interpreted<'_>) -> bool
    ensures { result ≡ plain_parts address.entry.value.now address.entry.parts }
{
    let parts = address.parts;
    let bits = address.value[3];
    let title = parts.title.is_some();
    let code = parts.code.is_some();
    let ssn = parts.ssn.is_some();
    routes(address.routing)
        && (bits / 4 % 2 == 1) == title
        && (bits / 2 % 2 == 1) == code
        && (bits % 2 == 1) == ssn
        && parts.other_count == 0
}

// A title: of indicator 4, with a plan of 4 bits, a nature of 7 and no digit `?`. 17.
fn title_at(title: TitleValue<'_>) -> Result<Title<'_>, Refusal>
    ensures { mapped title_from (outcome_of result) ≡ convertible title_converts (title_at built_in title.entry.octets.now) }
{
    let value = title.octets;
    if value[3] != 4 || 15 < value[6] || 127 < value[7] {
        return Err(Refusal::UnconvertibleAddress);
    }
    Ok(Title {
        translation_type: value[5],
        numbering_plan: value[6],
        nature_of_address: value[7],
        digits: Digits::new(&value[8..], value[4]).ok_or(Refusal::UnconvertibleAddress)?,
    })
}

// The title, if there is one. 17.
fn title_in(address: Interpreted<'_>) -> Result<Option<Title<'_>>, Refusal>
    ensures { mapped (option_map title_from) (outcome_of result)
        ≡ convertible (absent_or title_converts) (kept_title built_in address.entry.value.now address.entry.parts.title) }
{
    address.title().map(title_at).transpose()
}

// The point code, if there is one, of 14 bits. 17.
fn code_in(address: Interpreted<'_>) -> Result<Option<u16>, Refusal>
    ensures { outcome_of result
        ≡ convertible (absent_or (λ n. leb n 16383)) (kept_code address.entry.value.now address.entry.parts.code) }
{
    match address.code().map(u32::from_be_bytes) {
        None => Ok(None),
        Some(code) if code <= 16383 => Ok(Some(code as u16)),
        Some(_) => Err(Refusal::UnconvertibleAddress),
    }
}

// Reads an address value. Its reading's refusals, then 17.
pub(crate) fn read(value: &[u8]) -> Result<Common<'_>, Refusal>
    ensures { mapped address_from (outcome_of result)
        ≡ after (read_address built_in value.now) (convertible converts) }
{
    let address = interpret(value)?;
    if !plain(address) {
        return Err(Refusal::UnconvertibleAddress);
    }
    Ok(Common {
        on_title: address.routing == RoutingIndicator::RouteOnGlobalTitle,
        title: title_in(address)?,
        point_code: code_in(address)?,
        ssn: address.ssn(),
    })
}

// Writes the title as one sub-parameter, if it is there: its value in place, and tag, length and padding round it.
#[tactic(auto, unfolding(bcd::specs::Outcome::deliver, parameter::specs::Parameter::run_octets))]
fn write_title(title: Option<Title<'_>>, out: &mut [u8]) -> Result<usize, Refusal>
    requires { param_length title ≤ length out.old }
    ensures { delivered (outcome_of result) out.new ≡ deliver (mapped run_octets (title_param title.entry)) out.old }
{
    let Some(title) = title else {
        return Ok(0);
    };
    let head = [
        0,
        0,
        0,
        4,
        title.digits.count as u8,
        title.translation_type,
        title.numbering_plan,
        title.nature_of_address,
    ];
    out[4..12].copy_from_slice(&head);
    let length = 8 + title.digits.put(&mut out[12..]);
    parameter::frame(tags::GLOBAL_TITLE, length, out)
}

// Writes the routing indicator and the address indicator.
fn write_head(address: Common<'_>, out: &mut [u8])
    requires { 4 ≤ length out.old }
    ensures { out.new ≡ head_from address.entry ++ drop 4 out.old }
{
    let routing = if address.on_title { 1 } else { 2 };
    let bits = u8::from(address.ssn.is_some())
        + 2 * u8::from(address.point_code.is_some())
        + 4 * u8::from(address.title.is_some());
    out[..4].copy_from_slice(&[0, routing, 0, bits]);
}

// How many octets an address value takes.
fn value_length(address: Common<'_>) -> usize
    ensures { result ≡ value_length address.entry }
{
    4 + address.title.map_or(0, |title| {
        (12 + title.digits.octets.len()).next_multiple_of(4)
    }) + address.point_code.map_or(0, |_| 8)
        + address.ssn.map_or(0, |_| 8)
}

// Writes an address value. 14.
pub(crate) fn write(address: Common<'_>, out: &mut [u8]) -> Result<usize, Refusal>
    ensures { delivered (outcome_of result) out.new
        ≡ deliver (write_address built_in 0 (address_from address.entry)) out.old }
{
    let length = value_length(address);
    if out.len() < length {
        return Err(Refusal::OutputTooSmall(length));
    }
    // There is room, so that no part is refused.
    write_head(address, out);
    let code_place = 4 + write_title(address.title, &mut out[4..])?;
    let code = address.point_code.map(u32::from).map(u32::to_be_bytes);
    let ssn_place = code_place + write_four(tags::POINT_CODE, code, &mut out[code_place..])?;
    let ssn = address.ssn.map(u32::from).map(u32::to_be_bytes);
    Ok(ssn_place + write_four(tags::SUBSYSTEM_NUMBER, ssn, &mut out[ssn_place..])?)
}
