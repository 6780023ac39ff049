// The parts that constructors make messages of (message.rs; RFC 3868, 3.2 to 3.7).
#![tactic(auto)]

pub mod point_codes;

ghost use Rattle.std.specs.Prelude.{◌≡◌, [], ◌∷◌, length};
ghost use Rattle.bcd.specs.Outcome.{after, mapped, fit64, delivered, deliver};
ghost use Rattle.bcd.specs.Answers.{outcome_of};
ghost use Rattle.parameter.specs.Parameter.{encode_param, writable};
ghost use Rattle.pieces.specs.declared.Part.TheVariants as P;
ghost use Rattle.pieces.specs.Parts.{number, part_written, run_written, Placeable};

use address::SuaAddress;
use address::encode::encoded_length;
use bcd::error::{Refusal, within};
use parameter::table::Records;
use parameter::tags::{AFFECTED_POINT_CODE, DESTINATION_ADDRESS, SOURCE_ADDRESS};
use parameter::{encode, frame, wire_length};
use point_codes::pack_affected_point_codes;

// A part of a message, by its tag: a number; an octet, behind three that are reserved; octets; point codes; an address, with the
// records of its other sub-parameters.
#[derive(Clone, Copy)]
pub enum Part<'a> {
    Number(u16, u32),
    Octet(u16, u8),
    Octets(u16, &'a [u8]),
    Codes(&'a [u32]),
    Address(u16, &'a SuaAddress, Records<'a, 'a>),
}

// Writes a number as a parameter. 14.
fn put_number(tag: u16, n: u32, out: &mut [u8]) -> Result<usize, Refusal>
    ensures { delivered (outcome_of result) out.new ≡ deliver (encode_param (number tag n)) out.old }
{
    encode(tag, &n.to_be_bytes(), out)
}

impl<'a> Part<'a> {
    // What it takes on the wire. An address's refusals, 10.
    fn length(self) -> Result<usize, Refusal>
        ensures { outcome_of result ≡ mapped length (part_written self.entry) }
    {
        match self {
            Part::Number(_, _) => Ok(8),
            Part::Octet(_, _) => Ok(8),
            Part::Octets(tag, octets) => wire_length(tag, octets.len()),
            Part::Codes(codes) => wire_length(AFFECTED_POINT_CODE, 4 * codes.len()),
            Part::Address(tag, address, others) => {
                let length = encoded_length(tag, address, others)?;
                wire_length(tag, length)
            }
        }
    }

    // Writes it, where there is room.
    fn put(self, out: &mut [u8]) -> Result<usize, Refusal>
        requires { Placeable (part_written self) (length out.old) }
        ensures { delivered (outcome_of result) out.new ≡ deliver (part_written self.entry) out.old }
    {
        match self {
            Part::Number(tag, n) => put_number(tag, n, out),
            Part::Octet(tag, n) => encode(tag, &[0, 0, 0, n], out),
            Part::Octets(tag, octets) => encode(tag, octets, out),
            Part::Codes(codes) => {
                let length = pack_affected_point_codes(codes, &mut out[4..])?;
                frame(AFFECTED_POINT_CODE, length, out)
            }
            Part::Address(tag, address, others) => {
                let length = address.encode_as(tag, others, &mut out[4..])?;
                frame(tag, length, out)
            }
        }
    }
}

// The two addresses of a message, the source first.
pub fn addresses<'a>(
    source: &'a SuaAddress,
    source_others: Records<'a, 'a>,
    destination: &'a SuaAddress,
    destination_others: Records<'a, 'a>,
) -> [Part<'a>; 2]
    ensures { result ≡ P.Address 0x0102 source.entry source_others.entry
        ∷ P.Address 0x0103 destination.entry destination_others.entry ∷ [] }
{
    let source = Part::Address(SOURCE_ADDRESS, source, source_others);
    let destination = Part::Address(DESTINATION_ADDRESS, destination, destination_others);
    [source, destination]
}

// What parts take on the wire together; an absent one takes nothing. The refusals of each in order.
pub fn run_length(parts: &[Option<Part<'_>>]) -> Result<usize, Refusal>
    ensures { outcome_of result ≡ mapped (λ os. fit64 (length os)) (run_written parts.now) }
{
    let mut total = 0usize;
    for part in parts {
        if let Some(part) = part {
            total = total.saturating_add(part.length()?);
        }
    }
    Ok(total)
}

// Writes parts, for which there is room.
fn put_run(parts: &[Option<Part<'_>>], out: &mut [u8]) -> Result<usize, Refusal>
    requires { Placeable (run_written parts.now) (length out.old) }
    ensures { delivered (outcome_of result) out.new ≡ deliver (run_written parts.now) out.old }
{
    let mut at = 0;
    for part in parts {
        if let Some(part) = part {
            at += part.put(&mut out[at..])?;
        }
    }
    Ok(at)
}

// Writes parts. The refusals of each in order, 12, 14.
pub fn write_run(parts: &[Option<Part<'_>>], out: &mut [u8]) -> Result<usize, Refusal>
    ensures { delivered (outcome_of result) out.new
        ≡ deliver (after (run_written parts.now) writable) out.old }
{
    let total = run_length(parts)?;
    within(total)?;
    if out.len() < total {
        return Err(Refusal::OutputTooSmall(total));
    }
    put_run(parts, out)
}
