// One parameter, and the cursor that walks a run of them (parameter.rs; RFC 3868, 3.1.5).
#![tactic(auto)]

pub mod table;
pub mod tags;

ghost use Rattle.std.specs.Prelude.{◌≡◌, ◌++◌, ◌+◌, ◌*◌, ◌≤◌, leb};
ghost use Rattle.std.specs.Iterator.{at_most};
ghost use lib.ListN.{length, replicate, take, drop};
ghost use Rattle.bcd.specs.Outcome.{accepted, bounded, delivered, deliver};
ghost use Rattle.bcd.specs.Answers.{outcome_of};
ghost use Rattle.parameter.specs.Parameter.{param, padded_length, param_octets, most_value};
ghost use Rattle.parameter.specs.Parameter.{encode_param, wire_length, frame_param, number_in};
ghost use Rattle.parameter.specs.Walk.{step_at, decode_param, valued};
ghost use Rattle.parameter.specs.Answers.{step_of, one_of};
ghost use Rattle.parameter.specs.Items.{Gives, Left};

use bcd::error::{Refusal, within};

// A parameter's tag, and where its value starts and how long it is in the octets given.
#[derive(Clone, Copy, Debug, Default, PartialEq, Eq)]
pub struct Place {
    pub tag: u16,
    pub start: usize,
    pub length: usize,
}

impl Place {
    // The value's octets, as many of them as there are.
    pub fn value<'a>(self, octets: &'a [u8]) -> &'a [u8]
        ensures { result.now ≡ (valued octets.now self).value }
    {
        let start = self.start.min(octets.len());
        let end = start + self.length.min(octets.len() - start);
        &octets[start..end]
    }

    // Whether the value lies inside so many octets.
    pub fn ends_within(self, length: usize) -> bool
        ensures { result ≡ leb (self.start + self.length) length }
    {
        self.start <= length && self.length <= length - self.start
    }
}

// A position in a run of parameters.
#[derive(Clone, Copy, Debug, PartialEq, Eq)]
pub struct Cursor {
    pub at: usize,
}

impl Cursor {
    // The front of a run.
    pub fn new() -> Self
        ensures { result.at ≡ 0 }
    {
        Cursor { at: 0 }
    }

    // The parameter at the cursor, with the cursor moved on; none at the end of the run. 12, then 5 or 6.
    #[inline(always)]
    pub fn step(self, bytes: &[u8]) -> Result<Option<(Place, Cursor)>, Refusal>
        ensures { step_of result ≡ bounded bytes.now (step_at bytes.now self.at) }
    {
        let at = self.at;
        let n = bytes.len();
        within(n)?;
        let left = n.saturating_sub(at);
        if left < 4 {
            return Ok(None);
        }
        let tag = u16::from_be_bytes([bytes[at], bytes[at + 1]]);
        let length = u16::from_be_bytes([bytes[at + 2], bytes[at + 3]]);
        if length < 4 {
            return Err(Refusal::InvalidParameter { tag, length });
        }
        let l = usize::from(length);
        if left < l {
            return Err(Refusal::ParameterTooShort {
                tag,
                expected: l,
                actual: left,
            });
        }
        let place = Place {
            tag,
            start: at + 4,
            length: l - 4,
        };
        let next = Cursor {
            at: at + l.next_multiple_of(4),
        };
        Ok(Some((place, next)))
    }
}

// The parameters of a run from a position on; after a refusal there are no more.
#[derive(Clone, Copy)]
pub struct Parameters<'a> {
    bytes: &'a [u8],
    at: usize,
}

impl<'a> Parameters<'a> {
    // The parameters from this position on.
    pub fn new(bytes: &'a [u8], at: usize) -> Self
        ensures bytes { result.bytes.now ≡ bytes.now }
        ensures at { result.at ≡ at }
    {
        Parameters { bytes, at }
    }
}

impl<'a> Iterator for Parameters<'a> {
    type Item = Result<Place, Refusal>;

    ghost next_gives = { λ s r t. Gives s.bytes.now s.at r t.bytes.now t.at };

    ghost remaining = { λ s. at_most (Left s.bytes.now s.at) };

    #[inline(always)]
    fn next(&mut self) -> Option<Result<Place, Refusal>> {
        match (Cursor { at: self.at }).step(self.bytes) {
            Ok(Some((place, next))) => {
                self.at = next.at;
                Some(Ok(place))
            }
            Ok(None) => None,
            Err(refusal) => {
                self.bytes = &[];
                Some(Err(refusal))
            }
        }
    }
}

// Reads the parameter at the front of the octets, and tells how many octets it took. 12, 1, 5, 6.
pub fn decode(bytes: &[u8]) -> Result<(Place, usize), Refusal>
    ensures { one_of result ≡ bounded bytes.now (decode_param bytes.now) }
{
    let n = bytes.len();
    match Cursor::new().step(bytes)? {
        Some((place, next)) => Ok((place, next.at.min(n))),
        None => Err(Refusal::TooShort {
            expected: 4,
            actual: n,
        }),
    }
}

// What a parameter with a value of this length takes on the wire. 10.
pub fn wire_length(tag: u16, length: usize) -> Result<usize, Refusal>
    ensures { outcome_of result ≡ wire_length tag length }
{
    if 65531 < length {
        return Err(Refusal::ValueTooLong { tag, length });
    }
    Ok((length + 4).next_multiple_of(4))
}

// The first four octets of a value as a number; none under four octets. 12.
pub fn as_u32(value: &[u8]) -> Result<Option<u32>, Refusal>
    ensures { outcome_of result ≡ bounded value.now (accepted (number_in value.now)) }
{
    let n = value.len();
    within(n)?;
    Ok(value.first_chunk().map(|first| u32::from_be_bytes(*first)))
}

// Clears a slice of at most three octets, which padding is. No `fill` and no loop: they would be compiled to a call.
fn clear(out: &mut [u8])
    requires { length out.old ≤ 3 }
    ensures { out.new ≡ replicate (length out.old) 0 }
{
    match out.len() {
        0 => {}
        1 => out.copy_from_slice(&[0; 1]),
        2 => out.copy_from_slice(&[0; 2]),
        _ => out.copy_from_slice(&[0; 3]),
    }
}

// Stores tag, length and padding round a value that stands at the fifth octet, for which there is room.
fn surround(tag: u16, length: usize, out: &mut [u8])
    requires length_le_most_value { length ≤ most_value }
    requires length_bound { padded_length length ≤ lib.ListN.length out.old }
    ensures { out.new
        ≡ param_octets (param tag (take length (drop 4 out.old))) ++ drop (padded_length length) out.old }
{
    let wire = length + 4;
    let padded = wire.next_multiple_of(4);
    out[..2].copy_from_slice(&tag.to_be_bytes());
    out[2..4].copy_from_slice(&(wire as u16).to_be_bytes());
    clear(&mut out[wire..padded]);
}

// Stores one parameter, for which there is room, at the front of a slice.
pub(crate) fn put(tag: u16, value: &[u8], out: &mut [u8])
    requires value_len_bound { length value.now ≤ most_value }
    requires value_in_bounds { padded_length (length value.now) ≤ length out.old }
    ensures { out.new
        ≡ param_octets (param tag value.now) ++ drop (padded_length (length value.now)) out.old }
{
    out[4..4 + value.len()].copy_from_slice(value);
    surround(tag, value.len(), out);
}

// Writes one parameter. 10, 14.
pub fn encode(tag: u16, value: &[u8], out: &mut [u8]) -> Result<usize, Refusal>
    ensures { delivered (outcome_of result) out.new
        ≡ deliver (encode_param (param tag value.now)) out.old }
{
    let n = wire_length(tag, value.len())?;
    if out.len() < n {
        return Err(Refusal::OutputTooSmall(n));
    }
    put(tag, value, out);
    Ok(n)
}

// Writes tag, length and padding round a value of this length that stands at the fifth octet of the output. 10, 14.
pub fn frame(tag: u16, length: usize, out: &mut [u8]) -> Result<usize, Refusal>
    ensures { delivered (outcome_of result) out.new
        ≡ deliver (frame_param tag length out.old) out.old }
{
    let n = wire_length(tag, length)?;
    if out.len() < n {
        return Err(Refusal::OutputTooSmall(n));
    }
    surround(tag, length, out);
    Ok(n)
}
