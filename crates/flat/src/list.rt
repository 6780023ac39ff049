// A message written from a flat list: for each parameter its tag (2 octets), the length of its value (4 octets) and the
// value. The list holds records and their values, and has no bound of its own.
ghost use Rattle.std.specs.Prelude.{◌≡◌, ◌+◌, List, ℕ, length};
ghost use Rattle.std.specs.Iterator.{at_most};
ghost use Rattle.bcd.specs.Outcome.{after, mapped, each, fit64, delivered, deliver};
ghost use Rattle.bcd.specs.Answers.{outcome_of};
ghost use Rattle.parameter.specs.Parameter.{encode_param, wire_length};
ghost use Rattle.flat.specs.Flat.{flat_step, flat_list, encode_flat_of, encode_flat, encode_m3ua_flat};
ghost use Rattle.parameter.specs.Items.{Left};
ghost use Rattle.flat.specs.Steps.Entries.{entry_of, Gives, ListFits};

use bcd::error::Refusal;
use message::kinds::{HEADER_SIZE, MessageKind, put_header};
use parameter::{Place, wire_length};

// The record at a position of a flat list; none at the end of the list. 15.
#[tactic(auto, unfolding(crate::specs::Flat::flat_step, parameter::specs::Parameter::two_at))]
fn step(list: &[u8], at: usize) -> Result<Option<Place>, Refusal>
    ensures { entry_of result ≡ flat_step list.now at }
{
    let left = list.len().saturating_sub(at);
    if left == 0 {
        return Ok(None);
    }
    if left < 6 {
        return Err(Refusal::OutsideSlice);
    }
    let tag = u16::from_be_bytes([list[at], list[at + 1]]);
    let length = u32::from_be_bytes([
        list[at + 2],
        list[at + 3],
        list[at + 4],
        list[at + 5],
    ]) as usize;
    if left - 6 < length {
        return Err(Refusal::OutsideSlice);
    }
    Ok(Some(Place {
        tag,
        start: at + 6,
        length,
    }))
}

// The records of a flat list, from a position on; nothing after a refusal.
#[derive(Clone, Copy)]
struct FlatList<'a> {
    list: &'a [u8],
    at: usize,
}

impl<'a> FlatList<'a> {
    // All of them.
    fn new(list: &'a [u8]) -> FlatList<'a>
        ensures list { result.list.now ≡ list.now }
        ensures at { result.at ≡ 0 }
    {
        FlatList { list, at: 0 }
    }
}

impl<'a> Iterator for FlatList<'a> {
    type Item = Result<Place, Refusal>;

    ghost next_gives = { λ s r t. Gives s.list.now s.at r t.list.now t.at };

    ghost remaining = { λ s. at_most (Left s.list.now s.at) };

    fn next(&mut self) -> Option<Result<Place, Refusal>> {
        match step(self.list, self.at) {
            Ok(None) => None,
            Ok(Some(place)) => {
                self.at = place.start + place.length;
                Some(Ok(place))
            }
            Err(refusal) => {
                self.list = &[];
                Some(Err(refusal))
            }
        }
    }
}

// The sum with one parameter more, or the refusal that came first.
fn add(sum: Result<usize, Refusal>, place: Place) -> Result<usize, Refusal>
    ensures { outcome_of result
        ≡ after (outcome_of sum) (λ n. mapped (λ m. fit64 (n + m)) (wire_length place.tag place.length)) }
{
    Ok(sum?.saturating_add(wire_length(place.tag, place.length)?))
}

// What the parameters of a flat list take on the wire together. 15, then 10 in order.
fn list_length(list: &[u8]) -> Result<usize, Refusal>
    ensures { outcome_of result ≡ mapped (λ (os : List ℕ). fit64 (length os)) (after (flat_list list.now) (each encode_param)) }
{
    let mut sum = Ok(0);
    for place in FlatList::new(list) {
        sum = add(sum, place?);
    }
    sum
}

// Writes the parameters of a flat list, for which there is room.
fn write_list(list: &[u8], out: &mut [u8]) -> Result<usize, Refusal>
    requires { ListFits (after (flat_list list.now) (each encode_param)) (length out.old) }
    ensures { delivered (outcome_of result) out.new
        ≡ deliver (after (flat_list list.now) (each encode_param)) out.old }
{
    let mut at = 0;
    for place in FlatList::new(list) {
        let place = place?;
        at += parameter::encode(place.tag, place.value(list), &mut out[at..])?;
    }
    Ok(at)
}

// Writes the message of a class, a type and a flat list, over message types. 4, 15, 10 in order, 12 (the message's), 14.
fn encode_in<K: MessageKind>(
    class: u8,
    msg_type: u8,
    list: &[u8],
    out: &mut [u8],
) -> Result<usize, Refusal>
    ensures { delivered (outcome_of result) out.new
        ≡ deliver (encode_flat_of K.kinds class msg_type list.now) out.old }
{
    let kind = K::of_pair(class, msg_type)?;
    let total = put_header(kind, list_length(list)?, out)?;
    write_list(list, &mut out[HEADER_SIZE..])?;
    Ok(total)
}

// Writes the SUA message of a class, a type and a flat list. 4, 15, 10 in order, 12 (the message's), 14.
pub fn encode(class: u8, msg_type: u8, list: &[u8], out: &mut [u8]) -> Result<usize, Refusal>
    ensures { delivered (outcome_of result) out.new
        ≡ deliver (encode_flat class msg_type list.now) out.old }
{
    encode_in::<message::types::MessageType>(class, msg_type, list, out)
}

// Writes the M3UA message of a class, a type and a flat list. 4, 15, 10 in order, 12 (the message's), 14.
pub fn encode_m3ua(class: u8, msg_type: u8, list: &[u8], out: &mut [u8]) -> Result<usize, Refusal>
    ensures { delivered (outcome_of result) out.new
        ≡ deliver (encode_m3ua_flat class msg_type list.now) out.old }
{
    encode_in::<m3ua::types::MessageType>(class, msg_type, list, out)
}
