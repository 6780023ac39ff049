// Messages under one header, over the message types of any protocol (RFC 3868, 3.1; RFC 4666, 3).
ghost use Rattle.std.specs.Prelude.{◌≡◌, length};
ghost use Rattle.bcd.specs.Outcome.{accepted, after, delivered, deliver};
ghost use Rattle.bcd.specs.Answers.{outcome_of};
ghost use Rattle.parameter.specs.Table.{records};
ghost use Rattle.message.specs.Kinds.{Kinds, kind_of};
ghost use Rattle.message.specs.Framed.{header_of, named_by, message_of, whole_length, headed_of, write_of};
ghost use Rattle.message.specs.Listing.{listing, list_of};

use bcd::error::{Refusal, within};
use parameter::Place;
use parameter::table::{Records, decode_parameters_from};

// The version of SUA and of M3UA (RFC 3868, 3.1.1; RFC 4666, 3.1.1).
pub const VERSION: u8 = 1;

// The octets of a header.
pub const HEADER_SIZE: usize = 8;

// A message type of a protocol.
pub trait MessageKind: Copy {
    ghost kinds: { Kinds Self };

    // The type of a class and a type. 4.
    fn of_pair(class: u8, msg_type: u8) -> Result<Self, Refusal>
        ensures { outcome_of result ≡ kind_of kinds class msg_type };

    // The octets of the type: its class and its type.
    fn pair(self) -> (u8, u8)
        ensures { result ≡ kinds.pair_of self };
}

// Reads the header in front of a message: its type and its message length. 12, 1, 2, 4.
#[tactic(auto, unfolding(crate::specs::Framed::named_by))]
pub fn read_header<K: MessageKind>(bytes: &[u8]) -> Result<(K, u32), Refusal>
    ensures { outcome_of result ≡ named_by K.kinds bytes.now }
{
    let given = bytes.len();
    within(given)?;
    if given < HEADER_SIZE {
        return Err(Refusal::TooShort {
            expected: HEADER_SIZE,
            actual: given,
        });
    }
    let version = bytes[0];
    if version != VERSION {
        return Err(Refusal::InvalidVersion(version));
    }
    let kind = K::of_pair(bytes[2], bytes[3])?;
    let length = u32::from_be_bytes([bytes[4], bytes[5], bytes[6], bytes[7]]);
    Ok((kind, length))
}

// Writes a header with this version and this message length. 14.
pub fn write_header<K: MessageKind>(
    version: u8,
    kind: K,
    length: u32,
    out: &mut [u8],
) -> Result<usize, Refusal>
    ensures { delivered (outcome_of result) out.new
        ≡ deliver (accepted (header_of K.kinds version kind length)) out.old }
{
    if out.len() < HEADER_SIZE {
        return Err(Refusal::OutputTooSmall(HEADER_SIZE));
    }
    let (class, msg_type) = kind.pair();
    let [a, b, c, d] = length.to_be_bytes();
    let octets = [version, 0, class, msg_type, a, b, c, d];
    out[..HEADER_SIZE].copy_from_slice(&octets);
    Ok(HEADER_SIZE)
}

// Writes the header of a message whose parameters take so many octets, if there is room for both, and tells how many octets
// both take. 12, 14.
pub fn put_header<K: MessageKind>(kind: K, run: usize, out: &mut [u8]) -> Result<usize, Refusal>
    ensures { delivered (outcome_of result) out.new
        ≡ headed_of K.kinds kind (whole_length run (length out.old)) out.old }
{
    let total = HEADER_SIZE.saturating_add(run);
    within(total)?;
    if out.len() < total {
        return Err(Refusal::OutputTooSmall(total));
    }
    write_header(VERSION, kind, total as u32, out)?;
    Ok(total)
}

// Reads a message: its type, and the number of its parameters, whose places, counted from its first octet, it stores. 12, 1,
// 2, 4, then 5 or 6 in wire order, then 13.
pub fn read_into<K: MessageKind>(bytes: &[u8], rows: &mut [Place]) -> Result<(K, usize), Refusal>
    ensures { listing (outcome_of result) rows.new ≡ list_of K.kinds bytes.now rows.old }
{
    let (kind, _) = read_header(bytes)?;
    let count = decode_parameters_from(bytes, HEADER_SIZE, rows)?;
    Ok((kind, count))
}

// Writes the message of a type and a list of records over a lent slice of values. 15, 10 in order, 12, 14.
pub fn write_from<K: MessageKind>(
    kind: K,
    count: usize,
    lent: Records<'_, '_>,
    out: &mut [u8],
) -> Result<usize, Refusal>
    ensures { delivered (outcome_of result) out.new
        ≡ deliver
        (after
        (records lent.entry.values.now lent.entry.rows.now count)
        (λ ps. write_of K.kinds (message_of kind ps)))
        out.old }
{
    let run = lent.parameters_length(count)?;
    let total = put_header(kind, run, out)?;
    lent.encode_parameters(count, &mut out[HEADER_SIZE..])?;
    Ok(total)
}
