// Affected point codes, read and written (message.rs; RFC 3868, 3.9, 0x0012).
ghost use Rattle.std.specs.Prelude.{◌≡◌};
ghost use Rattle.bcd.specs.Outcome.{accepted, delivered, deliver};
ghost use Rattle.bcd.specs.Answers.{outcome_of};
ghost use Rattle.pieces.specs.PointCodes.{pack_codes, codes_in, unpack_codes, store_codes};

use bcd::error::{Refusal, within};
use parameter::tags::AFFECTED_POINT_CODE;

// The most codes that one parameter holds.
const MOST_CODES: usize = 16382;

// Writes point codes as the value of one parameter, each with a mask of 0. 10, 14.
pub fn pack_affected_point_codes(pcs: &[u32], out: &mut [u8]) -> Result<usize, Refusal>
    ensures { delivered (outcome_of result) out.new ≡ deliver (pack_codes pcs.now) out.old }
{
    let length = 4 * pcs.len();
    if MOST_CODES < pcs.len() {
        return Err(Refusal::ValueTooLong {
            tag: AFFECTED_POINT_CODE,
            length,
        });
    }
    if out.len() < length {
        return Err(Refusal::OutputTooSmall(length));
    }
    for (i, pc) in pcs.iter().enumerate() {
        let [_, high, middle, low] = pc.to_be_bytes();
        out[4 * i..4 * i + 4].copy_from_slice(&[0, high, middle, low]);
    }
    Ok(length)
}

// Stores the codes of a value in a lent table. 13.
pub fn list_codes(value: &[u8], out: &mut [u32]) -> Result<usize, Refusal>
    ensures { delivered (outcome_of result) out.new
        ≡ store_codes (accepted (codes_in value.now)) out.old }
{
    let (groups, _) = value.as_chunks::<4>();
    let n = groups.len();
    if out.len() < n {
        return Err(Refusal::TableTooSmall(n));
    }
    for (i, &[_, high, middle, low]) in groups.iter().enumerate() {
        out[i] = u32::from_be_bytes([0, high, middle, low]);
    }
    Ok(n)
}

// Reads the point codes of a parameter's value: groups of four octets, of which an unfinished one is left out. 12, 13.
pub fn unpack_affected_point_codes(value: &[u8], out: &mut [u32]) -> Result<usize, Refusal>
    ensures { delivered (outcome_of result) out.new ≡ store_codes (unpack_codes value.now) out.old }
{
    let given = value.len();
    within(given)?;
    list_codes(value, out)
}
