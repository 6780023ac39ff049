// The digits of a global title: two to an octet, the first in the low half (bcd.rs; RFC 3868, 3.10.2.3).
#![tactic(auto)]

pub mod error;
pub mod rewrite;

ghost use Rattle.std.specs.Prelude.{◌≡◌, ◌*◌, ◌≤◌, ◌++◌, length, get_or, drop};
ghost use Rattle.bcd.specs.Outcome.{mapped, delivered, deliver};
ghost use Rattle.bcd.specs.Answers.{outcome_of};
ghost use Rattle.bcd.specs.Digits.{halves, built_in, digits_in, read_digits, write_digits};
ghost use Rattle.bcd.specs.Digits.{written, digits_record};
ghost use Rattle.bcd.specs.Steps.{one_half};

use error::{Refusal, within};

// Digits that were read, in front of zeros, how many there are, and how many more were declared and are absent.
#[derive(Clone, Copy, Debug, PartialEq, Eq)]
pub struct GtDigits {
    pub digits: [u8; 255],
    pub count: usize,
    pub absent: usize,
}

// The half octet that a digit is written as, if the octet is a digit. Comparisons, and no `match`, whose jump table takes more
// than twice as long.
fn char_to_nibble(digit: u8) -> Option<u8>
    ensures { result ≡ built_in.half digit }
{
    if b'0' <= digit && digit <= b'9' {
        return Some(digit - b'0');
    }
    if digit == b'*' {
        return Some(0x0A);
    }
    if digit == b'#' {
        return Some(0x0B);
    }
    if b'a' <= digit && digit <= b'c' {
        return Some(digit - b'a' + 0x0C);
    }
    if b'A' <= digit && digit <= b'C' {
        return Some(digit - b'A' + 0x0C);
    }
    None
}

// The half octet that a digit is written as. 9.
fn nibble(digit: u8) -> Result<u8, Refusal>
    ensures { mapped one_half (outcome_of result) ≡ written digit (built_in.half digit) }
{
    char_to_nibble(digit).ok_or(Refusal::InvalidBcdDigit(digit))
}

// The digit that a half octet reads as.
fn nibble_to_char(nibble: u8) -> u8
    ensures { result ≡ built_in.char nibble }
{
    match nibble {
        0..=9 => b'0' + nibble,
        0x0A => b'*',
        0x0B => b'#',
        0x0C => b'a',
        0x0D => b'b',
        0x0E => b'c',
        _ => b'?',
    }
}

// How many octets `encode_gt_digits` writes.
pub fn gt_digits_length(digits: &[u8]) -> Result<usize, Refusal>
    ensures { outcome_of result ≡ mapped length (write_digits built_in digits.now) }
{
    let n = digits.len();
    if 255 < n {
        return Err(Refusal::TooManyDigits(n));
    }
    for &digit in digits {
        nibble(digit)?;
    }
    Ok(n.div_ceil(2))
}

// Writes digits, two to an octet. 11, then 9 at the first octet that is no digit, then 14.
pub fn encode_gt_digits(digits: &[u8], out: &mut [u8]) -> Result<usize, Refusal>
    ensures { delivered (outcome_of result) out.new
        ≡ deliver (write_digits built_in digits.now) out.old }
{
    let given = digits.len();
    if 255 < given {
        return Err(Refusal::TooManyDigits(given));
    }
    let mut packed = [0u8; 128];
    let (pairs, odd) = digits.as_chunks::<2>();
    for (k, &[low, high]) in pairs.iter().enumerate() {
        let low = nibble(low)?;
        packed[k] = nibble(high)? * 16 + low;
    }
    if let &[last] = odd {
        packed[pairs.len()] = nibble(last)?;
    }
    let n = given.div_ceil(2);
    if out.len() < n {
        return Err(Refusal::OutputTooSmall(n));
    }
    out[..n].copy_from_slice(&packed[..n]);
    Ok(n)
}

// The half octet at place i, the low half of an octet first; beyond the octets 0.
pub fn half_in(bytes: &[u8], i: usize) -> u8
    ensures { result ≡ get_or (halves bytes.now) i 0 }
{
    let byte = bytes.get(i / 2).copied().unwrap_or(0);
    if i % 2 == 0 { byte % 16 } else { byte / 16 }
}

// The digit at place i; beyond the octets that of a half octet of 0.
pub fn digit_in(bytes: &[u8], i: usize) -> u8
    ensures { result ≡ built_in.char (get_or (halves bytes.now) i 0) }
{
    nibble_to_char(half_in(bytes, i))
}

// Fills a slice with the first digits, which are as many.
fn fill_digits(bytes: &[u8], out: &mut [u8])
    requires { length out.old ≤ 2 * length bytes.now }
    ensures { out.new ≡ digits_in built_in bytes.now (length out.old) }
{
    for (i, digit) in out.iter_mut().enumerate() {
        *digit = digit_in(bytes, i);
    }
}

// Stores the first digits in front of a slice, as many as there are and as it has places for.
pub fn unpack_digits(bytes: &[u8], out: &mut [u8])
    ensures { out.new ≡ digits_in built_in bytes.now (length out.old) ++ drop (2 * length bytes.now) out.old }
{
    let n = out.len().min(bytes.len().saturating_mul(2));
    fill_digits(bytes, &mut out[..n]);
}

// Reads digits: as many as the count says, or as there are; those declared beyond these are absent. 12.
pub fn decode_gt_digits(bytes: &[u8], num_digits: u8) -> Result<GtDigits, Refusal>
    ensures { outcome_of result ≡ mapped (digits_record num_digits) (read_digits built_in bytes.now num_digits) }
{
    let given = bytes.len();
    within(given)?;
    let declared = usize::from(num_digits);
    let count = declared.min(2 * given);
    let mut digits = [0u8; 255];
    fill_digits(bytes, &mut digits[..count]);
    let absent = declared - count;
    Ok(GtDigits {
        digits,
        count,
        absent,
    })
}
