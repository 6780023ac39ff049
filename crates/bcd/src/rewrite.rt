// Digits that are read and written again, as the settled form of a title has them: their octets stay as they are, but
// for an odd last high half, which is written as 0.
ghost use Rattle.std.specs.Prelude.{◌≡◌, [], ◌∷◌, ◌*◌, ◌≤◌, length, take};
ghost use Rattle.bcd.specs.Outcome.{accepted, refused, pick, after, mapped};
ghost use Rattle.bcd.specs.Answers.{outcome_of};
ghost use Rattle.bcd.specs.Digits.{halves, pack, built_in, digits_in, read_digits, write_digits};

use crate::error::{Refusal, within};

// Whether one of the first n half octets is 15, which reads as `?` and is never written. The largest is kept, so that the loop
// has no branch on an octet.
fn unknown(bytes: &[u8], n: usize) -> bool
    requires n_bound { n ≤ 2 * length bytes.now }
    requires n_bound_2 { n ≤ 255 }
    ensures { write_digits built_in (digits_in built_in bytes.now n)
        ≡ pick result (refused 9 (0x3F ∷ [])) (accepted (pack (take n (halves bytes.now)))) }
{
    let whole = n / 2;
    let mut most: u8 = 0;
    for &byte in &bytes[..whole] {
        most = most.max(byte % 16).max(byte / 16);
    }
    if n % 2 == 1 {
        most = most.max(bytes[whole] % 16);
    }
    most == 15
}

// How many octets digits take when they are read and written again. 12, 9.
pub fn rewritten_digits_length(bytes: &[u8], num_digits: u8) -> Result<usize, Refusal>
    ensures { outcome_of result
        ≡ mapped length (after (read_digits built_in bytes.now num_digits) (write_digits built_in)) }
{
    let given = bytes.len();
    within(given)?;
    let n = usize::from(num_digits).min(2 * given);
    if unknown(bytes, n) {
        return Err(Refusal::InvalidBcdDigit(b'?'));
    }
    Ok(n.div_ceil(2))
}
