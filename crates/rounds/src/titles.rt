// Digits written: alone, in a title, and in an address with that title and an SSN.
ghost use Rattle.std.specs.Prelude.{◌≤◌};

use crate::sums::{Sum, summed};
use address::{GlobalTitle, SuaAddress};
use bcd::encode_gt_digits;
use bcd::error::Refusal;
use parameter::table::Records;

// What digits are written in.
#[derive(Clone, Copy)]
pub(crate) enum Work {
    Alone,
    Title,
    Address,
    Nothing,
}

// The first value of a refusal; 0 where it has none.
fn value(refusal: Refusal) -> u64 {
    let mut numbers = [0u64; 4];
    report::store(Err(refusal), &mut numbers);
    numbers[1]
}

// The answer of a round, and an octet of the output, of a place that is another in each round; 0 behind its end.
fn answered(sum: Sum, i: u32, answer: Result<usize, Refusal>, out: &[u8]) -> Sum {
    let octet = out.get((i % 255) as usize).copied().unwrap_or(0);
    match answer {
        Ok(n) => sum.add(&n).add(&octet),
        Err(refusal) => sum.refused(refusal).add(&value(refusal)).add(&octet),
    }
}

// The sum of so many rounds of a work on the first n octets: how long the output is, and at most 255 digits. 0 where they are
// not that. What is altered is the octet behind the digits, the title's translation type or the address's SSN.
pub(crate) fn rounds(work: Work, count: u32, n: usize, octets: &mut [u8; 8192]) -> u64 {
    if n < 1 || 256 < n {
        return 0;
    }
    let mut room = [0u8; 255];
    let out = &mut room[..usize::from(octets[0])];
    let (given, behind) = octets.split_at_mut(n);
    let given = &given[1..];
    let mut digits = [0u8; 255];
    digits[..n - 1].copy_from_slice(given);
    let mut title = GlobalTitle::e164(digits, n - 1);
    let mut address = SuaAddress::with_gt(title, Some(8));
    match work {
        Work::Alone => summed(count, move |sum, i| {
            if let Some(first) = behind.first_mut() {
                *first = (i % 256) as u8;
            }
            answered(sum, i, encode_gt_digits(given, out), out)
        }),
        Work::Title => summed(count, move |sum, i| {
            title.translation_type = (i % 256) as u8;
            answered(sum, i, title.encode(out), out)
        }),
        Work::Address => summed(count, move |sum, i| {
            address.ssn = Some((i % 256) as u8);
            answered(sum, i, address.encode(Records::new(b"", &[]), out), out)
        }),
        Work::Nothing => summed(count, |sum, i| answered(sum, i, Ok(n), out)),
    }
}
