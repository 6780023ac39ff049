// Global titles, read and written (address.rs; RFC 3868, 3.10.2.3).
ghost use Rattle.std.specs.Prelude.{◌≡◌};
ghost use Rattle.bcd.specs.Outcome.{after, mapped, delivered, deliver};
ghost use Rattle.bcd.specs.Answers.{outcome_of};
ghost use Rattle.bcd.specs.Digits.{built_in};
ghost use Rattle.address.specs.Address.{read_title, write_title};
ghost use Rattle.address.specs.Records.{title_given};
ghost use Rattle.address.specs.Titles.{record_of};
ghost use Rattle.address.specs.Absent.{absent_at};

use crate::GlobalTitle;
use bcd::error::{Refusal, within};

impl GlobalTitle {
    // Reads a title from the value of its sub-parameter. 12, 1.
    pub fn decode(value: &[u8]) -> Result<GlobalTitle, Refusal>
        ensures { outcome_of result ≡ mapped (record_of (absent_at built_in value.now)) (read_title built_in value.now) }
    {
        let n = value.len();
        within(n)?;
        if n < GlobalTitle::HEADER_SIZE {
            return Err(Refusal::TooShort {
                expected: GlobalTitle::HEADER_SIZE,
                actual: n,
            });
        }
        let read = bcd::decode_gt_digits(&value[8..], value[4])?;
        let digits = read.digits;
        Ok(GlobalTitle {
            gti: value[3],
            translation_type: value[5],
            numbering_plan: value[6],
            nature_of_address: value[7],
            digits,
            count: read.count,
            absent: read.absent,
        })
    }

    // Writes the value of a title's sub-parameter; the count is of the digits that are there. They are looked at once, and
    // written before what stands in front of them, so that nothing is written before 9. 11, 9, 14.
    pub fn encode(&self, out: &mut [u8]) -> Result<usize, Refusal>
        ensures { delivered (outcome_of result) out.new
            ≡ deliver (after (title_given self.now) (write_title built_in)) out.old }
    {
        let count = self.count;
        if 255 < count {
            return Err(Refusal::TooManyDigits(count));
        }
        let digits = &self.digits[..count];
        let length = GlobalTitle::HEADER_SIZE + count.div_ceil(2);
        if out.len() < length {
            bcd::gt_digits_length(digits)?;
            return Err(Refusal::OutputTooSmall(length));
        }
        bcd::encode_gt_digits(digits, &mut out[8..])?;
        let head = [
            0,
            0,
            0,
            self.gti,
            count as u8,
            self.translation_type,
            self.numbering_plan,
            self.nature_of_address,
        ];
        out[..8].copy_from_slice(&head);
        Ok(length)
    }
}
