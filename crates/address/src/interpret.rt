// An address value interpreted by one walk: the parts that are written, and how many octets they are.
ghost use Rattle.std.specs.Prelude.{◌≡◌, ◌≤◌, ℕ, ◌<◌, length, get_or, option_map, Ok};
ghost use Rattle.bcd.specs.Outcome.{accepted, mapped, each, most};
ghost use Rattle.bcd.specs.Answers.{numbered, outcome_of};
ghost use Rattle.bcd.specs.Digits.{built_in, write_digits};
ghost use Rattle.parameter.specs.Parameter.{four, two_at, run_length};
ghost use Rattle.address.specs.Address.{routing_in, title_at, title, present, sub_param};
ghost use Rattle.address.specs.Records.{routing_value};
ghost use Rattle.address.specs.Parts.{interpreted};
ghost use Rattle.address.specs.Parts.{kept_value, kept_title, kept_code, kept_sub};
ghost use Rattle.address.specs.Steps.Kept.{short_numbers};
ghost use Rattle.address.specs.Steps.GivenParts.{four_length};
ghost use Rattle.address.specs.Steps.Plan.{digits_by, PlanOf};

use crate::RoutingIndicator;
use crate::parts::{Parts, survey};
use bcd::error::{Refusal, within};
use parameter::{Place, tags};

// Whether the digits of a title are looked at, and refused where one cannot be written, or taken to be digits that can be.
#[derive(Clone, Copy, Debug, PartialEq, Eq)]
pub(crate) enum Digits {
    Checked,
    Unchecked,
}

// Why a sub-parameter is too short: a title has eight octets, a point code and an SSN four.
fn too_short(short: Place) -> Refusal
    ensures { numbered result ≡ short_numbers short }
{
    let tag = short.tag;
    let actual = short.length;
    if tag == tags::GLOBAL_TITLE {
        return Refusal::TooShort {
            expected: 8,
            actual,
        };
    }
    Refusal::ParameterTooShort {
        tag,
        expected: 4,
        actual,
    }
}

// The value of a title's sub-parameter that stands in an address: eight octets or more.
#[derive(Clone, Copy)]
pub struct TitleValue<'a> {
    pub octets: &'a [u8],
    ghost long: { 8 ≤ length octets.now },
    ghost within: { length octets.now ≤ most },
    ghost fits: { (i : ℕ) → get_or octets.now i 0 < 256 },
}

impl<'a> TitleValue<'a> {
    // How many digits it has: as many as its count says, or as there are.
    pub fn digit_count(self) -> usize
        ensures value { result ≡ length (title_at built_in self.entry.octets.now).digits }
        ensures few { result ≤ 255 }
    {
        usize::from(self.octets[4]).min(2 * (self.octets.len() - 8))
    }

    // How many octets its digits are written as. 9, if they are checked.
    fn digits_length(self, digits: Digits) -> Result<usize, Refusal>
        ensures { outcome_of result
            ≡ mapped length (write_digits (digits_by digits) (title_at built_in self.entry.octets.now).digits) }
    {
        let octets = self.octets;
        match digits {
            Digits::Checked => bcd::rewrite::rewritten_digits_length(&octets[8..], octets[4]),
            Digits::Unchecked => Ok(self.digit_count().div_ceil(2)),
        }
    }
}

// An address value that reads without refusal, with its routing indicator and its parts: the last of each kind, and how many others.
#[derive(Clone, Copy)]
pub struct Interpreted<'a> {
    pub value: &'a [u8],
    pub routing: RoutingIndicator,
    pub parts: Parts,
    ghost long: { 4 ≤ length value.now },
    ghost within: { length value.now ≤ most },
    ghost fits: { (i : ℕ) → get_or value.now i 0 < 256 },
    ghost routed: { accepted (routing_value routing) ≡ routing_in (two_at value.now 0) },
    ghost read: { accepted parts ≡ interpreted value.now },
}

impl<'a> Interpreted<'a> {
    // The title, if there is one.
    pub fn title(&self) -> Option<TitleValue<'a>>
        ensures { option_map (λ (t : TitleValue). t.octets.now) result ≡ kept_value self.now.value.now self.now.parts.title }
    {
        let place = self.parts.title?;
        Some(TitleValue {
            octets: place.value(self.value),
        })
    }

    // The point code's four octets, if there is one.
    pub fn code(&self) -> Option<[u8; 4]>
        ensures { result ≡ option_map four (kept_code self.now.value.now self.now.parts.code) }
    {
        self.parts.code?.value(self.value).first_chunk().copied()
    }

    // The SSN, if there is one.
    pub fn ssn(&self) -> Option<u8>
        ensures { result ≡ kept_sub self.now.value.now self.now.parts.ssn }
    {
        let place = self.parts.ssn?;
        Some(self.value[place.start + 3])
    }

    // What the title takes on the wire, if there is one. 9, if its digits are checked.
    fn title_length(&self, digits: Digits) -> Result<usize, Refusal>
        ensures { outcome_of result
            ≡ mapped run_length
            (each (sub_param (digits_by digits)) (present title (kept_title built_in self.now.value.now self.now.parts.title))) }
    {
        let Some(title) = self.title() else {
            return Ok(0);
        };
        let octets = title.digits_length(digits)?;
        Ok((12 + octets).next_multiple_of(4))
    }

    // How many octets it is written as. 9, if the digits are checked; then 10.
    pub(crate) fn measure(&self, digits: Digits, tag: u16) -> Result<usize, Refusal>
        ensures { PlanOf (digits_by digits) tag self.now.value.now self.now.parts result }
    {
        let length = 4
            + self.title_length(digits)?
            + four_length(&self.parts.code)
            + four_length(&self.parts.ssn)
            + self.parts.other_length;
        if 65531 < length {
            return Err(Refusal::ValueTooLong { tag, length });
        }
        Ok(length)
    }
}

// What a point code or an SSN takes on the wire, if it is there.
pub(crate) fn four_length<T>(part: &Option<T>) -> usize
    ensures value { result ≡ four_length part.now }
    ensures small { result ≤ 8 }
{
    if part.is_some() { 8 } else { 0 }
}

// Interprets an address value. 12, 1, 8, 5 or 6 of the walk, then each sub-parameter's 1 or 6.
pub fn interpret(value: &[u8]) -> Result<Interpreted<'_>, Refusal>
    ensures parts { mapped (λ (i : Interpreted). i.parts) (outcome_of result) ≡ interpreted value.entry.now }
    ensures value { (i : Interpreted) → result ≡ Ok i → i.value.now ≡ value.entry.now }
{
    let n = value.len();
    within(n)?;
    if n < 4 {
        return Err(Refusal::TooShort {
            expected: 4,
            actual: n,
        });
    }
    let indicator = u16::from_be_bytes([value[0], value[1]]);
    let Ok(routing) = RoutingIndicator::from_u16(indicator) else {
        return Err(Refusal::InvalidRoutingIndicator(indicator));
    };
    let parts = survey(value)?;
    if let Some(short) = parts.short {
        return Err(too_short(short));
    }
    Ok(Interpreted {
        value,
        routing,
        parts,
    })
}
