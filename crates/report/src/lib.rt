// The report that every entry for another language fills: document 01's number of a refusal and its values, or a count.
#![tactic(auto)]

ghost use Rattle.std.specs.Prelude.{◌≡◌, get_or};
ghost use Rattle.bcd.specs.Answers.{numbered, outcome_of, refusal_of};
ghost use Rattle.report.specs.Report.{numbers, reported};

use bcd::error::Refusal;

// A refusal's number and values.
fn refusal_numbers(refusal: Refusal) -> [u64; 4]
    ensures { result ≡ numbers (refusal_of refusal) }
{
    match refusal {
        Refusal::TooShort { expected, actual } => [1, expected as u64, actual as u64, 0],
        Refusal::InvalidVersion(octet) => [2, u64::from(octet), 0, 0],
        Refusal::InvalidMessageClass(octet) => [3, u64::from(octet), 0, 0],
        Refusal::InvalidMessageType { class, msg_type } => [
            4,
            u64::from(class),
            u64::from(msg_type),
            0,
        ],
        Refusal::InvalidParameter { tag, length } => [5, u64::from(tag), u64::from(length), 0],
        Refusal::ParameterTooShort {
            tag,
            expected,
            actual,
        } => [6, u64::from(tag), expected as u64, actual as u64],
        Refusal::MissingParameter(tag) => [7, u64::from(tag), 0, 0],
        Refusal::InvalidRoutingIndicator(indicator) => [8, u64::from(indicator), 0, 0],
        Refusal::InvalidBcdDigit(octet) => [9, u64::from(octet), 0, 0],
        Refusal::ValueTooLong { tag, length } => [10, u64::from(tag), length as u64, 0],
        Refusal::TooManyDigits(count) => [11, count as u64, 0, 0],
        Refusal::TooManyOctets(length) => [12, length as u64, 0, 0],
        Refusal::TableTooSmall(count) => [13, count as u64, 0, 0],
        Refusal::OutputTooSmall(length) => [14, length as u64, 0, 0],
        Refusal::OutsideSlice => [15, 0, 0, 0],
        Refusal::InvalidTally => [16, 0, 0, 0],
        Refusal::UnconvertibleAddress => [17, 0, 0, 0],
        Refusal::InvalidSccpAddress => [18, 0, 0, 0],
    }
}

// A refusal's number.
pub fn number(refusal: Refusal) -> usize
    ensures { result ≡ (numbered refusal).0 }
{
    refusal_numbers(refusal)[0] as usize
}

// An answer's four numbers.
fn answer_numbers(answer: Result<usize, Refusal>) -> [u64; 4]
    ensures { result ≡ numbers (outcome_of answer) }
{
    match answer {
        Ok(n) => [0, n as u64, 0, 0],
        Err(refusal) => refusal_numbers(refusal),
    }
}

// Stores an answer's numbers in the report, as many of them as it has places, and answers the first.
#[tactic(auto, using(crate::proofs::Reports::all_stored))]
pub fn store(answer: Result<usize, Refusal>, report: &mut [u64]) -> u64
    ensures value { result ≡ get_or (numbers (outcome_of answer)) 0 0 }
    ensures report_after { report.new ≡ reported (outcome_of answer) report.old }
{
    let list = answer_numbers(answer);
    let count = report.len().min(list.len());
    report[..count].copy_from_slice(&list[..count]);
    list[0]
}
