// Why a call refuses. Documents 01 and 02 number the refusals in this order, from 1; the first
// nine are those of error.rs.

ghost use Rattle.std.specs.Prelude.{◌≡◌, [], ◌∷◌, leb};
ghost use Rattle.bcd.specs.Outcome.{accepted, demand, most};
ghost use Rattle.bcd.specs.Answers.{outcome_of};

#[derive(Clone, Copy, Debug, PartialEq, Eq)]
pub enum Refusal {
    // The octets are fewer than an item of this kind has at least.
    TooShort {
        expected: usize,
        actual: usize,
    },
    // A header's version is not 1.
    InvalidVersion(u8),
    // RFC 3868 has no such message class.
    InvalidMessageClass(u8),
    // RFC 3868 has no such message type in this class.
    InvalidMessageType {
        class: u8,
        msg_type: u8,
    },
    // A parameter's length is below 4, which its tag and length take.
    InvalidParameter {
        tag: u16,
        length: u16,
    },
    // A parameter goes on beyond the octets; or a point code or SSN has under four octets.
    ParameterTooShort {
        tag: u16,
        expected: usize,
        actual: usize,
    },
    // The message has no parameter with this tag.
    MissingParameter(u16),
    // A routing indicator above 4.
    InvalidRoutingIndicator(u16),
    // A character that is written as no digit.
    InvalidBcdDigit(u8),
    // A value of more octets than a parameter's length can tell.
    ValueTooLong {
        tag: u16,
        length: usize,
    },
    // More than 255 digits.
    TooManyDigits(usize),
    // More than 1,048,576 octets.
    TooManyOctets(usize),
    // The table lent has less room than this.
    TableTooSmall(usize),
    // The output lent is shorter than this.
    OutputTooSmall(usize),
    // A record, or a count of records, reaches outside its lent slice.
    OutsideSlice,
    // A member list, or the rows of a tally, that cannot be taken.
    InvalidTally,
    // An address that no SCCP party address stands for.
    UnconvertibleAddress,
    // Octets that are no SCCP party address, or one that does not convert.
    InvalidSccpAddress,
}

// So many octets are at most 1,048,576, else 12.
#[inline(always)]
pub fn within(octets: usize) -> Result<(), Refusal>
    ensures { outcome_of result ≡ demand (leb octets most) 12 (octets ∷ []) (accepted tt) }
{
    if 1048576 < octets {
        return Err(Refusal::TooManyOctets(octets));
    }
    Ok(())
}
