// Sums of answers, in which the order of the numbers counts.
use address::{GlobalTitle, SuaAddress};
use bcd::error::Refusal;
use message::accessors::{SccpCause, Screen};

// A sum of numbers.
#[derive(Clone, Copy)]
pub(crate) struct Sum(pub(crate) u64);

// What can be added to a sum.
pub(crate) trait Summand {
    fn add_to(&self, sum: Sum) -> Sum;
}

// Three times the sum, and the number, modulo 2^64.
impl Summand for u64 {
    fn add_to(&self, sum: Sum) -> Sum {
        Sum(sum.0.wrapping_mul(3).wrapping_add(*self))
    }
}

// Numbers by width: one impl for all that are `Into<u64>` would conflict with those for `bool`, `usize` and `Option`.
impl Summand for u8 {
    fn add_to(&self, sum: Sum) -> Sum {
        sum.add(&u64::from(*self))
    }
}

impl Summand for u32 {
    fn add_to(&self, sum: Sum) -> Sum {
        sum.add(&u64::from(*self))
    }
}

impl Summand for usize {
    fn add_to(&self, sum: Sum) -> Sum {
        sum.add(&(*self as u64))
    }
}

impl Summand for bool {
    fn add_to(&self, sum: Sum) -> Sum {
        sum.add(if *self { &1u64 } else { &2u64 })
    }
}

// What is there, or a number beyond those of all values.
impl<T: Summand> Summand for Option<T> {
    fn add_to(&self, sum: Sum) -> Sum {
        match self {
            Some(value) => sum.add(value),
            None => sum.add(&5000000000u64),
        }
    }
}

// What an accessor answers; a refusal is a number beyond those of all values.
impl<T: Summand> Summand for Result<Option<T>, Refusal> {
    fn add_to(&self, sum: Sum) -> Sum {
        match self {
            Ok(answer) => sum.add(answer),
            Err(_) => sum.add(&5000000001u64),
        }
    }
}

// An address that was read, or a refusal with its number.
impl Summand for Result<SuaAddress, Refusal> {
    fn add_to(&self, sum: Sum) -> Sum {
        match self {
            Ok(address) => sum.add(address),
            Err(refusal) => sum.refused(*refusal),
        }
    }
}

impl Summand for SccpCause {
    fn add_to(&self, sum: Sum) -> Sum {
        sum.add(&self.cause_type).add(&self.cause_value)
    }
}

impl Summand for GlobalTitle {
    fn add_to(&self, sum: Sum) -> Sum {
        let mut total = sum
            .add(&self.gti)
            .add(&self.translation_type)
            .add(&self.numbering_plan)
            .add(&self.nature_of_address)
            .add(&self.count);
        for digit in self.digits.iter().take(self.count) {
            total = total.add(digit);
        }
        total
    }
}

impl Summand for SuaAddress {
    fn add_to(&self, sum: Sum) -> Sum {
        let flags = sum
            .add(&self.include_gt)
            .add(&self.include_pc)
            .add(&self.include_ssn)
            .add(&self.global_title.is_some())
            .add(&self.point_code.is_some())
            .add(&self.ssn.is_some());
        let numbers = flags
            .add(&u64::from(self.routing_indicator.value()))
            .add(&self.point_code.unwrap_or(0))
            .add(&self.ssn.unwrap_or(0))
            .add(&self.other_count);
        match &self.global_title {
            Some(title) => numbers.add(title),
            None => numbers
                .add(&0u64)
                .add(&0u64)
                .add(&0u64)
                .add(&0u64)
                .add(&0u64),
        }
    }
}

// All handling fields.
impl Summand for Screen {
    fn add_to(&self, sum: Sum) -> Sum {
        sum.add(&self.routing_context)
            .add(&self.protocol_class)
            .add(&self.sequence_control)
            .add(&self.ss7_hop_count)
            .add(&self.sccp_cause)
            .add(&self.source_address)
            .add(&self.destination_address)
    }
}

impl Sum {
    // A refusal's number, behind a number beyond those of all values.
    pub(crate) fn refused(self, refusal: Refusal) -> Sum {
        self.add(&5000000001u64).add(&report::number(refusal))
    }

    pub(crate) fn add<T: Summand>(self, summand: &T) -> Sum {
        summand.add_to(self)
    }
}

// The sum of so many rounds. Each adds to it, and is given its number, so that none does what an earlier one did.
pub(crate) fn summed<F: FnMut(Sum, u32) -> Sum>(count: u32, mut round: F) -> u64
    requires { F.IsAlwaysCallable round }
{
    let mut sum = Sum(0);
    for i in 0..count {
        sum = round(sum, i);
    }
    sum.0
}
