// What calls answer, as words: `ok` and numbers, `none`, `yes`, `no`, or `refused`, the refusal's number and its values.
ghost use Rattle.std.specs.Prelude.{◌<◌};

use crate::line::Line;
use address::{GlobalTitle, SuaAddress};
use bcd::GtDigits;
use bcd::error::Refusal;
use message::SuaMessage;
use message::accessors::SccpCause;
use message::header::CommonHeader;
use message::types::{MessageClass, MessageType};
use parameter::Place;

// An answer that a line shows.
pub(crate) trait Answer {
    fn show(&self, line: &mut Line);

    // Shows what stands behind a refusal in the place of an answer.
    fn show_refused(_line: &mut Line) {}
}

// How many values a refusal has.
fn values(refusal: &Refusal) -> usize
    ensures { result < 4 }
{
    match refusal {
        Refusal::ParameterTooShort { .. } => 3,
        Refusal::TooShort { .. }
        | Refusal::InvalidMessageType { .. }
        | Refusal::InvalidParameter { .. }
        | Refusal::ValueTooLong { .. } => 2,
        Refusal::OutsideSlice
        | Refusal::InvalidTally
        | Refusal::UnconvertibleAddress
        | Refusal::InvalidSccpAddress => 0,
        _ => 1,
    }
}

impl Answer for Refusal {
    fn show(&self, line: &mut Line) {
        let mut list = [0u64; 4];
        report::store(Err(*self), &mut list);
        line.word("refused");
        line.numbers(&list[..values(self) + 1]);
    }
}

impl<T: Answer> Answer for Result<T, Refusal> {
    fn show(&self, line: &mut Line) {
        match self {
            Ok(answer) => answer.show(line),
            Err(refusal) => {
                refusal.show(line);
                T::show_refused(line)
            }
        }
    }
}

impl<T: Answer> Answer for Option<T> {
    fn show(&self, line: &mut Line) {
        match self {
            Some(answer) => answer.show(line),
            None => line.word("none"),
        }
    }
}

impl Answer for bool {
    fn show(&self, line: &mut Line) {
        line.word(if *self { "yes" } else { "no" });
    }
}

// Numbers by width: one impl for all that are `Into<u64>` would conflict with those for `bool`, `usize` and `Option`.
impl Answer for usize {
    fn show(&self, line: &mut Line) {
        line.ok(&[*self as u64]);
    }
}

impl Answer for u32 {
    fn show(&self, line: &mut Line) {
        line.ok(&[u64::from(*self)]);
    }
}

impl Answer for u16 {
    fn show(&self, line: &mut Line) {
        line.ok(&[u64::from(*self)]);
    }
}

impl Answer for u8 {
    fn show(&self, line: &mut Line) {
        line.ok(&[u64::from(*self)]);
    }
}

// A report's four numbers.
impl Answer for [u64; 4] {
    fn show(&self, line: &mut Line) {
        line.numbers(self);
    }
}

impl Answer for SccpCause {
    fn show(&self, line: &mut Line) {
        line.ok(&[u64::from(self.cause_type), u64::from(self.cause_value)]);
    }
}

impl Answer for Place {
    fn show(&self, line: &mut Line) {
        line.ok(&[u64::from(self.tag), self.start as u64, self.length as u64]);
    }
}

// A place and a further number.
impl Answer for (Place, usize) {
    fn show(&self, line: &mut Line) {
        self.0.show(line);
        line.number(self.1 as u64);
    }
}

impl Answer for MessageClass {
    fn show(&self, line: &mut Line) {
        line.ok(&[*self as u64]);
    }
}

// A type's octets in the header, and its class.
impl Answer for MessageType {
    fn show(&self, line: &mut Line) {
        let (class, msg_type) = self.class_and_type();
        line.ok(&[
            u64::from(class),
            u64::from(msg_type),
            self.message_class() as u64,
        ]);
    }
}

impl Answer for CommonHeader {
    fn show(&self, line: &mut Line) {
        let (class, msg_type) = self.message_type.class_and_type();
        line.ok(&[
            u64::from(self.version),
            u64::from(class),
            u64::from(msg_type),
            u64::from(self.message_length),
        ]);
    }
}

// A message's class, type and count.
impl Answer for SuaMessage {
    fn show(&self, line: &mut Line) {
        let (class, msg_type) = self.message_type.class_and_type();
        line.ok(&[u64::from(class), u64::from(msg_type), self.count as u64]);
    }
}

// The count of digits, how many more are absent, and all 255 places.
impl Answer for GtDigits {
    fn show(&self, line: &mut Line) {
        line.ok(&[self.count as u64, self.absent as u64]);
        line.octets(&self.digits);
    }

    fn show_refused(line: &mut Line) {
        line.number(0);
        line.octets(&[0; 255]);
    }
}

impl Answer for GlobalTitle {
    fn show(&self, line: &mut Line) {
        line.word("ok");
        title(Some(self), line);
    }

    fn show_refused(line: &mut Line) {
        title(None, line);
    }
}

impl Answer for SuaAddress {
    fn show(&self, line: &mut Line) {
        line.word("ok");
        line.numbers(&[
            u64::from(self.routing_indicator.value()),
            u64::from(self.include_gt),
            u64::from(self.include_pc),
            u64::from(self.include_ssn),
            u64::from(self.global_title.is_some()),
        ]);
        title(self.global_title.as_ref(), line);
        given(self.point_code.map(u64::from), line);
        given(self.ssn.map(u64::from), line);
        line.number(self.other_count as u64);
    }

    fn show_refused(line: &mut Line) {
        line.numbers(&[0; 5]);
        title(None, line);
        line.numbers(&[0; 5]);
    }
}

// Stores the fields of a title; zeros where there is none.
fn title(title: Option<&GlobalTitle>, line: &mut Line) {
    let Some(t) = title else {
        line.numbers(&[0; 6]);
        return line.octets(&[0; 255]);
    };
    line.numbers(&[
        u64::from(t.gti),
        u64::from(t.translation_type),
        u64::from(t.numbering_plan),
        u64::from(t.nature_of_address),
        t.count as u64,
        t.absent as u64,
    ]);
    line.octets(&t.digits);
}

// Stores a flag and a number for what may be absent.
fn given(given: Option<u64>, line: &mut Line) {
    line.numbers(&[u64::from(given.is_some()), given.unwrap_or(0)]);
}
