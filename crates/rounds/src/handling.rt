// The handling fields of a message: seven accessors, one after the other, beside the one walk.
use crate::sums::{Sum, summed};
use message::SuaMessage;
use parameter::Place;
use parameter::table::Records;

// A row that nothing is stored in yet.
pub(crate) const EMPTY: Place = Place {
    tag: 0,
    start: 0,
    length: 0,
};

// How the handling fields are read.
#[derive(Clone, Copy)]
pub(crate) enum Work {
    Nothing,
    Accessors,
    Screen,
}

// A message's octets, and the rows of its parameters.
#[derive(Drop)]
struct Lent<'a> {
    octets: &'a mut [u8; 8192],
    rows: &'a mut [Place; 1001],
}

impl<'a> Lent<'a> {
    // Alters an octet behind the message and a row behind the last one, so that no round is given what an earlier one was.
    fn altered(&mut self, i: u32) -> Records<'_, '_> {
        let [low, second, ..] = i.to_le_bytes();
        self.octets[8191] = low;
        self.rows[1000] = Place {
            tag: u16::from_le_bytes([low, second]),
            start: i as usize,
            length: i as usize,
        };
        Records::new(self.octets, self.rows)
    }
}

// All seven, each by its accessor.
fn seven(sum: Sum, m: SuaMessage, lent: Records) -> Sum {
    let mut others = [EMPTY; 2];
    let first = sum
        .add(&m.routing_context(lent))
        .add(&m.protocol_class(lent))
        .add(&m.sequence_control(lent))
        .add(&m.ss7_hop_count(lent))
        .add(&m.sccp_cause(lent));
    let second = first.add(&m.source_address(lent, &mut others));
    second.add(&m.destination_address(lent, &mut others))
}

// All seven by the one walk.
fn screen(sum: Sum, m: SuaMessage, lent: Records) -> Sum {
    let mut sources = [EMPTY; 2];
    let mut destinations = sources;
    sum.add(&m.screen(lent, &mut sources, &mut destinations))
}

// The sum of so many rounds of a work on the message of the first n octets; 0 where it is refused.
pub(crate) fn rounds(
    work: Work,
    count: u32,
    n: usize,
    octets: &mut [u8; 8192],
    rows: &mut [Place; 1001],
) -> u64 {
    let Ok(m) = SuaMessage::decode(&octets[..n.min(8192)], rows) else {
        return 0;
    };
    let mut lent = Lent { octets, rows };
    match work {
        Work::Accessors => summed(count, move |sum, i| seven(sum, m, lent.altered(i))),
        Work::Screen => summed(count, move |sum, i| screen(sum, m, lent.altered(i))),
        Work::Nothing => summed(count, move |sum, i| {
            lent.altered(i);
            sum.add(&1u64)
        }),
    }
}
