// What a message adds to a tally, and to which row.
ghost use Rattle.std.specs.Prelude.{◌≡◌};
ghost use Rattle.bcd.specs.Outcome.{after, mapped, bounded};
ghost use Rattle.bcd.specs.Answers.{outcome_of};
ghost use Rattle.bcd.specs.Digits.{built_in};
ghost use Rattle.parameter.specs.Walk.{places};
ghost use Rattle.parameter.specs.Table.{first_with};
ghost use Rattle.address.specs.Address.{read_address};
ghost use Rattle.form.specs.Form.{settled, meaning};
ghost use Rattle.tally.specs.Tally.{title_row, meant, placed};

use crate::members::Members;
use address::interpret::interpret;
use bcd::error::Refusal;
use message::header::CommonHeader;
use message::types::MessageType;
use parameter::{Parameters, Place, tags};

// A row, and the octets that it gains beside one message.
#[derive(Clone, Copy, Debug, PartialEq, Eq)]
pub struct Gain {
    pub row: usize,
    pub octets: usize,
}

// The first destination address and the first Data of a message. 12, then 5 or 6 in wire order.
fn firsts(input: &[u8]) -> Result<(Option<Place>, Option<Place>), Refusal>
    ensures { outcome_of result
        ≡ bounded input.now
        (mapped (λ ps. (first_with 0x0103 ps, first_with 0x010B ps)) (places input.now 8)) }
{
    let mut destination = None;
    let mut data = None;
    for place in Parameters::new(input, CommonHeader::SIZE) {
        let place = place?;
        match place.tag {
            tags::DESTINATION_ADDRESS => destination = destination.or(Some(place)),
            tags::DATA => data = data.or(Some(place)),
            _ => {}
        }
    }
    Ok((destination, data))
}

impl Members<'_> {
    // The row of a destination address. The refusals of its reading.
    fn destination_row(&self, value: &[u8]) -> Result<usize, Refusal>
        ensures { outcome_of result
            ≡ mapped (λ a. title_row self.now a.title) (read_address built_in value.now) }
    {
        let address = interpret(value)?;
        match address.title() {
            None => Ok(self.count()),
            Some(title) => Ok(self.title_row(title)),
        }
    }

    // What a message that has a form adds. The refusals of its form; nothing refuses after its length.
    fn meant(&self, input: &[u8]) -> Result<Gain, Refusal>
        ensures { outcome_of result
            ≡ after (settled built_in input.now) (λ form. mapped (meant self.now) (meaning built_in input.now)) }
    {
        form::settled_length(input)?;
        let header = CommonHeader::decode(input)?;
        let (destination, data) = firsts(input)?;
        let row = match destination {
            Some(place) if header.message_type == MessageType::Cldt => {
                self.destination_row(place.value(input))?
            }
            _ => self.count(),
        };
        let octets = data.map_or(0, |place| place.length);
        Ok(Gain { row, octets })
    }

    // What a message adds; one whose form is refused adds no octets, to the last row.
    pub(crate) fn place(&self, input: &[u8]) -> Gain
        ensures { result ≡ placed self.now input.now }
    {
        let refused = Gain {
            row: self.count() + 1,
            octets: 0,
        };
        self.meant(input).unwrap_or(refused)
    }
}
