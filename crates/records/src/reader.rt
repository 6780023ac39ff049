// A reader that carries a message's octets and gives the next parameter (document 01, 'Rust forms that cannot stay').
ghost use Rattle.std.specs.Prelude.{◌≡◌};
ghost use Rattle.std.specs.Iterator.{at_most};
ghost use Rattle.bcd.specs.Outcome.{mapped};
ghost use Rattle.bcd.specs.Answers.{outcome_of};
ghost use Rattle.message.specs.Message.{read_header};
ghost use Rattle.records.specs.Reader.{opened, next_of, given, Gives, ahead};

use bcd::error::Refusal;
use message::header::CommonHeader;
use parameter::{Cursor, Place};

// A message's octets, and the position of the next parameter.
#[derive(Clone, Copy, Debug, PartialEq, Eq)]
pub struct Reader<'a> {
    pub bytes: &'a [u8],
    pub at: usize,
}

impl<'a> Reader<'a> {
    // Reads the header of a message. 12, 1, 2, 4. The reader stands behind it.
    pub fn open(bytes: &'a [u8]) -> Result<(CommonHeader, Reader<'a>), Refusal>
        ensures { outcome_of result ≡ mapped (λ h. (h, opened bytes.entry)) (read_header bytes.now) }
    {
        let header = CommonHeader::decode(bytes)?;
        let at = CommonHeader::SIZE;
        Ok((header, Reader { bytes, at }))
    }

    // The parameter at the reader, with the reader moved on; none at the end. 12, then 5 or 6.
    pub fn step(self) -> Result<Option<(Place, Reader<'a>)>, Refusal>
        ensures { outcome_of result ≡ mapped (given self.entry) (next_of self.entry) }
    {
        let bytes = self.bytes;
        let found = Cursor { at: self.at }.step(bytes)?;
        Ok(found.map(|(place, next)| (place, Reader { bytes, at: next.at })))
    }

    // How far the reader stands: the position of the next parameter, counted from the message's first octet.
    pub fn position(self) -> usize
        ensures { result ≡ self.entry.at }
    {
        self.at
    }
}

// The parameters from the reader on, in wire order; a refusal is the last item. 12, then 5 or 6.
impl<'a> Iterator for Reader<'a> {
    type Item = Result<Place, Refusal>;

    ghost next_gives = { λ r item s. Gives r item s };

    ghost remaining = { λ r. at_most (ahead r) };

    fn next(&mut self) -> Option<Result<Place, Refusal>> {
        match self.step() {
            Ok(Some((place, moved))) => {
                *self = moved;
                Some(Ok(place))
            }
            Ok(None) => None,
            Err(refusal) => {
                self.bytes = &[];
                Some(Err(refusal))
            }
        }
    }
}
