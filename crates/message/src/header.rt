// The common header (header.rs; RFC 3868, 3.1).
ghost use Rattle.std.specs.Prelude.{◌≡◌};
ghost use Rattle.bcd.specs.Outcome.{delivered, deliver};
ghost use Rattle.bcd.specs.Answers.{outcome_of};
ghost use Rattle.message.specs.Message.{header_with, read_header, write_header};

use crate::kinds;
pub use crate::kinds::{VERSION, put_header};
use crate::types::MessageType;
use bcd::error::Refusal;

// The common header (RFC 3868, 3.1).
#[derive(Clone, Copy, Debug, PartialEq, Eq)]
pub struct CommonHeader {
    pub version: u8,
    pub message_type: MessageType,
    pub message_length: u32,
}

impl CommonHeader {
    // The octets of a header.
    pub const SIZE: usize = 8;

    // The header of a message of this many octets.
    pub fn new(message_type: MessageType, message_length: u32) -> Self
        ensures { result ≡ header_with message_type message_length }
    {
        Self {
            version: VERSION,
            message_type,
            message_length,
        }
    }

    // Reads the header in front of a message. 12, 1, 2, 4.
    pub fn decode(bytes: &[u8]) -> Result<CommonHeader, Refusal>
        ensures { outcome_of result ≡ read_header bytes.now }
    {
        let (message_type, length) = kinds::read_header(bytes)?;
        Ok(Self::new(message_type, length))
    }

    // Writes a header with the version and the length that it holds. 14.
    #[tactic(auto, unfolding(crate::specs::Message::write_header))]
    pub fn encode(self, out: &mut [u8]) -> Result<usize, Refusal>
        ensures { delivered (outcome_of result) out.new ≡ deliver (write_header self) out.old }
    {
        kinds::write_header(self.version, self.message_type, self.message_length, out)
    }
}
