// Protocol Data: what a DATA message carries (RFC 4666, 3.3.1).
ghost use Rattle.std.specs.Prelude.{◌≡◌, ◌≤◌, length};
ghost use Rattle.bcd.specs.Outcome.{mapped, delivered, deliver};
ghost use Rattle.bcd.specs.Answers.{outcome_of};
ghost use Rattle.m3ua.specs.ProtocolData.{read_data, write_data};

use bcd::error::{Refusal, within};

// The tag of Protocol Data (RFC 4666, 3.3.1).
pub const PROTOCOL_DATA: u16 = 0x0210;

// The octets in front of the user's data: two point codes, and an octet each for what follows them.
pub const HEAD_SIZE: usize = 12;

// Protocol Data: the point codes that a message goes between, how it is to be handled, and the user's data.
#[derive(Clone, Copy, Debug, PartialEq, Eq)]
pub struct ProtocolData<'a> {
    pub originating: u32,
    pub destination: u32,
    pub service_indicator: u8,
    pub network_indicator: u8,
    // The message priority.
    pub priority: u8,
    // The signalling link selection.
    pub selection: u8,
    // The user's data.
    pub payload: &'a [u8],
}

impl<'a> ProtocolData<'a> {
    ghost use Rattle.m3ua.specs.Fields.{fields};

    // Reads a value. 12, then 6 under 12 octets.
    pub fn decode(value: &'a [u8]) -> Result<ProtocolData<'a>, Refusal>
        ensures { mapped fields (outcome_of result) ≡ read_data value.entry.now }
    {
        let n = value.len();
        within(n)?;
        if n < HEAD_SIZE {
            return Err(Refusal::ParameterTooShort {
                tag: PROTOCOL_DATA,
                expected: HEAD_SIZE,
                actual: n,
            });
        }
        Ok(ProtocolData {
            originating: u32::from_be_bytes([value[0], value[1], value[2], value[3]]),
            destination: u32::from_be_bytes([value[4], value[5], value[6], value[7]]),
            service_indicator: value[8],
            network_indicator: value[9],
            priority: value[10],
            selection: value[11],
            payload: &value[HEAD_SIZE..],
        })
    }

    // Writes a value. 10, of the whole value, then 14.
    pub fn encode(self, out: &mut [u8]) -> Result<usize, Refusal>
        ensures { delivered (outcome_of result) out.new ≡ deliver (write_data (fields self.entry)) out.old }
    {
        let length = self.payload.len().saturating_add(HEAD_SIZE);
        if 65531 < length {
            return Err(Refusal::ValueTooLong {
                tag: PROTOCOL_DATA,
                length,
            });
        }
        if out.len() < length {
            return Err(Refusal::OutputTooSmall(length));
        }
        let [a, b, c, d] = self.originating.to_be_bytes();
        let [e, f, g, h] = self.destination.to_be_bytes();
        let head = [
            a,
            b,
            c,
            d,
            e,
            f,
            g,
            h,
            self.service_indicator,
            self.network_indicator,
            self.priority,
            self.selection,
        ];
        out[..HEAD_SIZE].copy_from_slice(&head);
        out[HEAD_SIZE..length].copy_from_slice(self.payload);
        Ok(length)
    }
}
