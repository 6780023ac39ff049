// SUA addresses: routing indicator, global title, point code, subsystem number (address.rs; RFC 3868, 3.10.2).
#![tactic(auto)]

pub mod decode;
pub mod encode;
pub mod interpret;
pub mod parts;
pub mod rewrite;
pub mod title;

ghost use Rattle.std.specs.Prelude.{◌≡◌, []};
ghost use Rattle.bcd.specs.Outcome.{mapped};
ghost use Rattle.bcd.specs.Answers.{outcome_of};
ghost use Rattle.address.specs.Address.{routing_in, indicator};
ghost use Rattle.address.specs.Records.{routing_value, address_of, title_record, with_gt, with_ssn_pc};

use bcd::error::Refusal;

// How an address is routed (RFC 3868, 3.10.2.1).
#[derive(Clone, Copy, Debug, PartialEq, Eq)]
pub enum RoutingIndicator {
    Reserved,
    RouteOnGlobalTitle,
    RouteOnSsnAndPc,
    RouteOnHostname,
    RouteOnSsnAndIp,
}

// The routing indicator of a number. 8 above 4.
impl TryFrom<u16> for RoutingIndicator {
    type Error = Refusal;

    ghost try_from_gives = { λ n r. mapped routing_value (outcome_of r) ≡ routing_in n };

    fn try_from(value: u16) -> Result<RoutingIndicator, Refusal> {
        match value {
            0 => Ok(RoutingIndicator::Reserved),
            1 => Ok(RoutingIndicator::RouteOnGlobalTitle),
            2 => Ok(RoutingIndicator::RouteOnSsnAndPc),
            3 => Ok(RoutingIndicator::RouteOnHostname),
            4 => Ok(RoutingIndicator::RouteOnSsnAndIp),
            other => Err(Refusal::InvalidRoutingIndicator(other)),
        }
    }
}

// The number of a routing indicator.
impl From<RoutingIndicator> for u16 {
    ghost from_gives = { λ i n. n ≡ routing_value i };

    fn from(indicator: RoutingIndicator) -> u16 {
        match indicator {
            RoutingIndicator::Reserved => 0,
            RoutingIndicator::RouteOnGlobalTitle => 1,
            RoutingIndicator::RouteOnSsnAndPc => 2,
            RoutingIndicator::RouteOnHostname => 3,
            RoutingIndicator::RouteOnSsnAndIp => 4,
        }
    }
}

impl RoutingIndicator {
    // The routing indicator of a number. 8 above 4.
    pub fn from_u16(value: u16) -> Result<RoutingIndicator, Refusal>
        ensures { mapped routing_value (outcome_of result) ≡ routing_in value }
    {
        RoutingIndicator::try_from(value)
    }

    // Its number.
    pub fn value(self) -> u16
        ensures { result ≡ routing_value self }
    {
        u16::from(self)
    }
}

// A global title: the first `count` of `digits` are its digits (RFC 3868, 3.10.2.3). Where it was read, `absent` more were declared
// and did not come: they are no part of what it means, and writing ignores them.
#[derive(Clone, Copy, Debug, PartialEq, Eq)]
pub struct GlobalTitle {
    pub gti: u8,
    pub translation_type: u8,
    pub numbering_plan: u8,
    pub nature_of_address: u8,
    pub digits: [u8; 255],
    pub count: usize,
    pub absent: usize,
}

impl GlobalTitle {
    // The octets before the digits: three reserved, indicator, digit count, translation type, numbering plan, nature.
    pub const HEADER_SIZE: usize = 8;

    // A title of these descriptors and digits, none of them absent. A count above 255 is kept, and refused as 11 when the title
    // is written.
    pub fn new(
        gti: u8,
        translation_type: u8,
        numbering_plan: u8,
        nature_of_address: u8,
        digits: [u8; 255],
        count: usize,
    ) -> GlobalTitle
        ensures { result ≡ title_record gti translation_type numbering_plan nature_of_address digits count 0 }
    {
        GlobalTitle {
            gti,
            translation_type,
            numbering_plan,
            nature_of_address,
            digits,
            count,
            absent: 0,
        }
    }

    // An international E.164 number: indicator 4, translation type 0, numbering plan 1, nature of address 4.
    pub fn e164(digits: [u8; 255], count: usize) -> GlobalTitle
        ensures { result ≡ title_record 4 0 1 4 digits count 0 }
    {
        GlobalTitle::new(0x04, 0, 1, 4, digits, count)
    }
}

// An address. Which parts are there is told apart from the include bits of the address indicator; the other sub-parameters are
// the first `other_count` records of a lent table (RFC 3868, 3.10.2).
#[derive(Clone, Copy, Debug, PartialEq, Eq)]
pub struct SuaAddress {
    pub routing_indicator: RoutingIndicator,
    pub include_gt: bool,
    pub include_pc: bool,
    pub include_ssn: bool,
    pub global_title: Option<GlobalTitle>,
    pub point_code: Option<u32>,
    pub ssn: Option<u8>,
    pub other_count: usize,
}

impl SuaAddress {
    // An address that is routed on its title, with an SSN or without.
    pub fn with_gt(gt: GlobalTitle, ssn: Option<u8>) -> SuaAddress
        ensures { result ≡ with_gt gt ssn }
    {
        SuaAddress {
            routing_indicator: RoutingIndicator::RouteOnGlobalTitle,
            include_gt: true,
            include_pc: false,
            include_ssn: ssn.is_some(),
            global_title: Some(gt),
            point_code: None,
            ssn,
            other_count: 0,
        }
    }

    // An address that is routed on its SSN and point code.
    pub fn with_ssn_pc(ssn: u8, point_code: u32) -> SuaAddress
        ensures { result ≡ with_ssn_pc ssn point_code }
    {
        SuaAddress {
            routing_indicator: RoutingIndicator::RouteOnSsnAndPc,
            include_gt: false,
            include_pc: true,
            include_ssn: true,
            global_title: None,
            point_code: Some(point_code),
            ssn: Some(ssn),
            other_count: 0,
        }
    }

    // The 16-bit address indicator: 1 SSN, 2 point code, 4 title (RFC 3868, 3.10.2.2).
    #[tactic(auto, unfolding(crate::specs::Address::indicator))]
    pub fn address_indicator(&self) -> u16
        ensures { result ≡ indicator (address_of self.now []) }
    {
        u16::from(self.include_ssn)
            + 2 * u16::from(self.include_pc)
            + 4 * u16::from(self.include_gt)
    }
}
