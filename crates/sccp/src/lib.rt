// Addresses to and from SCCP: an address value of SUA and a party address of SCCP, each written from the octets of the other
// (RFC 3868, 3.10.2; ITU-T Q.713, 3.4; document 02, CR 5).
#![tactic(auto)]

pub mod common;
pub mod party;
pub mod value;

ghost use Rattle.std.specs.Prelude.{◌≡◌};
ghost use Rattle.bcd.specs.Outcome.{delivered, deliver};
ghost use Rattle.bcd.specs.Answers.{outcome_of};
ghost use Rattle.sccp.specs.Sccp.{to_sccp, from_sccp};

use bcd::error::Refusal;

// Writes the party address of an address value. Its reading's refusals, then 17, then 14.
pub fn to_sccp(value: &[u8], out: &mut [u8]) -> Result<usize, Refusal>
    ensures { delivered (outcome_of result) out.new
        ≡ deliver (to_sccp value.now) out.old }
{
    party::write(value::read(value)?, out)
}

// Writes the address value of a party address. 12, 18, 14.
pub fn from_sccp(octets: &[u8], out: &mut [u8]) -> Result<usize, Refusal>
    ensures { delivered (outcome_of result) out.new
        ≡ deliver (from_sccp octets.now) out.old }
{
    value::write(party::read(octets)?, out)
}
