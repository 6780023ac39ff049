// A flat account of a message, of any family. The same walk measures and writes: octets that the slice has no places for are
// counted and not stored.
ghost use Rattle.std.specs.Prelude.{◌≡◌, List, ℕ, ◌+◌, ◌^◌, ◌≤◌, ◌<◌};
ghost use Rattle.bcd.specs.Outcome.{Outcome, most, delivered, deliver};
ghost use Rattle.bcd.specs.Answers.{outcome_of};
ghost use Rattle.bcd.specs.Digits.{built_in};
ghost use Rattle.parameter.specs.declared.Place.{Place as Place·Place};
ghost use Rattle.flat.specs.Account.{place_octets, account_of, account, m3ua_account};
ghost use Rattle.flat.specs.Steps.Emitting.{Writes, Tried, Accounted, Small};

use crate::addresses::Sua;
use crate::protocol_data::M3ua;
use crate::writer::Writer;
use bcd::error::Refusal;
use message::kinds::{HEADER_SIZE, MessageKind, read_header};
use parameter::{Parameters, Place};

// What an account tells of the parameters of a family's messages.
pub(crate) trait Accounts {
    type Kind: MessageKind;

    ghost told: { List ℕ → Place·Place → Outcome (List ℕ) };

    // Stores the account of one parameter. Its refusals.
    fn param(account: &mut Writer<'_>, input: &[u8], place: Place) -> Result<(), Refusal>
        requires { place.start + place.length ≤ most }
        ensures { Tried account.old (told input.now place) (outcome_of result) account.new };
}

impl<'a> Writer<'a> {
    // Stores a tag, a start and a length.
    pub(crate) fn place(&mut self, place: Place)
        requires { place.start + place.length < 2 ^ 32 }
        ensures { Writes self.old (place_octets place) self.new }
    {
        let [a, b] = place.tag.to_be_bytes();
        let [c, d, e, f] = (place.start as u32).to_be_bytes();
        let [g, h, i, j] = (place.length as u32).to_be_bytes();
        self.put(&[a, b, c, d, e, f, g, h, i, j]);
    }

    // Stores the account of all parameters from the seventh octet on, and answers how many they are. 12, 5 or 6 in wire
    // order, then the first parameter's refusal.
    fn params<A: Accounts>(&mut self, input: &[u8]) -> Result<usize, Refusal>
        ensures { Accounted A.told input.now self.old (outcome_of result) self.new }
    {
        let mut n: usize = 0;
        let mut told = Ok(());
        for place in Parameters::new(input, HEADER_SIZE) {
            let place = place?;
            n += 1;
            if told.is_ok() {
                told = A::param(self, input, place);
            }
        }
        told?;
        Ok(n)
    }
}

// Writes the account of a message of a family. Reading's refusals, then each parameter's in wire order, then 14. The account is a
// table, so it is not bounded as octets written are.
fn read_in<A: Accounts>(input: &[u8], out: &mut [u8]) -> Result<usize, Refusal>
    requires { Small A.told input.now }
    ensures { delivered (outcome_of result) out.new
        ≡ deliver (account_of A.Kind.kinds A.told input.now) out.old }
{
    let (kind, _) = read_header::<A::Kind>(input)?;
    let mut measured = Writer {
        out: &mut [],
        at: 6,
    };
    let count = measured.params::<A>(input)?;
    let total = measured.at;
    if out.len() < total {
        return Err(Refusal::OutputTooSmall(total));
    }
    let (class, msg_type) = kind.pair();
    let mut account = Writer { out, at: 0 };
    account.put(&[class, msg_type]);
    account.put(&(count as u32).to_be_bytes());
    account.params::<A>(input)?;
    Ok(account.at)
}

// Writes the account of an SUA message with its addresses: at most 10 octets for each 4 of the parameters. Reading's refusals,
// then each address's in wire order, then 14.
pub fn read(input: &[u8], out: &mut [u8]) -> Result<usize, Refusal>
    ensures { delivered (outcome_of result) out.new
        ≡ deliver (account built_in input.now) out.old }
{
    read_in::<Sua>(input, out)
}

// Writes the account of an M3UA message with its Protocol Data: at most 10 octets for each 4 of the parameters. Reading's
// refusals, then 6 for each Protocol Data in wire order, then 14.
pub fn read_m3ua(input: &[u8], out: &mut [u8]) -> Result<usize, Refusal>
    ensures { delivered (outcome_of result) out.new ≡ deliver (m3ua_account input.now) out.old }
{
    read_in::<M3ua>(input, out)
}
