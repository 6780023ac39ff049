// Families of messages, and their settled form: octets that depend on a message's meaning and on nothing else.
ghost use Rattle.std.specs.Prelude.{◌≡◌, ◌+◌, ◌*◌, ◌≤◌, length, List, ℕ};
ghost use Rattle.bcd.specs.Outcome.{Outcome, after, mapped, most, delivered, deliver};
ghost use Rattle.bcd.specs.Answers.{outcome_of};
ghost use Rattle.parameter.specs.Parameter.{Param, run_octets, run_length};
ghost use Rattle.form.specs.Family.{Family, rewritten, settled_of, LawfulFamily, Puts};
ghost use Rattle.form.specs.Items.{held};
ghost use Rattle.form.specs.Steps.Passes.{sum_of, run_by, Placeable};

use crate::item::Item;
use bcd::error::Refusal;
use message::kinds::{HEADER_SIZE, MessageKind, put_header, read_header};
use parameter::Parameters;

// A family of messages: its message types, and what it settles of a parameter.
pub trait MessageFamily {
    type Kind: MessageKind;

    ghost part: { Type 0 };

    ghost family: { Self → Family part };

    ghost puts: { Self → Param → Outcome (List ℕ) };

    // How many octets a parameter takes in the form. Its refusals.
    fn settled_length(&self, item: Item<'_>) -> Result<usize, Refusal>
        ensures { outcome_of result ≡ mapped run_length (rewritten (family self.now) (held item.entry)) };

    // Writes what the form has of a parameter; 14. Of one that `settled_length` refuses, what is put is the family's choice.
    fn put(&self, item: Item<'_>, out: &mut [u8]) -> Result<usize, Refusal>
        ensures { delivered (outcome_of result) out.new ≡ deliver (puts self.now (held item.entry)) out.old };

    ghost lawful: { (s : Self) → LawfulFamily (family s) };

    ghost put_there: { (s : Self) → Puts (family s) (puts s) };
}

// The sum with one parameter more, or the refusal that came first.
fn add<F: MessageFamily>(
    family: &F,
    sum: Result<usize, Refusal>,
    item: Item<'_>,
) -> Result<usize, Refusal>
    requires { sum_of (outcome_of sum) ≤ 65536 * most }
    ensures { outcome_of result
        ≡ after (outcome_of sum) (λ n.
        mapped (λ qs. n + run_length qs) (rewritten (F.family family.now) (held item.entry))) }
{
    let total = sum?;
    let n = family.settled_length(item)?;
    Ok(total + n)
}

// What the parameters of the form take. 5 or 6 in wire order, then each parameter's refusals.
fn measure<F: MessageFamily>(family: &F, input: &[u8]) -> Result<usize, Refusal>
    requires { length input.now ≤ most }
    ensures { outcome_of result ≡ mapped run_length (run_by (rewritten (F.family family.now)) input.now) }
{
    let mut sum = Ok(0);
    for place in Parameters::new(input, HEADER_SIZE) {
        sum = add(family, sum, Item::at(place?, input));
    }
    sum
}

// The length of a message's form, with the refusals of settling except 14.
pub fn settled_length_in<F: MessageFamily>(family: &F, input: &[u8]) -> Result<usize, Refusal>
    ensures { outcome_of result
        ≡ mapped length (settled_of F.Kind.kinds (F.family family.now) input.now) }
{
    let (_kind, _) = read_header::<F::Kind>(input)?;
    let run = measure(family, input)?;
    Ok(HEADER_SIZE + run)
}

// Writes the parameters of the form, for which there is room.
#[inline(never)]
fn write_params<F: MessageFamily>(
    family: &F,
    input: &[u8],
    out: &mut [u8],
) -> Result<usize, Refusal>
    requires input_len_bound { length input.now ≤ most }
    requires placeable { Placeable (run_by (rewritten (F.family family.now)) input.now) (length out.old) }
    ensures { delivered (outcome_of result) out.new
        ≡ deliver (mapped run_octets (run_by (rewritten (F.family family.now)) input.now)) out.old }
{
    let mut at = 0;
    for place in Parameters::new(input, HEADER_SIZE) {
        let place = place?;
        at += family.put(Item::at(place, input), &mut out[at..])?;
    }
    Ok(at)
}

// Writes the form of a message. Reading's refusals, then each parameter's in wire order, then 14.
pub fn settle_in<F: MessageFamily>(
    family: &F,
    input: &[u8],
    out: &mut [u8],
) -> Result<usize, Refusal>
    ensures { delivered (outcome_of result) out.new
        ≡ deliver (settled_of F.Kind.kinds (F.family family.now) input.now) out.old }
{
    let (kind, _) = read_header::<F::Kind>(input)?;
    let run = measure(family, input)?;
    let total = put_header(kind, run, out)?;
    write_params(family, input, &mut out[HEADER_SIZE..])?;
    Ok(total)
}
