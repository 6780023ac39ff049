// The account of an SUA message's parameters: places, and addresses by their parts.
ghost use Rattle.std.specs.Prelude.{◌≡◌, [], ◌∷◌, List, ℕ, ◌+◌, ◌*◌, ◌^◌, ◌≤◌, ◌<◌};
ghost use lib.ListN.{length};
ghost use Rattle.bcd.specs.Outcome.{most};
ghost use Rattle.bcd.specs.Answers.{outcome_of};
ghost use Rattle.bcd.specs.Digits.{built_in, digits_in};
ghost use Rattle.address.specs.Address.{title_at};
ghost use Rattle.address.specs.declared.interpret.TitleValue.{TitleValue};
ghost use Rattle.flat.specs.Account.{marked, title_fields, param_account};
ghost use Rattle.flat.specs.Steps.Emitting.{Writes, Tried, others_fields, parts_fields};

use crate::account::Accounts;
use crate::writer::Writer;
use address::interpret::{Interpreted, TitleValue, interpret};
use address::rewrite::is_other;
use bcd::error::Refusal;
use bcd::unpack_digits;
use form::is_address;
use message::types::MessageType;
use parameter::{Parameters, Place};

impl<'a> Writer<'a> {
    // Stores the first n digits, where there are places for all; else they are not even made.
    fn digits(&mut self, bytes: &[u8], n: usize)
        requires { n ≤ 2 * length bytes.now }
        ensures { Writes self.old (digits_in built_in bytes.now n) self.new }
    {
        let start = self.at;
        self.at = start.saturating_add(n);
        if self.at <= self.out.len() {
            unpack_digits(bytes, &mut self.out[start..self.at]);
        }
    }

    // Stores a title: 1, the descriptors, the number of digits, and the digits. Without one, 0.
    fn title(&mut self, title: Option<TitleValue<'_>>)
        ensures { Writes self.old
            (marked (λ (t : TitleValue). title_fields (title_at built_in t.octets.now)) title.entry) self.new }
    {
        let Some(title) = title else {
            return self.put(&[0]);
        };
        let octets = title.octets;
        let n = title.digit_count();
        self.put(&[1, octets[3], octets[5], octets[6], octets[7], n as u8]);
        self.digits(&octets[8..], n);
    }

    // Stores 1 and the octets of a part. Without it, 0.
    fn marked<const N: usize>(&mut self, octets: Option<[u8; N]>)
        ensures { Writes self.old (marked (λ (os : List ℕ). os) octets.entry) self.new }
    {
        let Some(octets) = octets else {
            return self.put(&[0]);
        };
        self.put(&[1]);
        self.put(&octets);
    }

    // Stores the number of the other sub-parameters, and their places, counted from the message's first octet. It walks only
    // where there are others to store.
    fn others(&mut self, it: &Interpreted<'_>, base: usize)
        requires { base + length it.now.value.now ≤ most }
        ensures { Writes self.old (others_fields base it.now.value.now it.now.parts) self.new }
    {
        let count = it.parts.other_count;
        self.put(&(count as u32).to_be_bytes());
        if count == 0 {
            return;
        }
        for place in Parameters::new(it.value, 4) {
            let Ok(place) = place else {
                return;
            };
            if is_other(place.tag) {
                let start = base + place.start;
                self.place(Place { start, ..place });
            }
        }
    }

    // Stores the fields of an address whose value starts at a position of the message.
    fn fields(&mut self, it: &Interpreted<'_>, base: usize)
        requires { base + length it.now.value.now ≤ most }
        ensures { Writes self.old (parts_fields base it.now.value.now it.now.parts) self.new }
    {
        let value = it.value;
        self.put(&[value[0], value[1], value[3] % 8]);
        self.title(it.title());
        self.marked(it.code());
        self.marked(it.ssn().map(u8::to_be_bytes));
        self.others(it, base);
    }
}

// SUA's accounts.
#[derive(Clone, Copy)]
pub(crate) struct Sua;

impl Accounts for Sua {
    type Kind = MessageType;

    ghost told = { param_account built_in };

    fn param(account: &mut Writer<'_>, input: &[u8], place: Place) -> Result<(), Refusal> {
        account.place(place);
        if is_address(place.tag) {
            account.fields(&interpret(place.value(input))?, place.start);
        }
        Ok(())
    }
}
