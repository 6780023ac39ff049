// The line that the small program prints: a form's octets as words, or the number of a refusal.
ghost use Rattle.std.specs.Prelude.{◌≡◌, ◌<◌};
ghost use Rattle.bcd.specs.Outcome.{delivered, deliver};
ghost use Rattle.bcd.specs.Answers.{outcome_of, numbered};
ghost use Rattle.flat.specs.Line.{decimal, space, words, form_text, refused_line, settled_input, Printed};
ghost use Rattle.flat.specs.Line.{digit as Line·digit};
ghost use Rattle.flat.specs.Steps.Emitting.{Writes};

use crate::writer::Writer;
use bcd::error::Refusal;
use report::number;

// The character of a digit: 0 to 9, then a to f.
fn digit(d: u8) -> u8
    requires { d < 16 }
    ensures { result ≡ Line·digit d }
{
    if d < 10 { b'0' + d } else { b'a' + (d - 10) }
}

impl<'a> Writer<'a> {
    // Stores a number's decimal digits.
    fn decimal(&mut self, n: usize)
        ensures { Writes self.old (decimal n) self.new }
    {
        self.put(itoa::Buffer::new().format(n).as_bytes());
    }

    // Stores the space that stands before the octet at place i, if one does.
    fn space(&mut self, i: usize)
        ensures { Writes self.old (space i) self.new }
    {
        let text: &[u8] = if 0 < i && i % 4 == 0 { b" " } else { b"" };
        self.put(text);
    }

    // Stores octets as words.
    fn words(&mut self, octets: &[u8])
        ensures { Writes self.old (words octets.now) self.new }
    {
        for (i, &octet) in octets.iter().enumerate() {
            self.space(i);
            self.put(&[digit(octet / 16), digit(octet % 16)]);
        }
    }

    // Stores a form's line.
    fn form(&mut self, form: &[u8])
        ensures { Writes self.old (form_text form.now) self.new }
    {
        self.put(b"(form ");
        self.decimal(form.len());
        self.put(b" (");
        self.words(form);
        self.put(b"))\n");
    }

    // Stores the line of a refusal.
    fn refused(&mut self, refusal: Refusal)
        ensures { Writes self.old (refused_line (numbered refusal).0) self.new }
    {
        self.put(b"(refused ");
        self.decimal(number(refusal));
        self.put(b")\n");
    }
}

// The settled form of a message of at most 65,536 octets; more are 12.
#[tactic(auto, unfolding(bcd::specs::Outcome::deliver, crate::specs::Line::settled_input))]
fn settle(input: &[u8], form: &mut [u8]) -> Result<usize, Refusal>
    ensures { delivered (outcome_of result) form.new ≡ deliver (settled_input input.now) form.old }
{
    if 65536 < input.len() {
        return Err(Refusal::TooManyOctets(input.len()));
    }
    form::settle(input, form)
}

// Writes the program's line for octets: the line of their form, or of the number refused. A form has at most 65,536 octets,
// its line 147,471 characters.
pub fn line(input: &[u8], out: &mut [u8; 147471]) -> usize
    ensures { Printed input.now out.old result out.new }
{
    let mut form = [0u8; 65536];
    let mut line = Writer { out, at: 0 };
    match settle(input, &mut form) {
        Ok(n) => line.form(&form[..n]),
        Err(refusal) => line.refused(refusal),
    }
    line.at
}
