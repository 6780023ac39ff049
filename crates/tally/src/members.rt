// The members of a list, and the longest that a title's digits begin with.
ghost use Rattle.std.specs.Prelude.{◌≡◌, ◌≤◌, ◌*◌, ℕ, length, take, get_or};
ghost use Rattle.bcd.specs.Digits.{built_in, halves, digits_in};
ghost use Rattle.address.specs.Address.{title_at};
ghost use Rattle.tally.specs.Members.{members, longest};
ghost use Rattle.tally.specs.Steps.Codes.{code, Numbered};

use address::interpret::TitleValue;
use bcd::half_in;
use std::marker::Model;

// A member list that keeps the rules, as it is lent, with the number of each prefix. Contracts see the prefixes. The numbers are
// lent too, since a struct with the array in it would be copied at each move.
#[derive(Drop)]
pub(crate) struct Members<'a> {
    digits: &'a [u8],
    lengths: &'a [u8],
    numbers: &'a [u64; 64],
}

impl<'a> Model for Members<'a> {
    ghost use Rattle.std.specs.Prelude.{ℕ, List};

    ghost Value = { List (List ℕ) };

    ghost use Rattle.tally.specs.Members.{members};
    ghost use Rattle.tally.specs.Steps.Codes.{Numbered};

    ghost view = { λ m. members m.digits.now m.lengths.now };

    ghost invariant = { λ m. Numbered m.digits.now m.lengths.now m.numbers.now };
}

// The numbers of the first digits: of none, of one, and so on to n; then zeros.
fn starts(octets: &[u8], n: usize) -> [u64; 16]
    requires n_bound { n ≤ 15 }
    requires n_in_bounds { n ≤ 2 * length octets.now }
    ensures { (k : ℕ) → k ≤ n → get_or result k 0 ≡ code (take k (halves octets.now)) }
{
    let mut first = [0; 16];
    first[0] = 1;
    for i in 0..n {
        first[i + 1] = first[i] * 16 + u64::from(half_in(octets, i));
    }
    first
}

impl<'a> Members<'a> {
    // A list that keeps the rules, with its numbers.
    pub(crate) fn new(digits: &'a [u8], lengths: &'a [u8], numbers: &'a [u64; 64]) -> Members<'a>
        requires { Numbered digits.now lengths.now numbers.now }
        ensures { result ≡ members digits.now lengths.now }
    {
        Members {
            digits,
            lengths,
            numbers,
        }
    }

    // How many there are.
    pub(crate) fn count(&self) -> usize
        ensures value { result ≡ length self.now }
        ensures few { result ≤ 64 }
    {
        self.lengths.len()
    }

    // The place of the longest member that so many digits begin with; the number of members if there is none. No digit past the
    // fifteenth decides.
    fn longest(&self, octets: &[u8], count: usize) -> usize
        ensures { result ≡ longest self.now (digits_in built_in octets.now count) }
    {
        let n = count.min(2 * octets.len()).min(15);
        let first = starts(octets, n);
        let mut best = 0;
        let mut row = self.lengths.len();
        for (i, (&k, &number)) in self.lengths.iter().zip(self.numbers).enumerate() {
            let k = k as usize;
            if best < k && k <= n && first[k] == number {
                best = k;
                row = i;
            }
        }
        row
    }

    // The row of a title.
    pub(crate) fn title_row(&self, title: TitleValue<'_>) -> usize
        ensures { result ≡ longest self.now (title_at built_in title.entry.octets.now).digits }
    {
        self.longest(&title.octets[8..], usize::from(title.octets[4]))
    }
}
