// A member list as it is lent: the rules that it keeps, and its prefixes as numbers.
ghost use Rattle.std.specs.Prelude.{◌≡◌, true, ◌≤◌, length, take, sum};
ghost use Rattle.bcd.specs.Outcome.{among};
ghost use Rattle.tally.specs.Members.{between, every, members, valid_lengths};
ghost use Rattle.tally.specs.Steps.Codes.{code, values, codes, unlike};

// Whether each length is 1 to 15.
fn short(lengths: &[u8]) -> bool
    ensures { result ≡ every (between 1 15) lengths.now }
{
    lengths.iter().all(|k| (1..=15).contains(k))
}

// The lengths added up.
fn total(lengths: &[u8]) -> usize
    requires { length lengths.now ≤ 64 }
    ensures { result ≡ sum lengths.now }
{
    lengths.iter().map(|&k| usize::from(k)).sum()
}

// Whether there are 1 to 64 lengths, each of 1 to 15, that add up to so many characters.
pub(crate) fn valid_lengths(lengths: &[u8], characters: usize) -> bool
    ensures { result ≡ valid_lengths characters lengths.now }
{
    (1..=64).contains(&lengths.len()) && short(lengths) && total(lengths) == characters
}

// Whether all octets are 0 to 9. All are looked at, so that the loop has no branch.
pub(crate) fn decimal(digits: &[u8]) -> bool
    ensures { result ≡ every (between 0x30 0x39) digits.now }
{
    digits.iter().fold(true, |all, c| all & c.is_ascii_digit())
}

// A prefix as a number: a leading 1, then four bits for each digit.
fn code(prefix: &[u8]) -> u64
    requires prefix_value { every (between 0x30 0x39) prefix.now ≡ true }
    requires prefix_len_bound { length prefix.now ≤ 15 }
    ensures { result ≡ code (values prefix.now) }
{
    let mut number = 1;
    for &c in prefix {
        number = number * 16 + u64::from(c - b'0');
    }
    number
}

// The number of each prefix, in the order of the members; then zeros.
pub(crate) fn numbers(digits: &[u8], lengths: &[u8]) -> [u64; 64]
    requires lengths_value { valid_lengths (length digits.now) lengths.now ≡ true }
    requires digits_value { every (between 0x30 0x39) digits.now ≡ true }
    ensures { take (length lengths.now) result ≡ codes (members digits.now lengths.now) }
{
    let mut numbers = [0; 64];
    let mut rest = digits;
    for (i, &k) in lengths.iter().enumerate() {
        let (prefix, more) = rest.split_at(usize::from(k));
        numbers[i] = code(prefix);
        rest = more;
    }
    numbers
}

// Whether a number is among others. All are looked at, so that the loop has no branch.
fn among(numbers: &[u64], number: u64) -> bool
    ensures { result ≡ among number numbers.now }
{
    numbers
        .iter()
        .fold(false, |found, &n| found | (n == number))
}

// Whether no two numbers are the same.
pub(crate) fn distinct(numbers: &[u64]) -> bool
    ensures { result ≡ unlike numbers.now }
{
    let mut rest = numbers;
    while let Some((&number, more)) = rest.split_first() {
        if among(more, number) {
            return false;
        }
        rest = more;
    }
    true
}
