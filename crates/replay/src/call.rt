// A call: its name, and what is left of its numbers and of its octet strings, which it takes in order (docs/CALLS.md).
ghost use Rattle.std.specs.Prelude.{◌<◌, ◌≤◌, length};

use crate::store::Store;
use address::{GlobalTitle, RoutingIndicator, SuaAddress};
use message::SuaMessage;
use message::types::MessageType;
use parameter::Place;
use parameter::table::Records;
use std::str;

// A number of the list, taken modulo the width of what it is for; a flag is set where it is not 0. No trait of the library
// takes a number so: `TryFrom` refuses what is too large.
pub(crate) trait Number {
    fn of(n: u64) -> Self;
}

impl Number for u8 {
    fn of(n: u64) -> u8 {
        (n % 256) as u8
    }
}

impl Number for u16 {
    fn of(n: u64) -> u16 {
        (n % 65536) as u16
    }
}

impl Number for u32 {
    fn of(n: u64) -> u32 {
        (n % 4294967296) as u32
    }
}

impl Number for usize {
    fn of(n: u64) -> usize {
        n as usize
    }
}

impl Number for bool {
    fn of(n: u64) -> bool {
        n != 0
    }
}

// The octets of the strings stand one behind another. Codes that the call is given or lent are stored in `codes`.
#[derive(Drop)]
pub(crate) struct Call<'a> {
    pub(crate) name: &'a str,
    numbers: &'a [u64],
    octets: &'a [u8],
    lengths: &'a [usize],
    codes: &'a mut [u32],
}

// A table that a call is given, and the octets that hold its values.
#[derive(Clone, Copy)]
pub(crate) struct Table<'a> {
    values: &'a [u8],
    rows: [Place; 64],
    count: usize,
}

impl<'a> Table<'a> {
    pub(crate) fn records(&self) -> Records<'a, '_> {
        Records::new(self.values, &self.rows[..self.count.min(64)])
    }
}

// Takes the first item off a list; 0 where there is none.
fn next<T: Copy + Default>(list: &mut &[T]) -> T {
    list.split_off_first().copied().unwrap_or_default()
}

impl<'a> Call<'a> {
    // The next number, or 0.
    pub(crate) fn number<N: Number>(&mut self) -> N {
        N::of(next(&mut self.numbers))
    }

    // The next octet string, or none.
    pub(crate) fn string(&mut self) -> &'a [u8] {
        let length = next(&mut self.lengths);
        self.octets.split_off(..length).unwrap_or(&[])
    }

    // A flag, and a number, which is there if the flag is set.
    pub(crate) fn given<N: Number + Drop>(&mut self) -> Option<N> {
        let there: bool = self.number();
        there.then_some(self.number())
    }

    // A flag, and an octet string, which is there if the flag is set.
    pub(crate) fn given_string(&mut self) -> Option<&'a [u8]> {
        let there: bool = self.number();
        there.then_some(self.string())
    }

    // A count, and so many numbers.
    fn list(&mut self) -> &'a [u64] {
        let count: usize = self.number();
        let there = self.numbers.len();
        self.numbers.split_off(..count.min(there)).unwrap_or(&[])
    }

    // A list of codes.
    pub(crate) fn codes(&mut self) -> &[u32] {
        let count: usize = self.number();
        let count = count.min(self.numbers.len());
        for code in self.codes.iter_mut().take(count) {
            *code = Number::of(next(&mut self.numbers));
        }
        &self.codes[..count.min(self.codes.len())]
    }

    // So many codes that the call is lent, each 60000 before the call.
    pub(crate) fn lent_codes(&mut self, count: usize) -> &mut [u32] {
        let count = count.min(self.codes.len());
        let codes = &mut self.codes[..count];
        codes.fill(60000);
        codes
    }

    // Three lists, of tags, starts and lengths, of which the shortest says how many rows there are, and an octet string.
    pub(crate) fn table(&mut self) -> Table<'a> {
        let tags = self.list();
        let starts = self.list();
        let lengths = self.list();
        let mut rows = [Place::default(); 64];
        let columns = tags.iter().zip(starts).zip(lengths);
        for (row, ((&tag, &start), &length)) in rows.iter_mut().zip(columns) {
            *row = Place {
                tag: Number::of(tag),
                start: Number::of(start),
                length: Number::of(length),
            };
        }
        let count = tags.len().min(starts.len()).min(lengths.len());
        Table {
            values: self.string(),
            rows,
            count,
        }
    }

    // Digits, in front of zeros.
    pub(crate) fn digits(&mut self) -> [u8; 255] {
        let given = self.string();
        let count = given.len().min(255);
        let mut digits = [0u8; 255];
        digits[..count].copy_from_slice(&given[..count]);
        digits
    }

    pub(crate) fn title(&mut self) -> GlobalTitle {
        let mut title = GlobalTitle::new(
            self.number(),
            self.number(),
            self.number(),
            self.number(),
            self.digits(),
            self.number(),
        );
        title.absent = self.number();
        title
    }

    fn given_title(&mut self) -> Option<GlobalTitle> {
        let there: bool = self.number();
        there.then_some(self.title())
    }

    // The routing indicator of a number modulo 5.
    fn routing(&mut self) -> RoutingIndicator {
        let number = (next(&mut self.numbers) % 5) as u16;
        RoutingIndicator::from_u16(number).unwrap_or(RoutingIndicator::Reserved)
    }

    pub(crate) fn address(&mut self) -> SuaAddress {
        SuaAddress {
            routing_indicator: self.routing(),
            include_gt: self.number(),
            include_pc: self.number(),
            include_ssn: self.number(),
            global_title: self.given_title(),
            point_code: self.given(),
            ssn: self.given(),
            other_count: self.number(),
        }
    }

    // The message of a count, whose type is not looked at.
    pub(crate) fn message(&mut self) -> SuaMessage {
        SuaMessage {
            message_type: MessageType::Cldt,
            count: self.number(),
        }
    }
}

// The value of a decimal digit; any other character counts as 0.
fn decimal_digit(character: u8) -> u64
    ensures { result < 10 }
{
    match character {
        b'0'..=b'9' => u64::from(character - b'0'),
        _ => 0,
    }
}

// The number of decimal digits. Where it passes 64 bits, the digits so far count as the most that has room for one more.
fn decimal(digits: &[u8]) -> u64 {
    let mut n = 0u64;
    for &digit in digits {
        n = (n.min(u64::MAX / 10) * 10).wrapping_add(decimal_digit(digit));
    }
    n
}

// The value of a hexadecimal digit; any other character counts as 0.
fn hexadecimal_digit(character: u8) -> u8
    ensures { result < 16 }
{
    match character {
        b'0'..=b'9' => character - b'0',
        b'a'..=b'f' => character - b'a' + 10,
        _ => 0,
    }
}

// The octet of the first two hexadecimal digits.
fn hexadecimal(digits: &[u8]) -> u8 {
    match *digits {
        [high, low, ..] => hexadecimal_digit(high) * 16 + hexadecimal_digit(low),
        [high] => hexadecimal_digit(high) * 16,
        [] => 0,
    }
}

// What stands in front of a character, and what behind it, if it is there.
fn split_at_first(text: &[u8], character: u8) -> Option<(&[u8], &[u8])> {
    let at = text.iter().position(|&c| c == character)?;
    Some((&text[..at], &text[at + 1..]))
}

// Stores the octets of pairs of digits, or of one pair, a `*` and how many times.
fn put_piece(piece: &[u8], octets: &mut Store<u8>) {
    if let Some((_, times)) = split_at_first(piece, b'*') {
        return octets.put(hexadecimal(piece), decimal(times));
    }
    for pair in piece.chunks_exact(2) {
        octets.put(hexadecimal(pair), 1);
    }
}

// Stores the octets of pieces with `+` between them, and how many they are.
fn put_string(pieces: &[u8], octets: &mut Store<u8>, lengths: &mut Store<usize>) {
    let before = octets.count();
    for piece in pieces.split(|&c| c == b'+') {
        put_piece(piece, octets);
    }
    lengths.put(octets.count().saturating_sub(before), 1);
}

// Stores a number, or one that stands in front of a `*` and how many times.
fn put_number(word: &[u8], numbers: &mut Store<u64>) {
    match split_at_first(word, b'*') {
        Some((number, times)) => numbers.put(decimal(number), decimal(times)),
        None => numbers.put(decimal(word), 1),
    }
}

// How many octet strings have a place of their own. Those behind them are no arguments, and overwrite the octets from the front.
const STRINGS: usize = 6;

// The call of a line, whose arguments are stored in what is lent. A first word `beyond` is skipped.
pub(crate) fn read<'a>(
    line: &'a [u8],
    numbers: &'a mut [u64],
    octets: &'a mut [u8],
    lengths: &'a mut [usize],
    codes: &'a mut [u32],
) -> Call<'a> {
    let line = line.strip_prefix(b"beyond ").unwrap_or(line);
    let (name, words) = split_at_first(line, b' ').unwrap_or((line, &[]));
    let mut numbers = Store::new(numbers);
    let mut octets = Store::new(octets);
    let mut lengths = Store::new(lengths);
    let mut strings = 0usize;
    for word in words.split_inclusive(|&c| c == b' ') {
        let word = word.strip_suffix(b" ").unwrap_or(word);
        match word.strip_prefix(b"x") {
            Some(pieces) => {
                if STRINGS <= strings {
                    octets.restart();
                }
                strings = strings.saturating_add(1);
                put_string(pieces, &mut octets, &mut lengths);
            }
            None => put_number(word, &mut numbers),
        }
    }
    Call {
        name: str::from_utf8(name).unwrap_or("?"),
        numbers: numbers.stored(),
        octets: octets.whole(),
        lengths: lengths.stored(),
        codes,
    }
}
