// Does a work as many rounds as standard input says, so that it can be timed from outside, and prints a sum of all answers.
// Standard input is an octet for the work, four for the number of rounds, and what the work is done on. Up to 2 (1: the seven
// accessors of the handling fields, 2: the screen, 0: nothing), a message of at most 8,191 octets and 1,000 parameters. Above 2
// (3: digits written, 4: a title with them, 5: an address with that, else nothing), an octet for the length of the output, and
// at most 255 digits.
#![tactic(auto)]

mod handling;
mod sums;
mod titles;

use std::process::ExitCode;
use streams::Failure;

// What is done in each round.
#[derive(Clone, Copy)]
enum Work {
    Handling(handling::Work),
    Titles(titles::Work),
}

impl Work {
    // The work of a number.
    fn of(number: u8) -> Work {
        match number {
            0 => Work::Handling(handling::Work::Nothing),
            1 => Work::Handling(handling::Work::Accessors),
            2 => Work::Handling(handling::Work::Screen),
            3 => Work::Titles(titles::Work::Alone),
            4 => Work::Titles(titles::Work::Title),
            5 => Work::Titles(titles::Work::Address),
            _ => Work::Titles(titles::Work::Nothing),
        }
    }
}

// An order of five octets, and as many as the largest message has room for.
const INPUT: u64 = 8197;

// The sum of the work that is ordered; 0 where the order is cut short.
fn sum(input: &[u8]) -> u64 {
    let [number, a, b, c, d, given @ ..] = input else {
        return 0;
    };
    let rounds = u32::from_be_bytes([*a, *b, *c, *d]);
    let n = given.len().min(8192);
    let mut octets = [0u8; 8192];
    octets[..n].copy_from_slice(&given[..n]);
    let mut rows = [handling::EMPTY; 1001];
    match Work::of(*number) {
        Work::Titles(work) => titles::rounds(work, rounds, n, &mut octets),
        Work::Handling(work) => handling::rounds(work, rounds, n, &mut octets, &mut rows),
    }
}

fn run(rt: &HostRuntime) -> Result<(), Failure> {
    let input = streams::read(rt.alloc(), rt.reader(), INPUT)?;
    println!(rt; "{}", sum(&input)).map_err(Failure::Output)
}

fn main(rt: HostRuntime) -> ExitCode {
    streams::status(&rt, "rounds", run(&rt))
}
