// The calls of the codec's functions on standard input, one on a line, each answered by one line (docs/CALLS.md).
#![tactic(auto)]

mod answers;
mod buffers;
mod call;
mod constructors;
mod line;
mod numbers;
mod reply;
mod store;
mod tables;

use reply::Reply;
use std::process::ExitCode;
use streams::Failure;

// How much of the standard input is read.
const INPUT: u64 = 1000000;

// Reads standard input, and answers each of its lines, an empty one by an empty one.
// The buffers are arrays of `main`, so that no proof looks at their elements.
fn run(
    rt: &HostRuntime,
    numbers: &mut [u64; 20000],
    octets: &mut [u8; 1500000],
    codes: &mut [u32; 20000],
    out: &mut [u8; 1200000],
    line: &mut [u8; 200000],
) -> Result<(), Failure> {
    let text = streams::read(rt.alloc(), rt.reader(), INPUT)?;
    for characters in text.split_inclusive(|&octet| octet == b'\n') {
        let given = characters.strip_suffix(b"\n").unwrap_or(characters);
        let mut reply = Reply::new(out, line);
        if !given.is_empty() {
            let mut lengths = [0; 5];
            let mut call = call::read(given, numbers, octets, &mut lengths, codes);
            numbers::answer(&mut call, &mut reply);
        }
        reply.line.octet(b'\n');
        rt.write_all(reply.line.shown()).map_err(Failure::Output)?;
    }
    Ok(())
}

fn main(rt: HostRuntime) -> ExitCode {
    let mut numbers = [0u64; 20000];
    let mut octets = [0u8; 1500000];
    let mut codes = [0u32; 20000];
    let mut out = [0u8; 1200000];
    let mut line = [0u8; 200000];
    let ended = run(
        &rt,
        &mut numbers,
        &mut octets,
        &mut codes,
        &mut out,
        &mut line,
    );
    streams::status(&rt, "replay", ended)
}
