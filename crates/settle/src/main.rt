// The small program: settles the octets on standard input, and prints one line. Where it cannot read the octets to their end, or
// print the line, it says so on standard error and ends with status 1.
#![tactic(auto)]

ghost use Rattle.std.specs.Prelude.{◌≤◌, IfOk, IfSome};
ghost use Rattle.flat.specs.Line.{Printed};

use std::alloc::Global;
use std::io::Read;
use std::process::ExitCode;
use streams::Failure;

// One octet more than a message may have, which is enough to refuse it.
const INPUT: u64 = 65537;

// Stores the line of all octets of an input, however many they are, and answers how long it is.
fn answer<R: Read + Drop>(alloc: Global, input: R, out: &mut [u8; 147471]) -> Result<usize, Failure>
    ensures line { IfOk result (λ n. IfSome (R.remaining input) (λ all. Printed all out.old n out.new)) }
    ensures inside { IfOk result (λ n. n ≤ 147471) }
{
    let octets = streams::read(alloc, input, INPUT)?;
    Ok(flat::line::line(&octets, out))
}

fn settle(rt: &HostRuntime) -> Result<(), Failure> {
    let mut out = [0u8; 147471];
    let length = answer(rt.alloc(), rt.reader(), &mut out)?;
    rt.write_all(&out[..length]).map_err(Failure::Output)
}

fn main(rt: HostRuntime) -> ExitCode {
    streams::status(&rt, "settle", settle(&rt))
}
