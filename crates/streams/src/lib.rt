// The standard streams of the programs, where a read that fails is no end of the input, and a write that fails is told.
#![tactic(auto)]

ghost use Rattle.std.specs.Prelude.{◌≡◌, ◌↔◌, take, IfOk, IfSome, IsErr, IsOk};
ghost use Rattle.std.specs.Process.{exit_status};

use std::alloc::Global;
use std::io;
use std::io::Read;
use std::process::ExitCode;
use thiserror::Error;

// The stream that failed, and why.
#[derive(Debug, Drop, Error)]
pub enum Failure {
    #[error("standard input: {0}")]
    Input(io::Error),
    #[error("standard output: {0}")]
    Output(io::Error),
}

// All octets of a program's input, or the first ones where there are more. A read that fails is no end.
pub fn read<R: Read + Drop>(alloc: Global, input: R, most: u64) -> Result<Vec<u8>, Failure>
    ensures { IfOk result (λ octets. IfSome (R.remaining input) (λ all. octets.items ≡ take most all)) }
{
    let mut octets = Vec::new(alloc);
    input
        .take(most)
        .read_to_end(&mut octets)
        .map_err(Failure::Input)?;
    Ok(octets)
}

// The status that a program ends with: 0, or 1 where a stream failed, which a line on standard error tells.
pub fn status<R: Eprint>(rt: &R, program: &str, ended: Result<(), Failure>) -> ExitCode
    ensures success { exit_status result ≡ 0 ↔ IsOk ended }
    ensures failure { exit_status result ≡ 1 ↔ IsErr ended }
{
    match ended {
        Ok(()) => ExitCode::SUCCESS,
        Err(failure) => {
            let _ = eprintln!(rt; "{program}: {failure}");
            ExitCode::FAILURE
        }
    }
}
