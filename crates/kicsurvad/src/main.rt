// The program: reads an order file from standard input, and prints what the library says of it.
#![tactic(auto)]

use listing::check_listing;
use std::env;
use std::io::{Read, Write};
use std::process::ExitCode;

const USAGE: &str =
    "usage: kicsurvad check < FILE\n  check  for each record of the order file, print what it says or why it is refused\n";

fn read_all(rt: &HostRuntime) -> anyhow::Result<Vec<u8>> {
    let mut bytes = Vec::new(rt.alloc());
    rt.stdin().read_to_end(&mut bytes)?;
    Ok(bytes)
}

// Prints the listing of standard input, in one piece.
fn check(rt: &HostRuntime) -> anyhow::Result<()> {
    let input = read_all(rt)?;
    let text = check_listing(rt.alloc(), input.as_slice())?;
    rt.stdout().write_all(text.as_bytes())?;
    Ok(())
}

// Whether the only argument is `check`.
fn asks_to_check(rt: &HostRuntime) -> anyhow::Result<bool> {
    let mut words = env::args(rt)?.skip(1);
    let first = words.next();
    let more = words.next().is_some();
    Ok(first.is_some_and(|word| word.as_str() == "check") && !more)
}

// Does what the argument asks for, and says how the program ends.
fn run(rt: &HostRuntime) -> anyhow::Result<ExitCode> {
    if !asks_to_check(rt)? {
        rt.stderr().write_all(USAGE.as_bytes())?;
        return Ok(ExitCode::FAILURE);
    }
    check(rt)?;
    Ok(ExitCode::SUCCESS)
}

fn main(rt: HostRuntime) -> ExitCode {
    match run(&rt) {
        Ok(code) => code,
        Err(error) => {
            let _ = eprintln!(rt; "kicsurvad: {error}");
            ExitCode::FAILURE
        }
    }
}
