//! Compares the circuits that two texts say.
#![tactic(auto)]

use console::{NoAnswer, exit_code, fail, page, point, read_input};
use message::{CompareError, Side, compare_texts};
use std::env;
use std::process::ExitCode;

const VERSION: &str = "compare 0.1, proved with rattle-kit-13f logic dac8208d650f15bf";

const HELP: &str = "usage: compare FILE FILE

Compares the circuits that two texts say, on the qubits of both together, at most
eight, with at most 60 mixes in the two together. Prints

    alike, turn 1               the same, the second turned by one eighth
    different at 01 from 10     not the same: the first row, and row begun from,
                                that shows it

One of the files may be -, for standard input. A refusal goes to standard error
with its number and place, and the status is 1.

    --help      print this page
    --version   print the version and what it is proved with";

/// What the program is called where it speaks of itself.
const PROGRAM: &str = "compare";

fn run(rt: &HostRuntime, first: &str, second: &str) -> Result<(), NoAnswer> {
    let one = read_input(rt, PROGRAM, first)?;
    let two = read_input(rt, PROGRAM, second)?;
    match compare_texts(rt.alloc(), &one, &two) {
        Ok(line) => return Ok(print!(rt; "{line}")?),
        Err(CompareError::Text(Side::First, refusal)) => point(rt, first, &one, refusal.place())?,
        Err(CompareError::Text(Side::Second, refusal)) => point(rt, second, &two, refusal.place())?,
        Err(error) => eprintln!(rt; "{PROGRAM}: {error}")?,
    }
    Err(NoAnswer)
}

/// Does what the arguments ask for. Each program takes its own apart, and shares what it then does.
fn answer(rt: &HostRuntime) -> Result<(), NoAnswer> {
    let mut args = env::args(rt)?.skip(1);
    let first = args.next();
    let page = first.as_deref().and_then(|word| page(word, HELP, VERSION));
    if let Some(page) = page {
        return Ok(println!(rt; "{page}")?);
    }
    let (Some(first), Some(second), None) = (first, args.next(), args.next()) else {
        return fail(rt, PROGRAM, "two files");
    };
    run(rt, &first, &second)
}

fn main(rt: HostRuntime) -> ExitCode {
    exit_code(answer(&rt))
}
