//! Compiles the text of a job for its device, and prints the device's gates.
#![tactic(auto)]

use circuit::Refusal;
use console::{NoAnswer, exit_code, fail, page, point, read_input};
use message::{JobError, compile_job, text_of};
use std::env;
use std::process::ExitCode;

const VERSION: &str = "compile 0.1, proved with rattle-kit-13f logic dac8208d650f15bf";

const HELP: &str = "usage: compile [--plain] [FILE]

Compiles the text of a job for its device. FILE, or standard input where no file
is named or it is -, holds a text and then a device and a layout, as

    mix 0;
    flip 1 if 0;
    device 3
    joined 0 1
    joined 1 2
    lay 0 2

Prints the device's gates, one a line, and where each qubit lies at the end. A
refusal goes to standard error with its number and place, and the status is 1.

    --plain     leave gates as they come, with no tidying
    --help      print this page
    --version   print the version and what it is proved with";

/// What the program is called where it speaks of itself.
const PROGRAM: &str = "compile";

/// Says why nothing comes of a job.
fn complain(rt: &HostRuntime, name: &str, job: &[u8], error: JobError) -> Result<(), NoAnswer> {
    match error {
        JobError::Refused(Refusal::Text(sign)) => point(rt, name, text_of(job), sign)?,
        JobError::Line(line) => eprintln!(rt; "{name}:{line}: {error}")?,
        _ => eprintln!(rt; "{name}: {error}")?,
    }
    Err(NoAnswer)
}

fn run(rt: &HostRuntime, plain: bool, name: &str, job: &[u8]) -> Result<(), NoAnswer> {
    match compile_job(rt.alloc(), job, plain) {
        Ok(text) => Ok(print!(rt; "{text}")?),
        Err(error) => complain(rt, name, job, error),
    }
}

/// Compiles what one file, or standard input, holds.
fn compile(
    rt: &HostRuntime,
    plain: bool,
    name: Option<String>,
    more: Option<String>,
) -> Result<(), NoAnswer> {
    if more.is_some() {
        return fail(rt, PROGRAM, "one file at most");
    }
    match name.as_deref() {
        None | Some("-") => run(rt, plain, PROGRAM, &read_input(rt, PROGRAM, "-")?),
        Some(name) if name.starts_with("--") => {
            fail(rt, PROGRAM, format_args!("no option {name}"))
        }
        Some(name) => run(rt, plain, name, &read_input(rt, PROGRAM, name)?),
    }
}

/// Does what the arguments ask for. Each program takes its own apart, and shares what it then does.
fn answer(rt: &HostRuntime) -> Result<(), NoAnswer> {
    let mut args = env::args(rt)?.skip(1);
    let first = args.next();
    let page = first.as_deref().and_then(|word| page(word, HELP, VERSION));
    if let Some(page) = page {
        return Ok(println!(rt; "{page}")?);
    }
    match first.as_deref() {
        Some("--plain") => compile(rt, true, args.next(), args.next()),
        _ => compile(rt, false, first, args.next()),
    }
}

fn main(rt: HostRuntime) -> ExitCode {
    exit_code(answer(&rt))
}
