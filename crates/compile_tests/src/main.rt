//! Jobs and what comes of them, held to the file `stdout`.
#![tactic(auto)]

use message::{JobError, compile_job};
use std::io;

fn show(rt: &HostRuntime, job: &str) -> io::Result<()> {
    println!(rt; "{job}")?;
    match compile_job(rt.alloc(), job.as_bytes(), false) {
        Ok(text) => println!(rt; "=> {text}"),
        Err(JobError::Line(line)) => println!(rt; "=> fault in line {line}\n"),
        Err(JobError::NoDevice) => println!(rt; "=> no device\n"),
        Err(JobError::NoLayout) => println!(rt; "=> no layout\n"),
        Err(error) => println!(rt; "=> {error}\n"),
    }
}

const COMPILED: [&str; 3] = [
    "mix 0; flip 1 if 0;\ndevice 2\njoined 0 1\nlay 1 0",
    "turn 9 of 0; mix 0; flip 0;\n\n  device 1\n\nlay 0\n",
    "flip 2 if 0 1;\ndevice 3\njoined 0 1\njoined 1 2\njoined 2 0\nlay 2 0 1",
];

const REFUSED: [&str; 13] = [
    "",
    "device 1\nlay",
    "mix 0;\ndevice 17\nlay 0",
    "mix 1;\ndevice 1\nlay 0",
    "mix 0;\ndevice 1\nlay 0 0",
    "flip 0; flip 1 if 1;\ndevice 2\njoined 0 1\nlay 0 1",
    "mix 1;\ndevice 2\njoined 0 1\nlay 1 1",
    "mix 0;\ndevice 3\njoined 0 1\nlay 0",
    "mix 0\ndevice 1\nlay 0",
    "mix 0;\ndevice 1\njoind 0 0\nlay 0",
    "mix 0;\ndevice 1\nlay 0\nlay 0",
    "mix 0;\ndevice 2\njoined 0 2\nlay 0",
    "mix 0;\ndevice 1",
];

fn main(rt: HostRuntime) -> io::Result<()> {
    for job in COMPILED.iter().chain(&REFUSED) {
        show(&rt, job)?;
    }
    Ok(())
}
