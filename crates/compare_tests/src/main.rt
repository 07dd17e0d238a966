//! Pairs of texts and what comparing them answers, held to the file `stdout`.
#![tactic(auto)]

use message::{CompareError, Side, compare_texts};
use std::io;

fn show(rt: &HostRuntime, first: &str, second: &str) -> io::Result<()> {
    println!(rt; "{first} | {second}")?;
    match compare_texts(rt.alloc(), first.as_bytes(), second.as_bytes()) {
        Ok(line) => print!(rt; "  {line}"),
        Err(error @ CompareError::Text(Side::First, _)) => println!(rt; "  first {error}"),
        Err(error @ CompareError::Text(Side::Second, _)) => println!(rt; "  second {error}"),
        Err(error) => println!(rt; "  {error}"),
    }
}

const ALIKE: [(&str, &str); 9] = [
    ("flip 0;", "mix 0; turn 4 of 0; mix 0;"),
    ("mix 0; mix 0;", ""),
    ("turn 8 of 0;", ""),
    ("flip 0; turn 1 of 0; flip 0; turn 1 of 0;", ""),
    (
        "turn 2 of 0; mix 0; turn 2 of 0; mix 0; turn 2 of 0; mix 0;",
        "",
    ),
    ("flip 1 if 0;", "mix 0; mix 1; flip 0 if 1; mix 0; mix 1;"),
    (
        "flip 1 if 0; flip 0 if 1; flip 1 if 0;",
        "flip 0 if 1; flip 1 if 0; flip 0 if 1;",
    ),
    (
        "flip 2 if 0 1;",
        "mix 2; flip 2 if 1; turn 7 of 2; flip 2 if 0; turn 1 of 2; flip 2 if 1; turn 7 of 2; flip 2 if 0; turn 1 of 1; turn 1 of 2; mix 2; flip 1 if 0; turn 1 of 0; turn 7 of 1; flip 1 if 0;",
    ),
    ("flip 7;", "mix 7; turn 4 of 7; mix 7;"),
];

const DIFFERENT: [(&str, &str); 5] = [
    ("mix 0; turn 1 of 0;", "turn 1 of 0; mix 0;"),
    ("turn 1 of 0;", "turn 7 of 0;"),
    ("flip 1;", "flip 0;"),
    ("flip 1 if 0;", "flip 0 if 1;"),
    ("mix 0; flip 2 if 0 1;", "mix 0;"),
];

const PROGRAMS: [(&str, &str); 12] = [
    ("3 times { turn 2 of 0; mix 0; }", ""),
    ("turn 3 of 0; mix 0; undo { turn 3 of 0; mix 0; }", ""),
    (
        "block 0 of 2 { flip 1 if 0; } block 1 of 2 { call 0 on 0 1; call 0 on 1 0; call 0 on 0 1; } call 1 on 1 0;",
        "flip 0 if 1; flip 1 if 0; flip 0 if 1;",
    ),
    (
        "block 0 of 1 { 255 times { 255 times { 255 times { mix 0; } } } } 0 times { call 0 on 1; } flip 0;",
        "flip 0;",
    ),
    ("block 1 of 2 { }", ""),
    ("block 0 of 1 { mix 1; }", ""),
    ("block 0 of 1 { call 0 on 0; }", ""),
    ("block 0 of 2 { } call 0 on 3 3;", ""),
    ("block 0 of 2 { } call 0 on 3;", ""),
    ("undo { mix 0; } }", ""),
    ("undo { mix 0;", ""),
    ("mix 0; 255 times { 5 times { flip 1; } } mix 0;", ""),
];

const REFUSED: [(&str, &str); 6] = [
    ("", ""),
    ("mix 8;", ""),
    ("flip 0; flip 1 if 1;", ""),
    ("31 times { mix 0; }", "30 times { mix 0; }"),
    ("mix 0; turn 1 off 0;", ""),
    ("mix 0;", "mix 0"),
];

fn show_each(rt: &HostRuntime, pairs: &[(&str, &str)]) -> io::Result<()> {
    for (first, second) in pairs {
        show(rt, first, second)?;
    }
    Ok(())
}

fn main(rt: HostRuntime) -> io::Result<()> {
    show_each(&rt, &ALIKE)?;
    show_each(&rt, &DIFFERENT)?;
    show_each(&rt, &PROGRAMS)?;
    show_each(&rt, &REFUSED)
}
