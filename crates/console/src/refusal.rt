//! Saying where and why a text is refused. The runtime, a name and a text come apart, as the programs are given them.
use crate::input::NoAnswer;
use circuit::Refusal;
use diagnosis::{Fault, diagnose, offer};
use message::{Position, Reason, position_of, show_place};
use std::fmt;

/// Says where a text is refused, and why.
fn say<W: fmt::Display + Drop>(
    rt: &HostRuntime,
    name: &str,
    at: Position,
    why: W,
) -> Result<(), NoAnswer> {
    Ok(eprintln!(rt; "{name}:{}:{}: {why}", at.line, at.column)?)
}

/// Shows the line that holds a place.
fn show(rt: &HostRuntime, text: &[u8], at: Position) -> Result<(), NoAnswer> {
    if let Ok(Some(shown)) = show_place(rt.alloc(), text, at) {
        eprint!(rt; "{shown}")?;
    }
    Ok(())
}

/// Says at which sign a text is refused, and shows it.
pub fn point(rt: &HostRuntime, name: &str, text: &[u8], sign: u64) -> Result<(), NoAnswer> {
    let at = position_of(text, sign);
    say(rt, name, at, Reason(Refusal::Text(sign)))?;
    show(rt, text, at)
}

/// Says what could stand at a sign instead, unless the fault is not of that sign alone.
fn suggest(rt: &HostRuntime, text: &[u8], sign: u64, fault: Fault) -> Result<(), NoAnswer> {
    if matches!(fault, Fault::TooManySigns | Fault::TooManyGates(_)) {
        return Ok(());
    }
    if let Ok(line) = offer(rt.alloc(), text, sign) {
        eprintln!(rt; "{line}")?;
    }
    Ok(())
}

/// Says at which sign a text is refused and why, shows the sign, and says what could stand there.
pub fn explain(
    rt: &HostRuntime,
    name: &str,
    text: &[u8],
    limit: u64,
    sign: u64,
) -> Result<(), NoAnswer> {
    let at = position_of(text, sign);
    // The number and sign stand twice: an optional fault shown by a type of its own would be no plainer.
    let Ok(fault) = diagnose(rt.alloc(), text, limit, sign) else {
        return say(rt, name, at, format_args!("refused 9 at sign {sign}"));
    };
    say(
        rt,
        name,
        at,
        format_args!("refused 9 at sign {sign}: {fault}"),
    )?;
    show(rt, text, at)?;
    suggest(rt, text, sign, fault)
}
