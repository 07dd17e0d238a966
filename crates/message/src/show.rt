//! What the programs print of gates and layouts.
ghost use Rattle.std.specs.Prelude.{◌≡◌, IfOk, Some, string_bytes, OnOk};
ghost use Rattle.message.specs.RoundTrip.{AllBytes, AllSmall, Small, Tells};
ghost use Rattle.message.specs.Statements.{at_the_end, printed, statement, statements};

use circuit::Gate;
use std::alloc::{AllocError, Global};
use std::fmt;

/// A gate, shown as the statement that says it.
#[derive(Clone, Copy)]
struct Statement(Gate);

impl Statement {
    fn new(gate: Gate) -> Statement
        ensures gate { result.0 ≡ gate }
        ensures small { Small gate }
    {
        Statement(gate)
    }
}

impl fmt::Display for Statement {
    ghost output = { λ s. Some (statement s.0) };

    fn fmt<W: fmt::Write>(&self, f: &mut fmt::Formatter<W>) -> fmt::Result {
        match self.0 {
            Gate::Phase { eighths, qubit } => write!(f, "turn {eighths} of {qubit};"),
            Gate::Hadamard(qubit) => write!(f, "mix {qubit};"),
            Gate::Not(qubit) => write!(f, "flip {qubit};"),
            Gate::ControlledNot { control, target } => write!(f, "flip {target} if {control};"),
            Gate::Toffoli {
                first,
                second,
                target,
            } => write!(f, "flip {target} if {first} {second};"),
        }
    }
}

/// The place of each qubit, shown as the line that tells the layout at the end.
#[derive(Clone, Copy)]
struct AtTheEnd<'a>(&'a [u8]);

impl fmt::Display for AtTheEnd<'_> {
    ghost output = { λ l. Some (at_the_end l.0.now) };

    fn fmt<W: fmt::Write>(&self, f: &mut fmt::Formatter<W>) -> fmt::Result {
        write!(f, "at the end")?;
        for place in self.0 {
            write!(f, " {place}")?;
        }
        writeln!(f)
    }
}

/// The statement that says a gate.
pub fn show_gate(heap: Global, gate: Gate) -> Result<String, AllocError>
    ensures exact { IfOk result (λ s. string_bytes s ≡ statement gate) }
    ensures small { Small gate }
{
    Statement::new(gate).to_string(heap)
}

/// The gates as statements, one a line.
pub fn show_gates(heap: Global, gates: &[Gate]) -> Result<String, AllocError>
    ensures exact { IfOk result (λ s. string_bytes s ≡ statements gates.now) }
    ensures small { OnOk result (AllSmall gates.now) }
{
    let mut out = String::new(heap);
    for gate in gates {
        let statement = Statement::new(*gate);
        writeln!(out, "{statement}")?;
    }
    Ok(out)
}

/// The line that tells where each qubit lies at the end.
pub fn show_layout(heap: Global, layout: &[u8]) -> Result<String, AllocError>
    ensures exact { IfOk result (λ s. string_bytes s ≡ at_the_end layout.now) }
    ensures small { OnOk result (AllBytes layout.now) }
{
    AtTheEnd(layout).to_string(heap)
}

/// What the compiler prints: its gates as statements, one a line, and then the layout at the end.
pub fn show_compiled(heap: Global, gates: &[Gate], layout: &[u8]) -> Result<String, AllocError>
    ensures exact { IfOk result (λ s. string_bytes s ≡ printed gates.now layout.now) }
    ensures told { IfOk result (λ s. Tells (string_bytes s) gates.now layout.now) }
{
    let mut out = show_gates(heap, gates)?;
    let end = AtTheEnd(layout);
    write!(out, "{end}")?;
    Ok(out)
}
