//! A job compiled: from its bytes to what is printed.
ghost use Rattle.std.specs.Prelude.{◌≡◌, ◌*◌, ◌%◌, ◌≤◌, length, IfOk};
ghost use Rattle.circuit.specs.Code.{gates_in};
ghost use Rattle.job.specs.Plan.{whole};
ghost use Rattle.message.specs.Compiled.{Answers, Brought, Improved, LinesRead, TextRead, plan_error, text_error, text_of};
ghost use Rattle.message.specs.declared.compiling.JobError.TheVariants.{Memory, Refused};

use crate::locate::line_after;
use crate::show::show_compiled;
use circuit::{Failure, Gate, Refusal, decode};
use compiler::{Request, compile_circuit};
use job::{Plan, PlanError, read_plan, text_length};
use std::alloc::{AllocError, Global};
use text::{Circuit, read};
use tidy::tidy;

/// Why nothing comes of a job: one list of reasons, which callers tell apart at once. The line of a `PlanError` counts from 0 behind the text, and this one from 1 over the whole job.
#[derive(Drop)]
pub enum JobError {
    Memory,
    Refused(Refusal),
    /// A line behind the text is at fault: its number, counted from 1 over the whole job.
    Line(u128),
    /// No line gives a device.
    NoDevice,
    /// No line gives a layout.
    NoLayout,
}

// By hand, as a derived `From` has no contract.
impl From<AllocError> for JobError {
    ghost from_gives = { λ _ r. r ≡ Memory };

    fn from(_e: AllocError) -> JobError {
        JobError::Memory
    }
}

impl From<Failure> for JobError {
    ghost from_gives = { λ e r. r ≡ text_error e };

    fn from(failure: Failure) -> JobError {
        match failure {
            Failure::Memory => JobError::Memory,
            Failure::Refused(refusal) => JobError::Refused(refusal),
        }
    }
}

impl From<Refusal> for JobError {
    ghost from_gives = { λ f r. r ≡ Refused f };

    fn from(refusal: Refusal) -> JobError {
        JobError::Refused(refusal)
    }
}

/// Device gates, and where each qubit lies at the end.
#[derive(Drop)]
pub struct Compiled {
    pub gates: Vec<Gate>,
    pub layout: Vec<u8>,
}

/// The most gates that a text may say to be compiled.
const MOST_GATES: u64 = 256;

/// Numbers of room for each gate, which are always enough.
const ROOM: usize = 1200;

fn read_text(heap: Global, text: &[u8]) -> Result<Circuit, JobError>
    ensures { TextRead text.now result }
{
    Ok(read(heap, text, MOST_GATES)?)
}

/// A fault behind a text, its line counted over the whole job.
#[tactic(auto, using(crate::proofs::Wherein::line_is))]
fn plan_error(text: &[u8], error: PlanError) -> JobError
    ensures { result ≡ plan_error text.now error }
{
    match error {
        PlanError::Memory => JobError::Memory,
        PlanError::Line(k) => JobError::Line(line_after(text) as u128 + k as u128),
        PlanError::NoDevice => JobError::NoDevice,
        PlanError::NoLayout => JobError::NoLayout,
    }
}

fn read_lines(heap: Global, text: &[u8], lines: &[u8]) -> Result<Plan, JobError>
    ensures { LinesRead text.now lines.now result }
{
    read_plan(heap, lines).map_err(|error| plan_error(text, error))
}

/// The gates that numbers are, four each.
fn decoded(heap: Global, code: &[u8]) -> Result<Vec<Gate>, AllocError>
    requires { length code.now % 4 ≡ 0 }
    ensures { IfOk result (λ v. v.items ≡ gates_in code.now) }
{
    let mut gates = vec![in heap; Gate::Not(0); code.len() / 4]?;
    decode(code, &mut gates);
    Ok(gates)
}

/// Brings gates on so many qubits onto the device of a plan.
// The room is lent whole, and the answer says how much of it is written: the byte entry allocates nothing.
fn place_gates(heap: Global, qubits: u64, gates: &[Gate], plan: &Plan) -> Result<Compiled, JobError>
    requires { length gates.now ≤ 256 }
    ensures { Brought qubits gates.now (whole plan.now).0 (whole plan.now).1 result }
{
    let mut room = vec![in heap; 0; ROOM * gates.len()]?;
    let mut layout = vec![in heap; 0; qubits as usize]?;
    let count = compile_circuit(
        qubits,
        u64::from(plan.device.size),
        &plan.device.joined,
        &plan.layout,
        gates,
        &mut room,
        &mut layout,
    )?;
    let gates = decoded(heap, &room[..4 * count as usize])?;
    Ok(Compiled { gates, layout })
}

/// Tidies gates, unless they are to be left plain.
// A bool, as the option is given or not; as a closure this step would have to be asked to keep `Improved`, which the test keeps by itself.
fn tidy_unless(plain: bool, gates: &mut Vec<Gate>)
    ensures { Improved gates.old.items gates.new.items }
{
    if !plain {
        let _turn = tidy(gates);
    }
}

/// Brings a circuit onto the device of a plan, tidied before and after unless it is to be left plain.
fn bring(heap: Global, circuit: Circuit, plan: &Plan, plain: bool) -> Result<Compiled, JobError>
    ensures { Brought circuit.qubits circuit.gates.items (whole plan.now).0 (whole plan.now).1 result }
{
    let Circuit { qubits, mut gates } = circuit;
    let request = Request {
        n: qubits,
        size: u64::from(plan.device.size),
        joined: &plan.device.joined,
        place: &plan.layout,
        out: qubits as usize,
    };
    request.check_circuit(&gates)?;
    tidy_unless(plain, &mut gates);
    let mut compiled = place_gates(heap, qubits, &gates, plan)?;
    tidy_unless(plain, &mut compiled.gates);
    Ok(compiled)
}

/// The text of a job: what stands before its device and layout.
pub fn text_of(job: &[u8]) -> &[u8]
    ensures { result.now ≡ text_of job.now }
{
    let (text, _) = job.split_at(text_length(job));
    text
}

/// Compiles a job: the text that is printed. Circuits are tidied before they are brought onto the device and after it, unless they are to be left plain.
pub fn compile_job(heap: Global, job: &[u8], plain: bool) -> Result<String, JobError>
    ensures { Answers job.now result }
{
    let (text, lines) = job.split_at(text_length(job));
    let circuit = read_text(heap, text)?;
    let plan = read_lines(heap, text, lines)?;
    let compiled = bring(heap, circuit, &plan, plain)?;
    Ok(show_compiled(heap, &compiled.gates, &compiled.layout)?)
}
