//! Refusals and errors in words.
ghost use Rattle.std.specs.Prelude.{◌≡◌, Some};
ghost use Rattle.message.specs.Reasons.{compare_error_text, counted, job_error_text, meaning, reason};

use crate::comparing::CompareError;
use crate::compiling::JobError;
use circuit::Refusal;
use std::fmt;

/// What the place of a refusal counts: words alone, which the `Display` of `Reason` writes around its number and its place.
fn counted(refusal: Refusal) -> &'static str
    ensures { result.now ≡ counted refusal }
{
    match refusal {
        Refusal::Length(_) => "list ",
        Refusal::Gate(_) => "gate ",
        Refusal::Layout(_) => "qubit ",
        Refusal::Text(_) => "sign ",
        _ => "",
    }
}

/// What it means, in words alone too.
fn meaning(refusal: Refusal) -> &'static str
    ensures { result.now ≡ meaning refusal }
{
    match refusal {
        Refusal::Qubits(_) => "no qubit, or more than are taken",
        Refusal::Length(_) => "it is not as long as it should be",
        Refusal::Number(_) => "a number that should not stand there",
        Refusal::Gate(_) => "a qubit that is not there, or one twice",
        Refusal::Layout(_) => "a place that is not there, or one twice",
        Refusal::Device(_) =>
            "two places that are joined one way only, or with no way between them",
        Refusal::Room(_) => "too little room",
        Refusal::Mixes(_) => "more than 60 mixes in the two together",
        Refusal::Text(_) => "the text cannot be read, or says too many gates",
    }
}

/// A refusal, shown with its number, its place and what it means.
#[derive(Clone, Copy)]
pub struct Reason(pub Refusal);

impl fmt::Display for Reason {
    ghost output = { λ r. Some (reason r.0) };

    fn fmt<W: fmt::Write>(&self, f: &mut fmt::Formatter<W>) -> fmt::Result {
        let number = self.0.number();
        let place = self.0.place();
        let counted = counted(self.0);
        let meaning = meaning(self.0);
        write!(f, "refused {number} at {counted}{place}: {meaning}")
    }
}

impl fmt::Display for JobError {
    ghost output = { λ e. Some (job_error_text e) };

    fn fmt<W: fmt::Write>(&self, f: &mut fmt::Formatter<W>) -> fmt::Result {
        match self {
            JobError::Memory => write!(f, "out of memory"),
            JobError::Refused(refusal) => write!(f, "{}", Reason(*refusal)),
            JobError::Line(_) => write!(f, "no line of a job, or one that cannot stand here"),
            JobError::NoDevice => write!(f, "no line gives a device"),
            JobError::NoLayout => write!(f, "no line gives a layout"),
        }
    }
}

impl fmt::Display for CompareError {
    ghost output = { λ e. Some (compare_error_text e) };

    fn fmt<W: fmt::Write>(&self, f: &mut fmt::Formatter<W>) -> fmt::Result {
        match self {
            CompareError::Memory => write!(f, "out of memory"),
            CompareError::Text(_, refusal) | CompareError::Refused(refusal) => {
                write!(f, "{}", Reason(*refusal))
            }
        }
    }
}
