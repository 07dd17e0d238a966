//! What a program is given, and how it ends.
ghost use Rattle.std.specs.Prelude.{◌≡◌, Ok, Err, option_map};
ghost use Rattle.console.specs.Pages.{asked};

use std::io::Read;
use std::process::ExitCode;
use std::{fmt, fs, io};

/// There is no answer; standard error says why.
#[derive(Clone, Copy, PartialEq, Eq, Debug)]
pub struct NoAnswer;

// By hand: the error is let go, as a derived `From` would not.
impl From<io::Error> for NoAnswer {
    fn from(_e: io::Error) -> NoAnswer {
        NoAnswer
    }
}

/// How a program ends: an error that `main` returned would be written once more.
pub fn exit_code(answer: Result<(), NoAnswer>) -> ExitCode
    ensures { result ≡ elim answer [ Ok _ ↦ ExitCode.SUCCESS | Err _ ↦ ExitCode.FAILURE ] }
{
    match answer {
        Ok(()) => ExitCode::SUCCESS,
        Err(NoAnswer) => ExitCode::FAILURE,
    }
}

/// The page that a first argument asks for, if it asks for one.
pub fn page<'a>(word: &str, help: &'a str, version: &'a str) -> Option<&'a str>
    ensures { option_map (λ p. p.now) result ≡ asked help.now version.now word.now }
{
    match word {
        "--help" => Some(help),
        "--version" => Some(version),
        _ => None,
    }
}

/// Says on standard error why a program has no answer.
pub fn fail<W: fmt::Display + Drop>(
    rt: &HostRuntime,
    program: &str,
    why: W,
) -> Result<(), NoAnswer> {
    eprintln!(rt; "{program}: {why}; --help tells more")?;
    Err(NoAnswer)
}

/// The bytes of a file, or of standard input where it is named `-`.
pub fn read_input(rt: &HostRuntime, program: &str, name: &str) -> Result<Vec<u8>, NoAnswer> {
    if name == "-" {
        let mut bytes = Vec::new(rt.alloc());
        rt.stdin().read_to_end(&mut bytes)?;
        return Ok(bytes);
    }
    match fs::read(rt, name) {
        Ok(bytes) => Ok(bytes),
        Err(error) => {
            eprintln!(rt; "{program}: {name}: {error}")?;
            Err(NoAnswer)
        }
    }
}
