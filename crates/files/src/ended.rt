// How a run ends, and what it prints.
ghost use Rattle.std.specs.Prelude.{◌≡◌, IfErr, IsTrue};
ghost use Rattle.files.specs.Ends.{EndsProcess, TellsOrFails, is_error};
ghost use Rattle.files.specs.declared.ended.Ended.TheVariants.{Refused};

use settlement::refused::RunRefusal;
use std::alloc::AllocError;
use std::io;
use std::io::Write;
use std::process::ExitCode;

// How a run ends that does not reach its end.
#[derive(Drop)]
pub enum Ended {
    Refused(RunRefusal),
    Failed(anyhow::Error),
}

// These three by hand, as contracts cite what `?` makes of them; a derive has no contract.
impl From<RunRefusal> for Ended {
    ghost from_gives = { λ refusal ended. ended ≡ Refused refusal };

    fn from(refusal: RunRefusal) -> Ended {
        Ended::Refused(refusal)
    }
}

impl From<io::Error> for Ended {
    ghost from_gives = { λ _ ended. IsTrue (is_error ended) };

    fn from(error: io::Error) -> Ended {
        Ended::Failed(error.into())
    }
}

impl From<AllocError> for Ended {
    ghost from_gives = { λ _ ended. IsTrue (is_error ended) };

    fn from(error: AllocError) -> Ended {
        Ended::Failed(error.into())
    }
}

pub fn write_line(rt: &HostRuntime, line: &[u8]) -> Result<(), Ended>
    ensures { IfErr result (λ ended. IsTrue (is_error ended)) }
{
    rt.stdout().write_all(line)?;
    Ok(())
}

// Prints the line of a refusal, with its number and its month.
pub fn told(rt: &HostRuntime, ended: Result<(), Ended>) -> Result<(), Ended>
    ensures { TellsOrFails ended result }
{
    if let Err(Ended::Refused(refusal)) = &ended {
        println!(rt; "{refusal}")?;
    }
    ended
}

// What `main` answers: a refusal is told by its line and by the status, anything else on standard error.
pub fn status(ended: Result<(), Ended>) -> anyhow::Result<ExitCode>
    ensures { EndsProcess ended result }
{
    match ended {
        Ok(()) => Ok(ExitCode::SUCCESS),
        Err(Ended::Refused(_)) => Ok(ExitCode::FAILURE),
        Err(Ended::Failed(error)) => Err(error),
    }
}
