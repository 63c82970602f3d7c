ghost use Rattle.std.specs.Prelude.{◌≡◌, if◌then◌else◌, true, IsOk, IsErr, IfOk, IfErr, is_ok};
ghost use Rattle.std.specs.Process.{exit_status};
ghost use Rattle.console.specs.Ending.{is_failed};

use bundle::Refusal;
use std::alloc::AllocError;
use std::io;
use std::process::ExitCode;

// Why a program prints nothing else: what was asked is refused, or something outside failed.
// Why From by hand: `Failed` holds any error, and `#[from]` of thiserror makes a variant for each.
#[derive(Drop)]
pub enum Stop {
    Refused(Refusal),
    Failed(anyhow::Error),
}

impl From<Refusal> for Stop {
    fn from(refusal: Refusal) -> Stop {
        Stop::Refused(refusal)
    }
}

impl From<io::Error> for Stop {
    fn from(error: io::Error) -> Stop {
        Stop::Failed(error.into())
    }
}

impl From<AllocError> for Stop {
    fn from(error: AllocError) -> Stop {
        Stop::Failed(error.into())
    }
}

// How a program ends: a refusal is printed as one line, what failed outside is reported, and either ends it with status 1.
pub fn finish(rt: &HostRuntime, res: Result<(), Stop>) -> anyhow::Result<ExitCode>
    ensures done { IsOk res → IsOk result }
    ensures failed { IfErr res (λ stop. is_failed stop ≡ true → IsErr result) }
    ensures status { IfOk result (λ code. exit_status code ≡ (if is_ok res then 0 else 1)) }
{
    match res {
        Ok(()) => Ok(ExitCode::SUCCESS),
        Err(Stop::Refused(refusal)) => {
            println!(rt; "{refusal}")?;
            Ok(ExitCode::FAILURE)
        }
        Err(Stop::Failed(error)) => Err(error),
    }
}
