//! The faults, from the command line to the answer, and their exit statuses.

ghost use Rattle.std.specs.Prelude.{◌≡◌, ◌≢◌};
ghost use Rattle.gas_pipe_members.specs.declared.plan.RunError.TheVariants as run;
ghost use Rattle.gas_scene.specs.declared.error.SceneError.TheVariants as scene;
ghost use Rattle.gas_tool.specs.declared.faults.ToolError.TheVariants.{Memory, Scene, Plan, Write, MorePasses};

use gas_pipe::{PlanError, RunError};
use gas_scene::error::SceneError;
pub use gas_tool_cli::words::UsageFault;
pub use gas_tool_io::input::InputFault;
pub use gas_tool_io::text::WriteFault;
use std::alloc::AllocError;
use thiserror::Error;

/// Why a request was not answered whole. Its `Display` text is the line that the program prints.
/// `Write` contains the number of bytes that went out before the writer failed.
#[derive(Debug, Drop, Error)]
pub enum ToolError {
    #[error("memory refused")]
    Memory,
    #[error("{0}")]
    Scene(SceneError),
    #[error("{0}")]
    Plan(PlanError),
    #[error("{line}", line = WriteFault {written: *.0})]
    Write(u64),
    #[error("{line}", line = RunError::MorePasses)]
    MorePasses,
}

impl ToolError {
    ghost use Rattle.std.specs.Prelude.{◌≡◌};
    ghost use Rattle.gas_tool.specs.Program.{exit_status};
    ghost use Rattle.gas_tool.specs.declared.program.Fault.TheVariants.{Tool};

    /// The program's exit status: 1 if something was refused, 3 for memory, 4 for a writer
    /// that failed.
    pub fn status(&self) -> u8
        ensures status { result ≡ exit_status (Tool self.now) }
    {
        match self {
            ToolError::Memory | ToolError::Scene(SceneError::Memory) => 3,
            ToolError::Scene(_) | ToolError::Plan(_) | ToolError::MorePasses => 1,
            ToolError::Write(_) => 4,
        }
    }
}

impl From<AllocError> for ToolError {
    ghost from_gives = { λ _ fault. fault ≡ Memory };

    fn from(_error: AllocError) -> ToolError {
        ToolError::Memory
    }
}

impl From<SceneError> for ToolError {
    ghost from_gives = { λ error fault.
        (error ≡ scene.Memory → fault ≡ Memory)
        × (error ≢ scene.Memory → fault ≡ Scene error) };

    fn from(error: SceneError) -> ToolError {
        match error {
            SceneError::Memory => ToolError::Memory,
            _ => ToolError::Scene(error),
        }
    }
}

impl From<PlanError> for ToolError {
    ghost from_gives = { λ error fault. fault ≡ Plan error };

    fn from(error: PlanError) -> ToolError {
        ToolError::Plan(error)
    }
}

impl From<RunError> for ToolError {
    ghost from_gives = { λ error fault.
        (error ≡ run.Memory → fault ≡ Memory)
        × (error ≡ run.MorePasses → fault ≡ MorePasses) };

    fn from(error: RunError) -> ToolError {
        match error {
            RunError::Memory => ToolError::Memory,
            RunError::MorePasses => ToolError::MorePasses,
        }
    }
}

impl From<WriteFault> for ToolError {
    ghost from_gives = { λ error fault. fault ≡ Write error.written };

    fn from(error: WriteFault) -> ToolError {
        ToolError::Write(error.written)
    }
}
