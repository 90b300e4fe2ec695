//! Why a text is no scene.

ghost use Rattle.std.specs.Prelude.{◌≡◌};
ghost use Rattle.gas_scene.specs.declared.error.SceneError.TheVariants.{Memory};

use std::alloc::AllocError;
use thiserror::Error;

/// Why a text is no scene.
#[derive(Clone, Copy, Debug, PartialEq, Eq, Error)]
pub enum SceneError {
    /// Memory was refused.
    #[error("memory refused")]
    Memory,
    /// The text is no TOML document.
    #[error("scene: not TOML")]
    Syntax,
    /// A key that no scene has.
    #[error("scene: unknown key")]
    UnknownKey,
    /// A key that the scene needs is absent.
    #[error("scene: missing key")]
    Missing,
    /// A value of another type than its key has.
    #[error("scene: wrong type")]
    WrongType,
    /// A value out of its range.
    #[error("scene: out of range")]
    Range,
    /// Both the rows of a map and the keys of an area.
    #[error("scene: both forms")]
    BothForms,
    /// The row of a map with this number has a wrong length.
    #[error("scene: row {0} has a wrong length")]
    RowLength(u32),
    /// The two characters at this row and column of a map are no cell.
    #[error("scene: row {0} cell {1} is not a cell")]
    BadCell(u32, u32),
}

impl From<AllocError> for SceneError {
    ghost from_gives = { λ _ error. error ≡ Memory };

    fn from(_error: AllocError) -> SceneError {
        SceneError::Memory
    }
}
