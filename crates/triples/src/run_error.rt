//! Why a run fails.
ghost use Rattle.std.specs.Prelude.{◌≡◌, Some};

use std::alloc::AllocError;
use std::fmt;

/// The error that ends a run.
#[derive(Clone, Copy, Debug, PartialEq, Eq)]
pub enum RunError {
    /// A read failed.
    Read,
    /// A write or the flush failed, or a write took no byte of a piece.
    Write,
    /// The whole input was read and is not UTF-8.
    NotUtf8,
    /// The whole input was read and is not JSON.
    NotJson,
    /// The whole input was read and is JSON but not a list.
    NotList,
    /// An allocation failed.
    OutOfMemory,
}

impl RunError {
    ghost use Rattle.triples.specs.Faults.{line_of};

    /// The line that a program prints for the error.
    pub(crate) fn line(self) -> &'static str
        ensures { result.now ≡ line_of self }
    {
        match self {
            RunError::Read => "Read failed",
            RunError::Write => "Write failed",
            RunError::NotUtf8 => "Input is not UTF-8",
            RunError::NotJson => "Input is not JSON",
            RunError::NotList => "Input is not a JSON list",
            RunError::OutOfMemory => "Out of memory",
        }
    }
}

impl From<AllocError> for RunError {
    ghost use Rattle.triples.specs.declared.run_error.RunError.TheVariants.{OutOfMemory};

    ghost from_gives = { λ _ error. error ≡ OutOfMemory };

    fn from(_error: AllocError) -> RunError {
        RunError::OutOfMemory
    }
}

impl fmt::Display for RunError {
    ghost use Rattle.triples.specs.Faults.{line_of};

    ghost output = { λ error. Some (line_of error) };

    ghost styled_output = { λ error _. Some (line_of error) };

    fn fmt<W: fmt::Write>(&self, f: &mut fmt::Formatter<W>) -> fmt::Result {
        f.write_str(self.line())
    }
}
