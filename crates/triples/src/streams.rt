//! A whole input is read, or a whole output written, through a [`Counted`].
ghost use Rattle.std.specs.Prelude.{◌≡◌, ℕ, List, IfOk, OnOk, IfErr};
ghost use Rattle.triples.specs.Run.{Gives, HasFailed, IsReadErrorOf, IsReadWhole, IsUnfailed, OnlyMoves, StopsLast};
ghost use Rattle.triples.specs.Run.{Takes, TakesBeginning, use_of};

use crate::counted::Counted;
use crate::run_error::RunError;
use std::alloc::Global;
use std::io::{Read, Write};

/// Reads to the end of the reader.
pub fn read_all<R: Read>(alloc: Global, reader: &mut Counted<R>) -> Result<Vec<u8>, RunError>
    ensures whole { OnOk result (IsReadWhole (use_of R.remaining reader.old reader.new)) }
    ensures bytes { IfOk result
        (λ bytes. Gives (use_of R.remaining reader.old reader.new) bytes.items) }
    ensures err { IfErr result
        (λ e.
        (bytes : List ℕ) × Gives (use_of R.remaining reader.old reader.new) bytes
        × IsReadErrorOf (use_of R.remaining reader.old reader.new) bytes e) }
{
    let mut bytes = Vec::new(alloc);
    let mut piece = [0u8; 8192];
    loop {
        let Ok(taken) = reader.read(&mut piece) else {
            return Err(RunError::Read);
        };
        if taken == 0 {
            return Ok(bytes);
        }
        if bytes.extend_from_slice(&piece[..taken]).is_err() {
            return Err(RunError::OutOfMemory);
        }
    }
}

/// Writes all bytes.
pub fn write_all<W: Write>(writer: &mut Counted<W>, bytes: &[u8]) -> Result<(), RunError>
    ensures whole { OnOk result (Takes (use_of W.contents writer.old writer.new) bytes.now) }
    ensures unfailed { OnOk result (IsUnfailed (use_of W.contents writer.old writer.new)) }
    ensures moves { OnOk result (OnlyMoves (use_of W.contents writer.old writer.new)) }
    ensures begun { TakesBeginning (use_of W.contents writer.old writer.new) bytes.now }
    ensures failed { IfErr result
        (λ e. (e ≡ RunError.Write) × HasFailed (use_of W.contents writer.old writer.new)
        × StopsLast (use_of W.contents writer.old writer.new)) }
{
    let mut rest = bytes;
    while !rest.is_empty() {
        let Ok(taken) = writer.write(rest) else {
            return Err(RunError::Write);
        };
        if taken == 0 {
            return Err(RunError::Write);
        }
        rest = &rest[taken..];
    }
    Ok(())
}
