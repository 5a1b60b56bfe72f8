//! A run, from a reader to a writer, and the end of the program.
ghost use Rattle.std.specs.Prelude.{◌≡◌, [], ◌∷◌, ◌++◌, string_bytes, IfErr, IfOk, IfSome, OnOk};
ghost use Rattle.triples.specs.Run.{EndsAs, HasFailed, IsUnfailed, StopsLast, StopsOnce, Takes, TakesBeginning, use_of};
ghost use Rattle.triples.specs.Streams.{calls};
ghost use Rattle.triples.specs.Lines.{line_feed};
ghost use Rattle.triples.specs.Output.{IsOutput};
ghost use Rattle.triples.specs.Private.{HasNoOutput};
ghost use Rattle.triples.specs.Words.{status_of, closing_words};

use crate::counted::Counted;
use crate::json::json_output;
use crate::line_mode::LineMode;
use crate::lines::answers;
use crate::matrix::matrix;
use crate::mode::Mode;
use crate::run_error::RunError;
use crate::streams::{read_all, write_all};
use std::alloc::Global;
use std::io::{Read, Write};

/// Reads the input to its end, writes the output of the mode, and flushes once.
///
/// A line that is refused gives a line of `error: ` and why. An interrupted call is an error like any other. If the
/// reader never ends, the run ends when memory runs out.
///
/// # Errors
///
/// After each error but `Write` nothing was written.
///
/// - [`RunError::Read`] if and only if a read failed.
/// - [`RunError::NotUtf8`] if the whole input was read and is not UTF-8.
/// - [`RunError::NotJson`] if the whole input was read in mode `json` and is UTF-8 but not JSON.
/// - [`RunError::NotList`] if the whole input was read in mode `json` and is JSON but not a list.
/// - [`RunError::OutOfMemory`] if an allocation failed, which happens only after a byte was read.
/// - [`RunError::Write`] if and only if a write or the flush failed, or a write took no byte of a piece. A beginning of
///   the output was written.
pub fn run<R: Read, W: Write>(
    alloc: Global,
    mode: Mode,
    r: &mut Counted<R>,
    w: &mut Counted<W>,
) -> Result<(), RunError>
    ensures ends { EndsAs mode (use_of R.remaining r.old r.new) (use_of W.contents w.old w.new)
        result }
{
    let bytes = read_all(alloc, r)?;
    let Ok(input) = str::from_utf8(&bytes) else {
        return Err(RunError::NotUtf8);
    };
    let output = output_of(alloc, mode, input)?;
    write_all(w, output.as_bytes())?;
    match w.flush() {
        Ok(()) => Ok(()),
        Err(_) => Err(RunError::Write),
    }
}

/// The output of the mode for an input, or why there is none.
fn output_of(alloc: Global, mode: Mode, input: &str) -> Result<String, RunError>
    ensures output { IfOk result (λ output. IsOutput mode input.now (string_bytes output)) }
    ensures err { IfErr result (λ e. HasNoOutput mode input.now e) }
{
    match mode {
        Mode::Print => Ok(answers(alloc, LineMode::Print, input)?),
        Mode::Show => Ok(answers(alloc, LineMode::Show, input)?),
        Mode::Settle => Ok(answers(alloc, LineMode::Settle, input)?),
        Mode::Matrix => Ok(matrix(alloc, input)?),
        Mode::Json => json_output(alloc, input),
    }
}

/// Writes the closing line of the program, and returns the exit status:
/// - after a successful run no line, and 0;
/// - after a failed run `fault: ` and the line of the error, and 1;
/// - if there was no run, the usage line, and 2.
///
/// If the writer fails, a part of the line may be missing; the status is the same.
pub fn conclude<W: Write>(end: Option<Result<(), RunError>>, w: &mut Counted<W>) -> u8
    ensures status { result ≡ status_of end }
    ensures said { IsUnfailed (use_of W.contents w.old w.new) →
        Takes (use_of W.contents w.old w.new) (closing_words end) }
    ensures begun { TakesBeginning (use_of W.contents w.old w.new) (closing_words end) }
    ensures once { StopsOnce (use_of W.contents w.old w.new) }
    ensures quiet { IfSome end (λ result. OnOk result (calls w.new ≡ calls w.old)) }
{
    match end {
        Some(Ok(())) => 0,
        Some(Err(error)) => {
            let _ = write_line(w, "fault: ", error.line());
            1
        }
        None => {
            let _ = write_line(w, "usage: ", "triples [MODE]");
            2
        }
    }
}

/// Writes the first word of a line, the rest of it and a line feed, and flushes. If the writer fails, a part of the
/// line may be missing.
fn write_line<W: Write>(writer: &mut Counted<W>, word: &str, rest: &str) -> Result<(), RunError>
    ensures whole { OnOk result
        (Takes (use_of W.contents writer.old writer.new)
        (word.now ++ (rest.now ++ line_feed ∷ []))) }
    ensures unfailed { OnOk result (IsUnfailed (use_of W.contents writer.old writer.new)) }
    ensures begun { TakesBeginning (use_of W.contents writer.old writer.new)
        (word.now ++ (rest.now ++ line_feed ∷ [])) }
    ensures failed { IfErr result
        (λ e. (e ≡ RunError.Write) × HasFailed (use_of W.contents writer.old writer.new)) }
    ensures stops { StopsLast (use_of W.contents writer.old writer.new) }
{
    write_all(writer, word.as_bytes())?;
    write_all(writer, rest.as_bytes())?;
    write_all(writer, b"\n")?;
    let Ok(()) = writer.flush() else {
        return Err(RunError::Write);
    };
    Ok(())
}
