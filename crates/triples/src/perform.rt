//! The program, between its arguments and its exit status.
ghost use Rattle.std.specs.Prelude.{◌≡◌};
ghost use Rattle.triples.specs.Program.{FiltersInBuffers, Performs};
ghost use Rattle.triples.specs.Run.{use_of};

use crate::counted::Counted;
use crate::filter::filter;
use crate::filter_error::FilterError;
use crate::line_mode::LineMode;
use crate::request::Request;
use crate::run::{conclude, run};
use crate::run_error::RunError;
use std::alloc::Global;
use std::io::{Read, Write};

/// Does what was asked for, and returns the exit status. The closing line goes to the writer, but to the writer of
/// errors after a filter, so that it isn't taken for an answer.
pub fn perform<R: Read, W: Write, E: Write>(
    alloc: Global,
    request: Option<Request>,
    reader: &mut Counted<R>,
    writer: &mut Counted<W>,
    errors: &mut Counted<E>,
) -> u8
    ensures { Performs R.remaining W.contents E.contents request reader.old reader.new writer.old
        writer.new errors.old errors.new result }
{
    match request {
        None => conclude(None, writer),
        Some(Request::Run(mode)) => {
            let end = run(alloc, mode, reader, writer);
            conclude(Some(end), writer)
        }
        Some(Request::Filter(mode)) => {
            let end = filter_in_buffers(mode, reader, writer);
            conclude(Some(end), errors)
        }
    }
}

/// Filters with buffers of a fixed size, in which lines of fewer than 65,536 bytes fit.
fn filter_in_buffers<R: Read, W: Write>(
    mode: LineMode,
    reader: &mut Counted<R>,
    writer: &mut Counted<W>,
) -> Result<(), RunError>
    ensures { FiltersInBuffers mode (use_of R.remaining reader.old reader.new)
        (use_of W.contents writer.old writer.new) result }
{
    let mut input = [0u8; 65536];
    let mut output = [0u8; 81920];
    match filter(mode, &mut input, &mut output, reader, writer) {
        Ok(()) => Ok(()),
        // no machine makes `u64::MAX` reads
        Err(FilterError::Read | FilterError::Endless) => Err(RunError::Read),
        Err(FilterError::Write) => Err(RunError::Write),
    }
}
