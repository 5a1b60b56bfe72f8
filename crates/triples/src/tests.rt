//! Runs of each mode over the rows, and each read, write and flush that fails in turn.

mod conclusions;
mod counted;
mod faulty;
mod rows;

use crate::counted::Counted;
use crate::mode::Mode;
use crate::run::run;
use crate::run_error::RunError;
use faulty::Faulty;
use rows::{REFUSED_ROWS, ROWS};
use std::alloc::Global;
use std::io::ErrorKind;
use std::mem::size_of;

const _: () = prove!(size_of::<Counted<u64>>() == size_of::<u64>());

const _: () = prove!(size_of::<Counted<Vec<u8>>>() == size_of::<Vec<u8>>());

/// Two kinds of errors that code may treat in its own way.
const SPECIAL_KINDS: [ErrorKind; 2] = [ErrorKind::Interrupted, ErrorKind::BrokenPipe];

/// The outcome of a run, its reads, writes and flushes, and how many bytes were kept; `None` if these aren't a beginning
/// of the output.
type Trace = Option<(Result<(), RunError>, usize, usize, u32, usize)>;

fn run_trace(
    alloc: Global,
    mode: Mode,
    reader: Faulty<'_>,
    writer: Faulty<'_>,
    output: &str,
) -> Trace {
    let mut reader = Counted::new(reader);
    let mut writer = Counted::new(writer);
    let outcome = run(alloc, mode, &mut reader, &mut writer);
    let writer = writer.into_inner();
    if !output.as_bytes().starts_with(&writer.kept) {
        return None;
    }
    let kept = writer.kept.len();
    Some((
        outcome,
        reader.into_inner().calls,
        writer.calls,
        writer.flushes,
        kept,
    ))
}

/// The run ends at the read that fails: it reads no more and writes nothing. The last read finds the end of the input.
#[test]
fn each_read_fails_in_turn(rt: HostRuntime) {
    let alloc = rt.alloc();
    for (mode, input, output) in &ROWS {
        for kind in SPECIAL_KINDS {
            for at in 0..input.len() + 1 {
                let reader = Faulty::new(alloc, input.as_bytes(), at, Some(kind));
                let found = run_trace(alloc, *mode, reader, Faulty::sound(alloc, b""), output);
                let expected = Some((Err(RunError::Read), at.saturating_add(1), 0, 0, 0));
                assert!(rt; found == expected, "{input}, read {at}");
            }
        }
    }
}

/// The run ends at the write that has a fault: it writes no more. If all bytes are written before, it is successful.
#[test]
fn each_write_fails_in_turn(rt: HostRuntime) {
    let alloc = rt.alloc();
    for (mode, input, output) in &ROWS {
        for fault in [
            Some(ErrorKind::Interrupted),
            Some(ErrorKind::BrokenPipe),
            None,
        ] {
            for at in 0..output.len() + 1 {
                let reader = Faulty::sound(alloc, input.as_bytes());
                let writer = Faulty::new(alloc, b"", at, fault);
                let found = run_trace(alloc, *mode, reader, writer, output);
                let reads = input.len().min(1) + 1;
                let expected = if at == output.len() {
                    (Ok(()), reads, at, 1, at)
                } else {
                    (Err(RunError::Write), reads, at.saturating_add(1), 0, at)
                };
                assert!(rt; found == Some(expected), "{input}, write {at}");
            }
        }
    }
}

/// Each output is written by one write and one flush, which may fail.
#[test]
fn each_output_is_written_whole(rt: HostRuntime) {
    let alloc = rt.alloc();
    for (mode, input, output) in &ROWS {
        for (flush, outcome) in [
            (Ok(()), Ok(())),
            (Err(ErrorKind::Interrupted), Err(RunError::Write)),
            (Err(ErrorKind::BrokenPipe), Err(RunError::Write)),
        ] {
            let reader = Faulty::new(alloc, input.as_bytes(), usize::MAX, None);
            let mut writer = Faulty::sound(alloc, b"");
            writer.flush = flush;
            let found = run_trace(alloc, *mode, reader, writer, output);
            let size = output.len();
            let expected = Some((outcome, input.len() + 1, size.min(1), 1, size));
            assert!(rt; found == expected, "{input}");
        }
    }
}

/// An output of many buffers is written by one write too.
#[test]
fn a_large_output_is_written_whole(rt: HostRuntime) {
    let alloc = rt.alloc();
    let Ok(input) = "avr-pc-none\n".repeat(alloc, 30_000) else {
        panic!(rt; "out of memory");
    };
    let reader = Faulty::sound(alloc, input.as_bytes());
    let writer = Faulty::sound(alloc, b"");
    let found = run_trace(alloc, Mode::Print, reader, writer, input.as_str());
    assert!(rt; found == Some((Ok(()), 45, 1, 1, 360_000)));
}

/// An input without an output is read to its end, and nothing is written.
#[test]
fn a_refused_input_is_read_whole(rt: HostRuntime) {
    let alloc = rt.alloc();
    for (mode, input, error) in &REFUSED_ROWS {
        let reader = Faulty::new(alloc, input, usize::MAX, None);
        let found = run_trace(alloc, *mode, reader, Faulty::sound(alloc, b""), "");
        let expected = Some((Err(*error), input.len() + 1, 0, 0, 0));
        assert!(rt; found == expected, "{mode:?} {error}");
    }
}
