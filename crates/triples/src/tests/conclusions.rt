//! The end of the program: each status and closing line, over a writer that fails at each write, and errors printed.

use super::faulty::Faulty;
use crate::counted::Counted;
use crate::run::conclude;
use crate::run_error::RunError;
use std::fmt::Write as _;
use std::io::ErrorKind;

/// Each end, its status, and its closing line.
#[rattlefmt::skip]
static ENDS: [(Option<Result<(), RunError>>, u8, &str); 8] = [
    (None, 2, "usage: triples [MODE]\n"),
    (Some(Ok(())), 0, ""),
    (Some(Err(RunError::Read)), 1, "fault: Read failed\n"),
    (Some(Err(RunError::Write)), 1, "fault: Write failed\n"),
    (Some(Err(RunError::NotUtf8)), 1, "fault: Input is not UTF-8\n"),
    (Some(Err(RunError::NotJson)), 1, "fault: Input is not JSON\n"),
    (Some(Err(RunError::NotList)), 1, "fault: Input is not a JSON list\n"),
    (Some(Err(RunError::OutOfMemory)), 1, "fault: Out of memory\n"),
];

/// The line is written up to the write that has a fault, where each write takes one byte, and the status is the same.
/// The flush fails too; there is none if there is no line.
#[test]
fn concludes(rt: HostRuntime) {
    for (end, status, line) in &ENDS {
        for at in 0..line.len() + 1 {
            let mut writer = Faulty::new(rt.alloc(), b"", at, None);
            writer.flush = Err(ErrorKind::BrokenPipe);
            let mut writer = Counted::new(writer);
            let found = conclude(*end, &mut writer);
            let writer = writer.into_inner();
            let written = at.saturating_add(1).min(line.len());
            let flushes = u32::from(at == line.len() && at > 0);
            let is_expected = (found, writer.calls, writer.flushes) == (*status, written, flushes);
            let beginning = line.as_bytes().get(..at);
            assert!(rt;
                is_expected && beginning == Some(writer.kept.as_slice()),
                "{line}"
            );
        }
    }
}

/// An error prints its line in one piece, also with a width and a fill, and fails if its target does.
#[test]
fn errors_print_their_lines(rt: HostRuntime) {
    for (end, _, line) in &ENDS {
        if let Some(Err(error)) = end {
            let mut target = Faulty::sound(rt.alloc(), b"");
            let done = write!(target, "fault: {error}\nfault: {error:*>40}\n");
            let second = target.kept.strip_prefix(line.as_bytes());
            assert!(rt; done.is_ok() && second == Some(line.as_bytes()), "{line}");
            for at in 0..2 {
                let mut target = Faulty::sound(rt.alloc(), b"");
                target.fault_at = at;
                let is_done = write!(target, "{error}").is_ok();
                assert!(rt; is_done == (at == 1) && target.calls == 1, "{line}");
            }
        }
    }
}
