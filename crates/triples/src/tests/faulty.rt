//! A reader, writer and formatter target that fails, and that counts its calls.
ghost use Rattle.std.specs.Prelude.{◌≡◌, IfOk, IfSome};

use std::alloc::Global;
use std::io::{ErrorKind, Read, Write};
use std::{fmt, io};

/// Gives its bytes and keeps what it takes, at most `most` bytes a call. Its call number `fault_at`, counted from 0,
/// has a fault, and a flush has the result `flush`.
#[derive(Drop)]
pub(super) struct Faulty<'a> {
    rest: &'a [u8],
    pub kept: Vec<u8>,
    most: usize,
    pub fault_at: usize,
    fault: Option<ErrorKind>,
    pub flush: Result<(), ErrorKind>,
    /// The reads or writes so far.
    pub calls: usize,
    pub flushes: u32,
}

impl<'a> Faulty<'a> {
    /// A reader or writer of one byte a call. At its fault it has this error, or gives or takes no byte.
    pub(super) fn new(
        alloc: Global,
        rest: &'a [u8],
        fault_at: usize,
        fault: Option<ErrorKind>,
    ) -> Self {
        Faulty {
            rest,
            kept: Vec::new(alloc),
            most: 1,
            fault_at,
            fault,
            flush: Ok(()),
            calls: 0,
            flushes: 0,
        }
    }

    /// A reader or writer without a fault, of all bytes in each call.
    pub(super) fn sound(alloc: Global, rest: &'a [u8]) -> Self {
        let mut device = Faulty::new(alloc, rest, usize::MAX, None);
        device.most = usize::MAX;
        device
    }

    /// Counts a call, and gives its fault, if it has one.
    fn fault(&mut self) -> Option<io::Result<usize>>
        ensures { IfSome result (λ fault. IfOk fault (λ count. count ≡ 0)) }
    {
        let at = self.calls;
        self.calls = self.calls.saturating_add(1);
        if at != self.fault_at {
            return None;
        }
        match self.fault {
            Some(kind) => Some(Err(io::Error::from(kind))),
            None => Some(Ok(0)),
        }
    }
}

impl Read for Faulty<'_> {
    fn read(&mut self, buf: &mut [u8]) -> io::Result<usize> {
        if let Some(fault) = self.fault() {
            return fault;
        }
        let count = self.most.min(buf.len()).min(self.rest.len());
        let (given, rest) = self.rest.split_at(count);
        buf[..count].copy_from_slice(given);
        self.rest = rest;
        Ok(count)
    }
}

impl Write for Faulty<'_> {
    fn write(&mut self, buf: &[u8]) -> io::Result<usize> {
        if let Some(fault) = self.fault() {
            return fault;
        }
        let count = self.most.min(buf.len());
        self.kept.extend_from_slice(&buf[..count])?;
        Ok(count)
    }

    fn flush(&mut self) -> io::Result<()> {
        self.flushes = self.flushes.saturating_add(1);
        match self.flush {
            Ok(()) => Ok(()),
            Err(kind) => Err(io::Error::from(kind)),
        }
    }
}

impl fmt::Write for Faulty<'_> {
    fn write_str(&mut self, s: &str) -> fmt::Result {
        match Write::write(self, s.as_bytes()) {
            Ok(count) if count == s.len() => Ok(()),
            _ => Err(fmt::Error),
        }
    }
}
