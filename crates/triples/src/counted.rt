//! A reader or writer with a trace of its calls, and so with a count of its failures. Only this file can change these,
//! so that no other contract can claim a call, a failure, or bytes, that there were not.
ghost use Rattle.std.specs.Prelude.{◌≡◌, ◌+◌, ◌∷◌, ◌++◌, [], IsTrue, is_ok};
ghost use Rattle.std.specs.Io.{ReadsAtMost, WritesAtMost};
ghost use Rattle.std.specs.Io.KnownBytes.{Keeps, ReadConsumes, WriteAppends};
ghost use Rattle.triples.specs.Calls.{After, stops_last};
ghost use Rattle.triples.specs.Streams.{calls, inner, failures, moved, is_ended, failures_of, write_failures_of};
ghost use Rattle.triples.specs.Streams.{moved_by, finds_end, stops, stops_by, is_last_by, read_call, write_call};
ghost use Rattle.triples.specs.Streams.{flush_call};

use crate::trace::{Outcome, Trace};
use std::io;
use std::io::{Read, Write};

/// A reader or writer, and a trace of its calls, with the number of those that failed. Each call makes the same call of
/// the reader or writer and returns its result.
#[derive(Drop)]
pub struct Counted<D> {
    inner: D,
    /// One entry for each call: only contracts see them. It takes no memory, and the number of failures has no upper
    /// limit.
    trace: Trace,
}

impl<D> Counted<D> {
    /// The reader or writer, with no call.
    pub fn new(of: D) -> Self
        ensures inner { inner result ≡ of }
        ensures count { failures result ≡ 0 }
        ensures calls { calls result ≡ [] }
    {
        Counted {
            inner: of,
            trace: Trace::new(),
        }
    }

    /// The reader or writer.
    pub fn into_inner(self) -> D
        ensures { result ≡ inner self }
    {
        let Counted { inner, trace: _ } = self;
        inner
    }
}

impl<R: Read> Counted<R> {
    /// One read. The count rises by one if and only if it fails.
    pub fn read(&mut self, buf: &mut [u8]) -> io::Result<usize>
        ensures bound { ReadsAtMost result buf.new }
        ensures bytes { ReadConsumes (R.remaining (inner self.old)) (R.remaining (inner self.new))
            result buf.new }
        ensures call { calls self.new ≡ read_call result buf.new ∷ calls self.old }
        ensures count { failures self.new ≡ failures self.old + failures_of result }
        ensures moved { moved self.new ≡ moved self.old ++ moved_by result buf.new }
        ensures stops { stops self.new ≡ stops self.old + stops_by result buf.new }
        ensures last { stops_last (calls self.new) ≡ is_last_by result buf.new }
        ensures ended { is_ended self.new ≡ finds_end result buf.new }
    {
        let answer = self.inner.read(buf);
        match answer {
            Ok(0) if !buf.is_empty() => self.trace = self.trace.with(&Outcome::Ended, &[]),
            Ok(count) => self.trace = self.trace.with(&Outcome::Moved, &buf[..count]),
            Err(_) => self.trace = self.trace.with(&Outcome::Failed, &[]),
        }
        answer
    }

    /// One read, after which the trace also has what the writer had taken before it.
    pub fn read_after<W>(&mut self, writer: &Counted<W>, buf: &mut [u8]) -> io::Result<usize>
        ensures bound { ReadsAtMost result buf.new }
        ensures bytes { ReadConsumes (R.remaining (inner self.old)) (R.remaining (inner self.new))
            result buf.new }
        ensures call { calls self.new
            ≡ read_call result buf.new ∷ (After (moved writer.now) ∷ calls self.old) }
    {
        self.trace = self.trace.after(&writer.trace);
        self.read(buf)
    }
}

impl<W: Write> Counted<W> {
    /// One write. The count rises by one if and only if it fails, or takes no byte of a piece that is not empty.
    pub fn write(&mut self, buf: &[u8]) -> io::Result<usize>
        ensures bound { WritesAtMost result buf.now }
        ensures bytes { WriteAppends (W.contents (inner self.old)) (W.contents (inner self.new))
            result buf.now }
        ensures call { calls self.new ≡ write_call result buf.now ∷ calls self.old }
        ensures count { failures self.new ≡ failures self.old + write_failures_of result buf.now }
        ensures moved { moved self.new ≡ moved self.old ++ moved_by result buf.now }
        ensures stops { stops self.new ≡ stops self.old + stops_by result buf.now }
        ensures last { stops_last (calls self.new) ≡ is_last_by result buf.now }
    {
        let answer = self.inner.write(buf);
        match answer {
            Ok(0) if !buf.is_empty() => self.trace = self.trace.with(&Outcome::Failed, &[]),
            Ok(count) => self.trace = self.trace.with(&Outcome::Moved, &buf[..count]),
            Err(_) => self.trace = self.trace.with(&Outcome::Failed, &[]),
        }
        answer
    }

    /// One flush. The count rises by one if and only if it fails.
    pub fn flush(&mut self) -> io::Result<()>
        ensures bytes { Keeps (W.contents (inner self.old)) (W.contents (inner self.new)) }
        ensures call { calls self.new ≡ flush_call result ∷ calls self.old }
        ensures count { failures self.new ≡ failures self.old + failures_of result }
        ensures moved { moved self.new ≡ moved self.old }
        ensures stops { stops self.new ≡ stops self.old + 1 }
        ensures last { IsTrue (stops_last (calls self.new)) }
        ensures ended { is_ended self.new ≡ is_ok result }
    {
        let answer = self.inner.flush();
        match answer {
            Ok(()) => self.trace = self.trace.with(&Outcome::Flushed, &[]),
            Err(_) => self.trace = self.trace.with(&Outcome::Failed, &[]),
        }
        answer
    }
}
