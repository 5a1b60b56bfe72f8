//! What calls did, for contracts.
ghost use Rattle.std.specs.Prelude.{◌≡◌, List, [], ◌∷◌};
ghost use Rattle.std.specs.Borrow.{ftrue};
ghost use Rattle.triples.specs.Calls.{Call, After, bytes_of, call_of};

use std::marker::Model;

/// What a call did.
pub enum Outcome {
    /// A read gave bytes, or a write took them.
    Moved,
    /// A read found the end.
    Ended,
    /// What was written was flushed.
    Flushed,
    /// It failed.
    Failed,
}

/// The calls of a reader or writer, the latest first. It takes no memory; only contracts see it.
#[derive(Drop)]
pub struct Trace {
    pub ghost calls: { List Call },
}

impl Model for Trace {
    ghost also_owns = { λ _. ftrue };
}

impl Trace {
    /// A trace of no calls.
    pub fn new() -> Self
        ensures { result ≡ record { calls = [] } }
    {
        Trace {}
    }

    /// This trace, and a call that ended so. The bytes are those that it moved, if it did.
    pub fn with(&self, _how: &Outcome, _bytes: &[u8]) -> Self
        ensures { result ≡ record { calls = call_of _how.now _bytes.now ∷ self.now.calls } }
    {
        Trace {}
    }

    /// This trace, and which bytes a writer had taken before the next call.
    pub fn after(&self, _writer: &Trace) -> Self
        ensures { result ≡ record { calls = After (bytes_of _writer.now.calls) ∷ self.now.calls } }
    {
        Trace {}
    }
}
