//! A literal: the proof computes what it parses as.
ghost use Rattle.std.specs.Prelude.{◌≡◌, IsOkAnd};
ghost use Rattle.target_lexicon.specs.Values.{host_values, values_of};

use std::alloc::Global;
use target_lexicon::{ParseError, Triple, laws};

/// The host's triple, by its name. It needs no memory.
pub fn host_by_text(alloc: Global) -> Result<Triple, ParseError>
    ensures { IsOkAnd result (λ triple. values_of triple ≡ host_values) }
{
    laws::results_are_computed();
    Triple::from_str(alloc, "x86_64-unknown-linux-gnu")
}
