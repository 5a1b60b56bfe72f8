//! The most common use: a string is parsed, settled and printed.
ghost use Rattle.std.specs.Prelude.{◌≡◌, IfOk, IfErr, string_bytes};
ghost use Rattle.target_lexicon.specs.FixedPoints.{canonical_values};
ghost use Rattle.target_lexicon.specs.Printing.{string_of};
ghost use Rattle.target_lexicon.specs.Parsing.{ParsesAs, IsRefusalOrOutOfMemory};
ghost use Rattle.target_lexicon.specs.Values.{Values};

use std::alloc::Global;
use target_lexicon::{ParseError, Triple};

/// The canonical form of the target that a string names, in any spelling.
pub fn canonical_string(alloc: Global, text: &str) -> Result<String, ParseError>
    ensures ok { IfOk result
        (λ out.
        (t : Values) × ParsesAs text.now t × (string_bytes out ≡ string_of (canonical_values t))) }
    ensures err { IfErr result (λ error. IsRefusalOrOutOfMemory text.now error) }
{
    let triple = Triple::from_str(alloc, text)?;
    Ok(triple.settle().to_text(alloc)?)
}
