//! Mode `matrix`: each canonical triple once, at its first line.
ghost use Rattle.std.specs.Prelude.{◌≡◌, ◌<◌, ◌++◌, ◌∷◌, [], length, string_bytes, if◌then◌else◌, IfOk, OnOk, OnErr};
ghost use Rattle.std.specs.HashSet.{contains_text};
ghost use Rattle.triples.specs.Lines.{line_feed, lines_of};
ghost use Rattle.triples.specs.Output.{IsMatrix};
ghost use Rattle.triples.specs.Private.{AddsEntry, HasOneMore};

use crate::lines::push_refusal;
use std::alloc::{AllocError, Global};
use std::collections::HashSet;
use target_lexicon::Triple;
use target_lexicon::laws::read_vendors_are_plain;

/// The matrix of the lines of an input.
pub(crate) fn matrix(alloc: Global, input: &str) -> Result<String, AllocError>
    ensures output { IfOk result (λ output. IsMatrix (lines_of input.now) (string_bytes output)) }
    ensures memory { OnErr result (0 < length input.now) }
{
    let mut output = String::new(alloc);
    let mut seen = HashSet::new(alloc);
    for line in input.split_terminator('\n') {
        push_entry(alloc, &mut output, &mut seen, line)?;
    }
    Ok(output)
}

/// Appends the answer to a line, and a line feed, unless it is a canonical triple that an earlier line has.
fn push_entry(
    alloc: Global,
    output: &mut String,
    seen: &mut HashSet<String>,
    line: &str,
) -> Result<(), AllocError>
    ensures { OnOk result
        (AddsEntry line.now (string_bytes output.old) (string_bytes output.new) seen.old
        seen.new) }
{
    read_vendors_are_plain();
    match Triple::from_str(alloc, line) {
        Ok(triple) => push_first(output, seen, triple.settle().to_text(alloc)?),
        Err(error) => push_refusal(output, error),
    }
}

/// Appends a string and a line feed if it was not seen before, and adds it to what was seen.
fn push_first(
    output: &mut String,
    seen: &mut HashSet<String>,
    text: String,
) -> Result<(), AllocError>
    ensures output { OnOk result
        (string_bytes output.new
        ≡ string_bytes output.old
        ++ (if contains_text seen.old (string_bytes text) then [] else string_bytes text
        ++ line_feed ∷ [])) }
    ensures seen { OnOk result (HasOneMore seen.old seen.new (string_bytes text)) }
{
    if !seen.contains(&text) {
        output.push_str(&text)?;
        output.push('\n')?;
        seen.insert(text)?;
    }
    Ok(())
}
