//! Why a JSON value doesn't parse as a list of triples.
ghost use Rattle.std.specs.Prelude.{◌++◌, Some, codes};
ghost use Rattle.std.specs.Fmt.{WritesStyledOnOk, decimal};
ghost use Rattle.target_lexicon.specs.Json.{json_error_value, json_error_line};

use crate::json_error::JsonError;
use lexicon_fields::{MAX_DECIMAL_LENGTH, decimal_text};
use std::fmt;

/// Why a JSON value doesn't parse as a list of triples.
#[derive(Debug, PartialEq, Eq, Drop)]
pub enum ListError {
    /// The value is not an array.
    NotList,
    /// The index of the first element that doesn't parse, counted from 0, and why: it is refused, or an allocation
    /// failed.
    Element(usize, JsonError),
    /// An allocation for the list itself failed.
    OutOfMemory,
}

impl fmt::Display for ListError {
    ghost use Rattle.target_lexicon.specs.Json.{list_error_value, list_error_line};

    ghost output = { λ error. Some (list_error_line (list_error_value error)) };

    ghost styled_output = { λ error _. Some (list_error_line (list_error_value error)) };

    fn fmt<W: fmt::Write>(&self, f: &mut fmt::Formatter<W>) -> fmt::Result {
        match self {
            ListError::NotList => f.write_str("Not a list"),
            ListError::Element(i, error) => write_element(f, *i, error),
            ListError::OutOfMemory => f.write_str("Out of memory"),
        }
    }
}

/// Writes which element doesn't parse, and why.
fn write_element<W: fmt::Write>(
    f: &mut fmt::Formatter<W>,
    i: usize,
    error: &JsonError,
) -> fmt::Result
    ensures { WritesStyledOnOk W.write_str_gives f.old result
        (codes "Element "
        ++ (decimal i ++ (codes ": " ++ json_error_line (json_error_value error.now)))) f.new }
{
    f.write_str("Element ")?;
    f.write_str(decimal_text(i, &mut [0; MAX_DECIMAL_LENGTH]))?;
    f.write_str(": ")?;
    fmt::Display::fmt(error, f)
}
