//! Why a JSON value doesn't parse as a triple.
ghost use Rattle.std.specs.Prelude.{Some};

use crate::parse_error::ParseError;
use std::fmt;

/// Why a JSON value doesn't parse as a triple.
#[derive(Debug, PartialEq, Eq, Drop)]
pub enum JsonError {
    /// The value is not a string.
    NotText,
    /// The string is refused, or an allocation for parsing it failed.
    Parse(ParseError),
}

impl fmt::Display for JsonError {
    ghost use Rattle.target_lexicon.specs.Json.{json_error_value, json_error_line};

    ghost output = { λ error. Some (json_error_line (json_error_value error)) };

    ghost styled_output = { λ error _. Some (json_error_line (json_error_value error)) };

    fn fmt<W: fmt::Write>(&self, f: &mut fmt::Formatter<W>) -> fmt::Result {
        match self {
            JsonError::NotText => f.write_str("Not a text"),
            JsonError::Parse(error) => error.fmt(f),
        }
    }
}
