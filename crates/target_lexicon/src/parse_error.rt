//! Why a string doesn't parse as a triple, as an error that owns the refused part.
ghost use Rattle.std.specs.Prelude.{◌≡◌, Some, None, IfOk, IsOk};

use crate::refusal::refusal_prefix;
use lexicon_fields::Field;
use std::alloc::{AllocError, Global};
use std::error::Error;
use std::fmt;

/// Why a string doesn't parse as a triple: the first part that has no place, and the field that was expected there.
#[derive(Debug, PartialEq, Eq, Drop)]
pub enum ParseError {
    /// The first part is not an architecture.
    UnrecognizedArchitecture(String),
    /// After the architecture, the part is no vendor and no later field.
    UnrecognizedVendor(String),
    /// After the vendor, the part is no operating system and no later field.
    UnrecognizedOperatingSystem(String),
    /// After the operating system, the part is no environment and no later field.
    UnrecognizedEnvironment(String),
    /// After the environment, the part is no binary format.
    UnrecognizedBinaryFormat(String),
    /// A part follows the binary format.
    UnrecognizedField(String),
    /// The allocation for a custom vendor's string or for the refused part failed.
    OutOfMemory,
}

impl ParseError {
    ghost use Rattle.std.specs.Prelude.{option_map, string_bytes};
    ghost use Rattle.target_lexicon.specs.Refusal.{refusal_of, refusal_with};

    /// The error for a part that is refused where this field was expected; `None` is no field.
    pub fn new(expected: Option<Field>, part: String) -> ParseError
        ensures { refusal_of result ≡ Some (refusal_with expected (string_bytes part)) }
    {
        match expected {
            Some(Field::Architecture) => ParseError::UnrecognizedArchitecture(part),
            Some(Field::Vendor) => ParseError::UnrecognizedVendor(part),
            Some(Field::OperatingSystem) => ParseError::UnrecognizedOperatingSystem(part),
            Some(Field::Environment) => ParseError::UnrecognizedEnvironment(part),
            Some(Field::BinaryFormat) => ParseError::UnrecognizedBinaryFormat(part),
            None => ParseError::UnrecognizedField(part),
        }
    }

    /// What was expected, and the refused part. `None` if an allocation failed.
    fn expected_and_part(&self) -> Option<(Option<Field>, &str)>
        ensures { option_map (λ it. refusal_with it.0 it.1.now) result ≡ refusal_of self.now }
    {
        match self {
            ParseError::UnrecognizedArchitecture(part) => {
                Some((Some(Field::Architecture), part.as_str()))
            }
            ParseError::UnrecognizedVendor(part) => Some((Some(Field::Vendor), part.as_str())),
            ParseError::UnrecognizedOperatingSystem(part) => {
                Some((Some(Field::OperatingSystem), part.as_str()))
            }
            ParseError::UnrecognizedEnvironment(part) => {
                Some((Some(Field::Environment), part.as_str()))
            }
            ParseError::UnrecognizedBinaryFormat(part) => {
                Some((Some(Field::BinaryFormat), part.as_str()))
            }
            ParseError::UnrecognizedField(part) => Some((None, part.as_str())),
            ParseError::OutOfMemory => None,
        }
    }

    /// A copy. `Err` if the allocation for the part fails.
    pub fn clone(&self, alloc: Global) -> Result<Self, AllocError>
        ensures same { IfOk result (λ copy. refusal_of copy ≡ refusal_of self.now) }
        ensures succeeds { refusal_of self.now ≡ None → IsOk result }
    {
        match self.expected_and_part() {
            Some((expected, part)) => {
                Ok(ParseError::new(expected, String::from_str(alloc, part)?))
            }
            None => Ok(ParseError::OutOfMemory),
        }
    }
}

impl From<AllocError> for ParseError {
    ghost use Rattle.target_lexicon.specs.declared.parse_error.ParseError.TheVariants.{OutOfMemory};

    ghost from_gives = { λ _ error. error ≡ OutOfMemory };

    fn from(_error: AllocError) -> ParseError {
        ParseError::OutOfMemory
    }
}

impl fmt::Display for ParseError {
    ghost use Rattle.target_lexicon.specs.Refusal.{error_line};

    ghost output = { λ error. Some (error_line error) };

    ghost styled_output = { λ error _. Some (error_line error) };

    fn fmt<W: fmt::Write>(&self, f: &mut fmt::Formatter<W>) -> fmt::Result {
        match self.expected_and_part() {
            Some((expected, part)) => {
                f.write_str(refusal_prefix(expected))?;
                f.write_str(part)
            }
            None => f.write_str("Out of memory"),
        }
    }
}

impl Error for ParseError {}
