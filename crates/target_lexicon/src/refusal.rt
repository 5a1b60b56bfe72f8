//! Why a string doesn't parse as a triple, with the refused part borrowed from it.
ghost use Rattle.std.specs.Prelude.{◌≡◌, ◌<◌, Some, IfOk, length};
ghost use Rattle.target_lexicon.specs.Refusal as spec;
ghost use Rattle.target_lexicon.specs.ValuesRef.{refusal_value};
ghost use Rattle.target_lexicon.specs.Written.{IsWritten};

use crate::display::put;
use crate::explanation::TextPart;
use crate::parse_error::ParseError;
use lexicon_fields::Field;
use lexicon_fields::laws::texts_are_put_in_order;
use std::alloc::{AllocError, Global};
use std::fmt;
use std::ops::Range;

/// Why a string doesn't parse as a triple: the first part that has no place, and the field that was expected there. The
/// part is borrowed from the string, so that nothing is allocated.
///
/// # Examples
///
/// ```
/// use target_lexicon::{Field, TripleRef};
///
/// let refusal = TripleRef::from_str("x86_64-unknown-foo").unwrap_err();
/// assert_eq!(rt; (refusal.expected, refusal.part.text), (Some(Field::OperatingSystem), "foo"));
/// let refusal = TripleRef::from_str("x86_64-linux-gnu-elf-foo").unwrap_err();
/// assert_eq!(rt; refusal.expected, None);
/// ```
// In Rust: #[non_exhaustive].
#[derive(Clone, Copy, Debug, PartialEq, Eq)]
// In Rust: #[derive(Hash)].
pub struct Refusal<'a> {
    /// The field that was expected: this one or a later one. After a binary format none was, and it is `None`.
    pub expected: Option<Field>,
    /// The refused part.
    pub part: TextPart<'a>,
}

impl Refusal<'_> {
    ghost use Rattle.std.specs.Prelude.{◌^◌, ◌≤◌};
    ghost use Rattle.target_lexicon.specs.Explanation.{part_end, part_value};

    /// The range of the refused part in the string, in bytes.
    ///
    /// # Examples
    ///
    /// ```
    /// use target_lexicon::TripleRef;
    ///
    /// let refusal = TripleRef::from_str("x86_64-unknown-foo").unwrap_err();
    /// assert_eq!(rt; refusal.range(), 15..18);
    /// ```
    #[must_use]
    pub const fn range(&self) -> Range<usize>
        ensures start { result.start ≡ self.now.part.start }
        ensures end { part_end (part_value self.now.part) < 2 ^ 64
            → result.end ≡ part_end (part_value self.now.part) }
        ensures order { result.start ≤ result.end }
    {
        self.part.range()
    }

    /// The same refusal as upstream's error, with a copy of the part. `Err` if the allocation for that copy fails.
    pub fn to_error(&self, alloc: Global) -> Result<ParseError, AllocError>
        ensures { IfOk result (λ error. spec.refusal_of error ≡ Some (refusal_value self.now)) }
    {
        let part = String::from_str(alloc, self.part.text)?;
        Ok(ParseError::new(self.expected, part))
    }

    /// Writes the line of the refusal, without a line feed, at the front of the buffer if it fits there, and returns
    /// its length. If it doesn't fit, the buffer is unchanged. Nothing is allocated.
    // In Rust: #[inline].
    #[doc(hidden)]
    pub fn write_to(&self, out: &mut [u8]) -> usize
        ensures { IsWritten (spec.refusal_line (refusal_value self.now)) out.old out.new result }
    {
        let prefix = refusal_prefix(self.expected);
        let part = self.part.text;
        let length = prefix.len() + part.len();
        if length <= out.len() {
            texts_are_put_in_order();
            let at = put(out, 0, prefix.as_bytes());
            put(out, at, part.as_bytes());
        }
        length
    }
}

/// The words of a refusal's line before the part, such as `Unrecognized vendor: `.
pub fn refusal_prefix(expected: Option<Field>) -> &'static str
    ensures words { result.now ≡ spec.refusal_prefix expected }
    ensures bound { length result.now < 32 }
{
    match expected {
        Some(Field::Architecture) => "Unrecognized architecture: ",
        Some(Field::Vendor) => "Unrecognized vendor: ",
        Some(Field::OperatingSystem) => "Unrecognized operating system: ",
        Some(Field::Environment) => "Unrecognized environment: ",
        Some(Field::BinaryFormat) => "Unrecognized binary format: ",
        None => "Unrecognized field: ",
    }
}

impl fmt::Display for Refusal<'_> {
    ghost output = { λ it. Some (spec.refusal_line (refusal_value it)) };

    ghost styled_output = { λ it _. Some (spec.refusal_line (refusal_value it)) };

    fn fmt<W: fmt::Write>(&self, f: &mut fmt::Formatter<W>) -> fmt::Result {
        f.write_str(refusal_prefix(self.expected))?;
        f.write_str(self.part.text)
    }
}
