//! Where the value of each field comes from.

use crate::refusal::Refusal;
use crate::triple_ref::TripleRef;
use std::ops::Range;

/// A part of a string, and where it begins there.
///
/// # Examples
///
/// ```
/// use target_lexicon::TripleRef;
///
/// let text = "x86_64-linux-foo";
/// let part = TripleRef::from_str(text).unwrap_err().part;
/// assert_eq!(rt; &text[part.range()], part.text);
/// ```
#[derive(Clone, Copy, Debug, PartialEq, Eq)]
// In Rust: #[derive(Hash)].
pub struct TextPart<'a> {
    /// The bytes of the part.
    pub text: &'a str,
    /// The index of its first byte in the string.
    pub start: usize,
}

impl TextPart<'_> {
    ghost use Rattle.std.specs.Prelude.{◌≡◌, ◌^◌, ◌<◌, ◌≤◌};
    ghost use Rattle.target_lexicon.specs.Explanation.{part_end, part_value};

    /// The range of the part in the string, in bytes.
    ///
    /// # Examples
    ///
    /// ```
    /// use target_lexicon::TextPart;
    ///
    /// assert_eq!(rt; TextPart { text: "foo", start: 13 }.range(), 13..16);
    /// ```
    #[must_use]
    pub const fn range(&self) -> Range<usize>
        ensures start { result.start ≡ self.now.start }
        ensures end { part_end (part_value self.now) < 2 ^ 64
            → result.end ≡ part_end (part_value self.now) }
        ensures order { result.start ≤ result.end }
    {
        self.start..self.start.saturating_add(self.text.len())
    }
}

/// Where the value of a field comes from.
///
/// # Examples
///
/// ```
/// use target_lexicon::{Source, explain};
///
/// let explanation = explain("x86_64-linux");
/// assert_eq!(rt; explanation.sources.environment, Source::NotGiven);
/// ```
#[derive(Clone, Copy, Debug, PartialEq, Eq)]
// In Rust: #[derive(Hash)].
pub enum Source<'a> {
    /// From this part of the string. A special string is one part, which gives all five fields.
    Part(TextPart<'a>),
    /// No part of the string is of this field, which is `Unknown` if the string parses.
    NotGiven,
    /// No part of the string is of this field, the binary format. It is the one that the other fields imply.
    Implied,
}

/// Where the value of each field comes from.
///
/// # Examples
///
/// ```
/// use target_lexicon::{Source, explain};
///
/// match explain("x86_64-linux").sources.architecture {
///     Source::Part(part) => assert_eq!(rt; part.text, "x86_64"),
///     other => panic!(rt; "{other:?}"),
/// }
/// ```
// In Rust: #[non_exhaustive].
#[derive(Clone, Copy, Debug, PartialEq, Eq)]
// In Rust: #[derive(Hash)].
pub struct Sources<'a> {
    /// Never `NotGiven` if the string parses: each string has an architecture.
    pub architecture: Source<'a>,
    /// A part, or `NotGiven`.
    pub vendor: Source<'a>,
    /// A part, or `NotGiven`.
    pub operating_system: Source<'a>,
    /// A part, or `NotGiven`.
    pub environment: Source<'a>,
    /// A part, or else `Implied`, and `NotGiven` if the string is refused.
    pub binary_format: Source<'a>,
}

/// What a string parses as, or why it is refused; and where each field comes from.
///
/// # Examples
///
/// ```
/// use target_lexicon::{BinaryFormat, Source, explain};
///
/// let explanation = explain("x86_64-linux");
/// assert_eq!(rt; explanation.triple.unwrap().binary_format, BinaryFormat::Elf);
/// assert_eq!(rt; explanation.sources.binary_format, Source::Implied);
/// ```
// In Rust: #[non_exhaustive].
#[derive(Clone, Copy, Debug, PartialEq, Eq)]
// In Rust: #[derive(Hash)].
pub struct Explanation<'a> {
    /// The triple that the string parses as, or why it is refused.
    pub triple: Result<TripleRef<'a>, Refusal<'a>>,
    /// The source of each field. If the string is refused, it says which parts before the refused one are of which
    /// field, and every other field is `NotGiven`.
    pub sources: Sources<'a>,
}
