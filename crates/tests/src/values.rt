//! How tests look at values: what they print, and how they hash.

use std::fmt;
use std::fmt::{Display, Write as _};
use std::hash::{DefaultHasher, Hash, Hasher};
use target_lexicon::Triple;

/// Takes the rest of a string in pieces, up to `room` bytes. It fails at a piece that doesn't fit, and at one that the
/// rest doesn't begin with.
#[derive(Drop)]
struct Target<'a> {
    rest: &'a str,
    room: usize,
    failures: u32,
}

impl fmt::Write for Target<'_> {
    fn write_str(&mut self, s: &str) -> fmt::Result {
        match (self.rest.strip_prefix(s), self.room.checked_sub(s.len())) {
            (Some(rest), Some(room)) if self.failures == 0 => {
                self.rest = rest;
                self.room = room;
                Ok(())
            }
            _ => {
                self.failures = self.failures.saturating_add(1);
                Err(fmt::Error)
            }
        }
    }
}

/// Whether the value is written as this string, and writing it fails if and only if its target does, with no piece
/// after that: tried with room for each number of its bytes.
pub(crate) fn writes<T: Display>(value: &T, text: &str) -> bool {
    for room in 0..text.len() + 1 {
        let mut target = Target {
            rest: text,
            room,
            failures: 0,
        };
        let is_written = write!(target, "{value}").is_ok();
        let fits = room == text.len();
        if is_written != fits || target.failures != u32::from(!fits) {
            return false;
        }
        if fits && !target.rest.is_empty() {
            return false;
        }
    }
    true
}

/// Whether the value is written as this string, also with a width and a fill.
pub(crate) fn prints<T: Display>(value: &T, text: &str) -> bool {
    writes(value, text) && writes(&format_args!("{value:*>60}"), text)
}

/// Whether two values are equal and feed a hasher the same.
pub(crate) fn hash_alike<T: Hash + PartialEq>(first: &T, second: &T) -> bool {
    let mut one = DefaultHasher::new();
    first.hash(&mut one);
    let mut other = DefaultHasher::new();
    second.hash(&mut other);
    *first == *second && one.finish() == other.finish()
}

/// Whether the parsed triple has these five values, each in the form of `{:?}`, or this is the line of the error.
pub(crate) fn is_answer<E: Display + Drop>(parsed: Result<Triple, E>, expected: &str) -> bool {
    match parsed {
        Ok(triple) => writes(
            &format_args!(
                "{:?} {:?} {:?} {:?} {:?}",
                triple.architecture,
                triple.vendor,
                triple.operating_system,
                triple.environment,
                triple.binary_format
            ),
            expected,
        ),
        Err(error) => prints(&error, expected),
    }
}
