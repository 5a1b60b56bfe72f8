//! The versions of deployment targets.
ghost use Rattle.std.specs.Prelude.{◌≡◌, ◌+◌, ◌≤◌, ◌∷◌, length};
ghost use Rattle.std.specs.Fmt.{decimal};
ghost use Rattle.lexicon_fields.specs.Put.{Puts};
ghost use Rattle.lexicon_fields.specs.Version as spec;
ghost use Rattle.lexicon_fields.specs.Private.{remaining_pieces};

use crate::decimal::{put_byte, put_decimal};
use std::str::from_utf8;

/// The length of the longest version in decimal.
pub const MAX_VERSION_LENGTH: usize = 13;

/// The oldest version of a system like Darwin on which a target runs, within the limits of a Mach-O file.
///
/// # Examples
///
/// ```
/// use target_lexicon::{DeploymentTarget, OperatingSystem};
///
/// let version = DeploymentTarget { major: 14, minor: 1, patch: 0 };
/// assert_eq!(rt; "macosx14.1".parse(), Ok(OperatingSystem::MacOSX(Some(version))));
/// assert!(rt; version < DeploymentTarget { major: 14, minor: 2, patch: 0 });
/// ```
#[derive(Clone, Copy, Debug, PartialEq, Eq, PartialOrd, Ord, Hash)]
pub struct DeploymentTarget {
    /// The `10` of `10.15.7`.
    pub major: u16,
    /// The `15` of `10.15.7`.
    pub minor: u8,
    /// The `7` of `10.15.7`.
    pub patch: u8,
}

impl DeploymentTarget {
    /// The version that the string parses as, if any: one to three pieces between dots, each an optional plus and
    /// digits.
    // In Rust: pub(crate).
    pub fn from_text(text: &str) -> Option<DeploymentTarget>
        ensures { result ≡ spec.version_of text.now }
    {
        let (major, after_major) = first_piece(text);
        let major = major.parse::<u16>();
        let Ok(major) = major else {
            return None;
        };
        let Some(rest) = after_major else {
            return Some(DeploymentTarget {
                major,
                minor: 0,
                patch: 0,
            });
        };
        let (minor, after_minor) = first_piece(rest);
        let minor = minor.parse::<u8>();
        let Ok(minor) = minor else {
            return None;
        };
        let Some(rest) = after_minor else {
            return Some(DeploymentTarget {
                major,
                minor,
                patch: 0,
            });
        };
        let (patch, after_patch) = first_piece(rest);
        let patch = patch.parse::<u8>();
        let Ok(patch) = patch else {
            return None;
        };
        match after_patch {
            Some(_) => None,
            None => Some(DeploymentTarget {
                major,
                minor,
                patch,
            }),
        }
    }
}

/// The string up to the first dot, and the string after it.
fn first_piece(text: &str) -> (&str, Option<&str>)
    ensures { spec.pieces_of text.now ≡ result.0.now ∷ remaining_pieces result.1 }
{
    match text.split_once('.') {
        Some((piece, rest)) => (piece, Some(rest)),
        None => (text, None),
    }
}

/// A version in decimal, `major.minor.patch`, written into a buffer that has room for the longest.
pub fn version_text(version: DeploymentTarget, buffer: &mut [u8; MAX_VERSION_LENGTH]) -> &str
    ensures text { result.now ≡ spec.version_name version }
    ensures bound { length result.now ≤ 13 }
{
    let major_end = put_decimal(buffer, 0, usize::from(version.major));
    let minor_end = put_dotted(buffer, major_end, version.minor);
    let patch_end = put_dotted(buffer, minor_end, version.patch);
    let text = &buffer[..patch_end];
    match from_utf8(text) {
        Ok(text) => text,
        // Digits and dots are UTF-8.
        Err(_) => unreachable!(),
    }
}

/// Writes a dot and a number, as [`put_byte`] writes a byte.
fn put_dotted(out: &mut [u8], at: usize, n: u8) -> usize
    requires { at + length (spec.dot ∷ decimal n) ≤ length out.old }
    ensures { Puts (spec.dot ∷ decimal n) out.old at out.new result }
{
    let at = put_byte(out, at, b'.');
    put_decimal(out, at, usize::from(n))
}
