//! The operating systems.
ghost use Rattle.std.specs.Prelude.{◌≡◌, ◌++◌, Some, None, IfOk, IsNone, IsOkAnd};
ghost use Rattle.std.specs.Cow.{cow_str_bytes, IsBorrowedStr};
ghost use Rattle.lexicon_fields.specs.Names.{MatchesLookup};
ghost use Rattle.lexicon_fields.specs.Private as private;
ghost use Rattle.lexicon_fields.specs.OperatingSystem as spec;

use crate::deployment_target::{DeploymentTarget, MAX_VERSION_LENGTH, version_text};
use crate::steps::Steps;
use crate::table::fixed_row;
use std::alloc::{AllocError, Global};
use std::borrow::CowStr;
use std::fmt;
use std::str::FromStr;

/// The operating system. One like Darwin can have the version of its deployment target.
///
/// # Examples
///
/// ```
/// use target_lexicon::{OperatingSystem, TripleRef};
///
/// let triple = TripleRef::from_str("x86_64-apple-macosx10.7").unwrap();
/// match triple.operating_system {
///     OperatingSystem::MacOSX(Some(version)) => assert_eq!(rt; (version.major, version.minor), (10, 7)),
///     other => panic!(rt; "{other}"),
/// }
/// ```
// In Rust: #[non_exhaustive].
#[derive(Clone, Copy, Debug, PartialEq, Eq, Hash)]
pub enum OperatingSystem {
    // written by tools/names/write: the variants of OperatingSystem
    /// A system that the string doesn't say.
    Unknown,
    /// IBM's AIX.
    Aix,
    /// AMD's HSA runtime, on graphics processors.
    AmdHsa,
    /// Bitrig, a fork of OpenBSD.
    Bitrig,
    /// Nuxi's CloudABI.
    Cloudabi,
    /// NVIDIA's CUDA.
    Cuda,
    /// Cygwin, on Windows.
    Cygwin,
    /// macOS, as `rustc` names it; the version is that of the Darwin kernel.
    Darwin(Option<DeploymentTarget>),
    /// DragonFly BSD.
    Dragonfly,
    /// Emscripten, in browsers and Node.js.
    Emscripten,
    /// ESP-IDF, Espressif's framework.
    Espidf,
    /// FreeBSD.
    Freebsd,
    /// Google's Fuchsia.
    Fuchsia,
    /// Haiku, the successor of BeOS.
    Haiku,
    /// The unikernel Hermit.
    Hermit,
    /// Horizon, of Nintendo's 3DS and Switch.
    Horizon,
    /// GNU Hurd.
    Hurd,
    /// illumos, the successor of OpenSolaris.
    Illumos,
    /// Apple's iOS.
    IOS(Option<DeploymentTarget>),
    /// L4Re, the L4 Runtime Environment.
    L4re,
    /// Linux; the environment says with which C library.
    Linux,
    /// macOS under LLVM's own name; `rustc` says `Darwin`.
    MacOSX(Option<DeploymentTarget>),
    /// Nebulet, a microkernel that runs WebAssembly.
    Nebulet,
    /// NetBSD.
    Netbsd,
    /// No operating system, if the string says so.
    None_,
    /// OpenBSD.
    Openbsd,
    /// Sony's PlayStation Portable.
    Psp,
    /// Redox, which is written in Rust.
    Redox,
    /// Oracle Solaris.
    Solaris,
    /// SOLID-OS/ASP3, a real-time system of Kyoto Microcomputer.
    SolidAsp3,
    /// Apple's tvOS.
    TvOS(Option<DeploymentTarget>),
    /// No system: a program that UEFI firmware runs.
    Uefi,
    /// Apple's visionOS.
    VisionOS(Option<DeploymentTarget>),
    /// Wind River's VxWorks.
    VxWorks,
    /// WASI of no stated version.
    Wasi,
    /// WASI 0.1, preview 1.
    WasiP1,
    /// WASI 0.2, preview 2.
    WasiP2,
    /// Apple's watchOS.
    WatchOS(Option<DeploymentTarget>),
    /// Windows; the environment says with which toolchain.
    Windows,
    /// visionOS under LLVM's own name; `rustc` says `VisionOS`.
    XROS(Option<DeploymentTarget>),
    // end of what is written
}

impl OperatingSystem {
    /// The field of the host, which is `x86_64-unknown-linux-gnu` on every machine.
    // Not in Rust.
    pub fn host() -> Self
        ensures { result ≡ OperatingSystem.Linux }
    {
        Self::Linux
    }

    /// The system that the string parses as. `Err` for every other string.
    ///
    /// A string is a fixed name, or the prefix of a system like Darwin with nothing or a version after it: one to three
    /// pieces between dots, each an optional plus and digits, the first at most 65535, the others at most 255.
    // Not in Rust.
    #[inline(always)]
    pub fn from_str(s: &str) -> Result<Self, ()>
        ensures { MatchesLookup (spec.operating_system_of s.now) result }
    {
        match fixed_row(s, &mut Steps::new()) {
            Some(row) => row.operating_system.ok_or(()),
            None => OperatingSystem::parse_darwin_like(s).ok_or(()),
        }
    }

    /// The system like Darwin with whose prefix the string begins. The rest of the string must be empty or a version.
    pub(crate) fn parse_darwin_like(s: &str) -> Option<Self>
        ensures { result ≡ private.first_system spec.darwin_prefixes s.now }
    {
        // written by tools/names/write: the prefixes of systems like Darwin
        if let Some(version) = version_after("darwin", s) {
            return Some(OperatingSystem::Darwin(version));
        }
        if let Some(version) = version_after("ios", s) {
            return Some(OperatingSystem::IOS(version));
        }
        if let Some(version) = version_after("macosx", s) {
            return Some(OperatingSystem::MacOSX(version));
        }
        if let Some(version) = version_after("tvos", s) {
            return Some(OperatingSystem::TvOS(version));
        }
        if let Some(version) = version_after("visionos", s) {
            return Some(OperatingSystem::VisionOS(version));
        }
        if let Some(version) = version_after("watchos", s) {
            return Some(OperatingSystem::WatchOS(version));
        }
        if let Some(version) = version_after("xros", s) {
            return Some(OperatingSystem::XROS(version));
        }
        // end of what is written
        None
    }

    /// The name of this system. Without a version it is borrowed; with one it is allocated, and `Err` says that the
    /// allocation failed.
    pub fn into_str(self, alloc: Global) -> Result<CowStr<'static>, AllocError>
        ensures name { IfOk result (λ text. cow_str_bytes text ≡ spec.operating_system_name self) }
        ensures borrowed { IsNone (spec.system_version self) → IsOkAnd result IsBorrowedStr }
    {
        match self.version() {
            None => Ok(CowStr::Borrowed(self.prefix())),
            Some(_) => Ok(CowStr::Owned(self.to_string(alloc)?)),
        }
    }

    /// Whether the system is like Darwin.
    ///
    /// # Examples
    ///
    /// ```
    /// use target_lexicon::OperatingSystem;
    ///
    /// assert!(rt; OperatingSystem::TvOS(None).is_like_darwin());
    /// assert!(rt; !OperatingSystem::Linux.is_like_darwin());
    /// ```
    pub const fn is_like_darwin(&self) -> bool
        ensures { result ≡ spec.is_like_darwin self.now }
    {
        matches!(
            self,
            // written by tools/names/write: the systems like Darwin
            OperatingSystem::Darwin(_)
                | OperatingSystem::IOS(_)
                | OperatingSystem::MacOSX(_)
                | OperatingSystem::TvOS(_)
                | OperatingSystem::VisionOS(_)
                | OperatingSystem::WatchOS(_)
                | OperatingSystem::XROS(_)
            // end of what is written
        )
    }

    /// The name without the version.
    // In Rust: pub(crate).
    pub const fn prefix(self) -> &'static str
        ensures { result.now ++ spec.version_suffix (spec.system_version self)
            ≡ spec.operating_system_name self }
    {
        match self {
            // written by tools/names/write: the names of OperatingSystem
            OperatingSystem::Unknown => "unknown",
            OperatingSystem::Aix => "aix",
            OperatingSystem::AmdHsa => "amdhsa",
            OperatingSystem::Bitrig => "bitrig",
            OperatingSystem::Cloudabi => "cloudabi",
            OperatingSystem::Cuda => "cuda",
            OperatingSystem::Cygwin => "cygwin",
            OperatingSystem::Darwin(_) => "darwin",
            OperatingSystem::Dragonfly => "dragonfly",
            OperatingSystem::Emscripten => "emscripten",
            OperatingSystem::Espidf => "espidf",
            OperatingSystem::Freebsd => "freebsd",
            OperatingSystem::Fuchsia => "fuchsia",
            OperatingSystem::Haiku => "haiku",
            OperatingSystem::Hermit => "hermit",
            OperatingSystem::Horizon => "horizon",
            OperatingSystem::Hurd => "hurd",
            OperatingSystem::Illumos => "illumos",
            OperatingSystem::IOS(_) => "ios",
            OperatingSystem::L4re => "l4re",
            OperatingSystem::Linux => "linux",
            OperatingSystem::MacOSX(_) => "macosx",
            OperatingSystem::Nebulet => "nebulet",
            OperatingSystem::Netbsd => "netbsd",
            OperatingSystem::None_ => "none",
            OperatingSystem::Openbsd => "openbsd",
            OperatingSystem::Psp => "psp",
            OperatingSystem::Redox => "redox",
            OperatingSystem::Solaris => "solaris",
            OperatingSystem::SolidAsp3 => "solid_asp3",
            OperatingSystem::TvOS(_) => "tvos",
            OperatingSystem::Uefi => "uefi",
            OperatingSystem::VisionOS(_) => "visionos",
            OperatingSystem::VxWorks => "vxworks",
            OperatingSystem::Wasi => "wasi",
            OperatingSystem::WasiP1 => "wasip1",
            OperatingSystem::WasiP2 => "wasip2",
            OperatingSystem::WatchOS(_) => "watchos",
            OperatingSystem::Windows => "windows",
            OperatingSystem::XROS(_) => "xros",
            // end of what is written
        }
    }

    /// The version of the deployment target. Only a system like Darwin can have one.
    // In Rust: pub(crate).
    pub const fn version(self) -> Option<DeploymentTarget>
        ensures { result ≡ spec.system_version self }
    {
        match self {
            // written by tools/names/write: the versions of systems like Darwin
            OperatingSystem::Darwin(version)
            | OperatingSystem::IOS(version)
            | OperatingSystem::MacOSX(version)
            | OperatingSystem::TvOS(version)
            | OperatingSystem::VisionOS(version)
            | OperatingSystem::WatchOS(version)
            | OperatingSystem::XROS(version) => version,
            // end of what is written
            _ => None,
        }
    }
}

/// The version after this prefix: `Some(None)` if nothing follows, `None` if the string doesn't begin with the prefix,
/// or if what follows is no version.
fn version_after(prefix: &str, text: &str) -> Option<Option<DeploymentTarget>>
    ensures { result ≡ private.version_after prefix.now text.now }
{
    let rest = text.strip_prefix(prefix)?;
    if rest.is_empty() {
        return Some(None);
    }
    Some(Some(DeploymentTarget::from_text(rest)?))
}

impl FromStr for OperatingSystem {
    type Err = ();

    ghost from_str_gives = { λ s. MatchesLookup (spec.operating_system_of s) };

    // In Rust: #[inline].
    fn from_str(s: &str) -> Result<OperatingSystem, ()> {
        OperatingSystem::from_str(s)
    }
}

impl fmt::Display for OperatingSystem {
    ghost output = { λ it. Some (spec.operating_system_name it) };

    ghost styled_output = { λ it _. Some (spec.operating_system_name it) };

    fn fmt<W: fmt::Write>(&self, f: &mut fmt::Formatter<W>) -> fmt::Result {
        f.write_str(self.prefix())?;
        match self.version() {
            None => Ok(()),
            Some(version) => f.write_str(version_text(version, &mut [0; MAX_VERSION_LENGTH])),
        }
    }
}
