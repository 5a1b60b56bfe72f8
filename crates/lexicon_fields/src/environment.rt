//! The environments.
ghost use Rattle.std.specs.Prelude.{◌≡◌, Some};
ghost use Rattle.std.specs.Cow.{cow_str_bytes, IsBorrowedStr};
ghost use Rattle.lexicon_fields.specs.Names.{MatchesLookup};
ghost use Rattle.lexicon_fields.specs.Environment.{environment_name, environment_of};

use crate::steps::Steps;
use crate::table::fixed_row;
use std::borrow::CowStr;
use std::fmt;
use std::str::FromStr;

/// The environment on an operating system, such as its ABI or C library.
///
/// # Examples
///
/// ```
/// use target_lexicon::{Environment, TripleRef};
///
/// let triple = TripleRef::from_str("x86_64-unknown-linux-musl").unwrap();
/// assert_eq!(rt; triple.environment, Environment::Musl);
/// ```
// In Rust: #[non_exhaustive].
#[derive(Clone, Copy, Debug, PartialEq, Eq, Hash)]
pub enum Environment {
    // written by tools/names/write: the variants of Environment
    /// An environment that the string doesn't say.
    Unknown,
    /// AMD graphics processors where the generic address space is number 0.
    AmdGiz,
    /// Android's C library, Bionic.
    Android,
    /// Android on 32-bit Arm, with Arm's embedded ABI.
    Androideabi,
    /// Arm's embedded ABI, which passes floating-point arguments in integer registers.
    Eabi,
    /// Arm's embedded ABI, which passes floating-point arguments in floating-point registers.
    Eabihf,
    /// The GNU C library; on Windows, MinGW.
    Gnu,
    /// GNU, with the 64-bit ABI of MIPS.
    Gnuabi64,
    /// GNU, with Arm's embedded ABI without floating-point registers.
    Gnueabi,
    /// GNU, with Arm's embedded ABI with floating-point registers.
    Gnueabihf,
    /// GNU, with the signal processing engine of PowerPC.
    Gnuspe,
    /// GNU, with 32-bit pointers on 64-bit x86.
    Gnux32,
    /// GNU, with 32-bit pointers on 64-bit Arm.
    GnuIlp32,
    /// MinGW, with LLVM's tools and libraries.
    GnuLlvm,
    /// The kernel of Hermit.
    HermitKernel,
    /// The kernel of Hurd.
    HurdKernel,
    /// The kernel of Linux.
    LinuxKernel,
    /// Mac Catalyst: an iOS program on macOS.
    Macabi,
    /// The C library musl.
    Musl,
    /// Musl, with Arm's embedded ABI without floating-point registers.
    Musleabi,
    /// Musl, with Arm's embedded ABI with floating-point registers.
    Musleabihf,
    /// Musl, with the 64-bit ABI of MIPS.
    Muslabi64,
    /// Microsoft's Visual C++.
    Msvc,
    /// The C library Newlib, of embedded systems.
    Newlib,
    /// No environment, if the string says so. A string that names none has `Unknown`.
    None,
    /// The kernel of the operating system.
    Kernel,
    /// The C library uClibc.
    Uclibc,
    /// uClibc, with Arm's embedded ABI without floating-point registers.
    Uclibceabi,
    /// uClibc, with Arm's embedded ABI with floating-point registers.
    Uclibceabihf,
    /// An enclave of Intel SGX.
    Sgx,
    /// Apple's simulators.
    Sim,
    /// Floating-point numbers are computed by software.
    Softfloat,
    /// The signal processing engine of PowerPC.
    Spe,
    /// WASI with threads.
    Threads,
    /// OpenHarmony.
    Ohos,
    // end of what is written
}

impl Environment {
    /// The field of the host, which is `x86_64-unknown-linux-gnu` on every machine.
    // Not in Rust.
    pub fn host() -> Self
        ensures { result ≡ Environment.Gnu }
    {
        Self::Gnu
    }

    /// The environment with the name `s`; `Err` if there is none.
    // Not in Rust.
    pub fn from_str(s: &str) -> Result<Self, ()>
        ensures { MatchesLookup (environment_of s.now) result }
    {
        match fixed_row(s, &mut Steps::new()) {
            Some(row) => row.environment.ok_or(()),
            None => Err(()),
        }
    }

    /// The name. It is always borrowed.
    ///
    /// # Examples
    ///
    /// ```
    /// assert_eq!(rt; target_lexicon::Environment::Msvc.into_str().as_str(), "msvc");
    /// ```
    // In Rust: #[inline].
    pub fn into_str(self) -> CowStr<'static>
        ensures name { cow_str_bytes result ≡ environment_name self }
        ensures borrowed { IsBorrowedStr result }
    {
        CowStr::Borrowed(self.name())
    }

    /// The name.
    // In Rust: pub(crate).
    pub const fn name(self) -> &'static str
        ensures { result.now ≡ environment_name self }
    {
        match self {
            // written by tools/names/write: the names of Environment
            Environment::Unknown => "unknown",
            Environment::AmdGiz => "amdgiz",
            Environment::Android => "android",
            Environment::Androideabi => "androideabi",
            Environment::Eabi => "eabi",
            Environment::Eabihf => "eabihf",
            Environment::Gnu => "gnu",
            Environment::Gnuabi64 => "gnuabi64",
            Environment::Gnueabi => "gnueabi",
            Environment::Gnueabihf => "gnueabihf",
            Environment::Gnuspe => "gnuspe",
            Environment::Gnux32 => "gnux32",
            Environment::GnuIlp32 => "gnu_ilp32",
            Environment::GnuLlvm => "gnullvm",
            Environment::HermitKernel => "hermitkernel",
            Environment::HurdKernel => "hurdkernel",
            Environment::LinuxKernel => "linuxkernel",
            Environment::Macabi => "macabi",
            Environment::Musl => "musl",
            Environment::Musleabi => "musleabi",
            Environment::Musleabihf => "musleabihf",
            Environment::Muslabi64 => "muslabi64",
            Environment::Msvc => "msvc",
            Environment::Newlib => "newlib",
            Environment::None => "none",
            Environment::Kernel => "kernel",
            Environment::Uclibc => "uclibc",
            Environment::Uclibceabi => "uclibceabi",
            Environment::Uclibceabihf => "uclibceabihf",
            Environment::Sgx => "sgx",
            Environment::Sim => "sim",
            Environment::Softfloat => "softfloat",
            Environment::Spe => "spe",
            Environment::Threads => "threads",
            Environment::Ohos => "ohos",
            // end of what is written
        }
    }
}

impl FromStr for Environment {
    type Err = ();

    ghost from_str_gives = { λ s. MatchesLookup (environment_of s) };

    fn from_str(s: &str) -> Result<Environment, ()> {
        Environment::from_str(s)
    }
}

impl fmt::Display for Environment {
    ghost output = { λ it. Some (environment_name it) };

    ghost styled_output = { λ it _. Some (environment_name it) };

    fn fmt<W: fmt::Write>(&self, f: &mut fmt::Formatter<W>) -> fmt::Result {
        f.write_str(self.name())
    }
}
