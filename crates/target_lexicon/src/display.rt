//! Printing: what is shown of a triple, as pieces, and how these are written. Functions are inlined if they return a
//! wide value, or if that saves a hundredth of printing.
ghost use Rattle.std.specs.Prelude.{◌≡◌, ◌+◌, ◌<◌, ◌≤◌, ◌^◌, Some, None, IfOk, length, string_bytes};
ghost use Rattle.std.specs.Fmt.{WritesStyledOnOk};
ghost use Rattle.lexicon_fields.specs.OperatingSystem.{version_suffix};
ghost use Rattle.lexicon_fields.specs.Put.{IsPut, Puts};
ghost use Rattle.lexicon_fields.specs.Vendor.{vendor_name};
ghost use Rattle.lexicon_fields.specs.VendorRef.{ref_value};
ghost use Rattle.target_lexicon.specs.Printing as spec;
ghost use Rattle.target_lexicon.specs.Private.{name_piece};
ghost use Rattle.target_lexicon.specs.SpecialStrings.{special_string};
ghost use Rattle.target_lexicon.specs.Values as values;
ghost use Rattle.target_lexicon.specs.Values.{values_of};
ghost use Rattle.target_lexicon.specs.ValuesRef.{values_of_ref};
ghost use Rattle.target_lexicon.specs.Written.{IsWritten};

use crate::laws::versions_are_in_range;
use crate::triple::Triple;
use crate::triple_ref::TripleRef;
use lexicon_fields::laws::{names_are_short, texts_are_put_in_order};
use lexicon_fields::{
    Architecture, BinaryFormat, DeploymentTarget, Environment, KnownVendor, MAX_VERSION_LENGTH,
    OperatingSystem, VendorRef, version_text,
};
// written by tools/names/write: the families that print by their members
use lexicon_fields::ArmArchitecture;
// end of what is written
use std::alloc::{AllocError, Global};
use std::fmt;

impl fmt::Display for TripleRef<'_> {
    ghost output = { λ it. Some (spec.string_of (values_of_ref it)) };

    ghost styled_output = { λ it _. Some (spec.string_of (values_of_ref it)) };

    #[inline(always)]
    fn fmt<W: fmt::Write>(&self, f: &mut fmt::Formatter<W>) -> fmt::Result {
        self.pieces(self.shows_unknowns()).fmt(f)
    }
}

impl fmt::Display for Triple {
    ghost output = { λ it. Some (spec.string_of (values_of it)) };

    ghost styled_output = { λ it _. Some (spec.string_of (values_of it)) };

    fn fmt<W: fmt::Write>(&self, f: &mut fmt::Formatter<W>) -> fmt::Result {
        self.as_triple_ref().fmt(f)
    }
}

impl Triple {
    /// The printed string. `Err` if the allocation for it fails.
    pub fn to_text(&self, alloc: Global) -> Result<String, AllocError>
        ensures { IfOk result (λ text. string_bytes text ≡ spec.string_of (values_of self.now)) }
    {
        self.as_triple_ref().to_text(alloc)
    }

    /// The string that upstream prints for the triple. `Err` if the allocation for it fails. It differs from the
    /// printed string only if environment and format are both unknown and another format is implied (law
    /// `only_unknowns_differ_from_upstream`); then upstream parses it as another triple.
    pub fn to_upstream_text(&self, alloc: Global) -> Result<String, AllocError>
        ensures { IfOk result
            (λ text. string_bytes text ≡ spec.upstream_string_of (values_of self.now)) }
    {
        self.as_triple_ref().to_upstream_text(alloc)
    }

    /// Writes the printed string at the front of the buffer if it fits there, and returns its length. If it doesn't
    /// fit, the buffer is unchanged: compare the result with `out.len()`. Nothing is allocated.
    // Not in Rust.
    pub fn write_to(&self, out: &mut [u8]) -> usize
        ensures { IsWritten (spec.string_of (values_of self.now)) out.old out.new result }
    {
        self.as_triple_ref().write_to(out)
    }
}

impl<'a> TripleRef<'a> {
    ghost use Rattle.target_lexicon.specs.Pieces.{pieces_text};

    /// The printed string. `Err` if the allocation for it fails.
    pub fn to_text(&self, alloc: Global) -> Result<String, AllocError>
        ensures { IfOk result (λ text.
            string_bytes text ≡ spec.string_of (values_of_ref self.now)) }
    {
        // few strings are longer
        let mut text = String::with_capacity(alloc, 32)?;
        text.write(&self.pieces(self.shows_unknowns()))?;
        Ok(text)
    }

    /// The string that upstream prints for the triple, as [`Triple::to_upstream_text`] says.
    pub fn to_upstream_text(&self, alloc: Global) -> Result<String, AllocError>
        ensures { IfOk result
            (λ text. string_bytes text ≡ spec.upstream_string_of (values_of_ref self.now)) }
    {
        self.pieces(false).to_string(alloc)
    }

    /// Writes the printed string at the front of the buffer if it fits there, and returns its length. If it doesn't
    /// fit, the buffer is unchanged: compare the result with `out.len()`. Nothing is allocated.
    ///
    /// # Examples
    ///
    /// ```
    /// use target_lexicon::TripleRef;
    ///
    /// let mut bytes = [0; 8];
    /// let length = TripleRef::from_str("x86_64-linux").unwrap().write_to(&mut bytes);
    /// assert_eq!(rt; (length, bytes), ("x86_64-unknown-linux".len(), [0; 8]));
    /// ```
    // In Rust: #[inline].
    pub fn write_to(&self, out: &mut [u8]) -> usize
        ensures { IsWritten (spec.string_of (values_of_ref self.now)) out.old out.new result }
    {
        names_are_short();
        versions_are_in_range(self.operating_system);
        self.pieces(self.shows_unknowns()).write_to(out)
    }

    /// Writes the string that upstream prints for the triple, as [`TripleRef::write_to`] writes the printed one.
    // Not in Rust.
    pub fn write_upstream_to(&self, out: &mut [u8]) -> usize
        ensures { IsWritten (spec.upstream_string_of (values_of_ref self.now))
            out.old out.new result }
    {
        names_are_short();
        versions_are_in_range(self.operating_system);
        self.pieces(false).write_to(out)
    }

    /// The pieces by upstream's rules, or with the last three fields shown whatever these say.
    // In Rust: pub(crate).
    #[inline(always)]
    fn pieces(&self, shows_last_three: bool) -> Pieces<'a>
        ensures text { pieces_text result
            ≡ spec.text_with shows_last_three (values_of_ref self.now) }
        ensures vendor { special_string (values_of_ref self.now) ≡ None →
            length (vendor_name (ref_value self.now.vendor)) < 2 ^ 63 }
    {
        if let Some(text) = self.special_string() {
            return Pieces {
                first: text,
                vendor: None,
                operating_system: None,
                version: None,
                environment: None,
                binary_format: None,
            };
        }
        let system = shows_last_three | !self.omits_unknown_system();
        let environment = shows_last_three | self.shows_environment();
        let binary_format = shows_last_three | self.shows_binary_format();
        Pieces {
            first: self.architecture.name(),
            vendor: self.shows_vendor().then_some(self.vendor.as_str()),
            operating_system: system.then_some(self.operating_system.prefix()),
            // a system that is omitted has none
            version: self.operating_system.version(),
            environment: environment.then_some(self.environment.name()),
            binary_format: binary_format.then_some(self.binary_format.name()),
        }
    }

    /// Whether the vendor is shown: unless it is unknown, and the triple omits an unknown one.
    #[inline(always)]
    fn shows_vendor(&self) -> bool
        ensures { result ≡ spec.shows_vendor (values_of_ref self.now) }
    {
        if !matches!(self.vendor, VendorRef::Known(KnownVendor::Unknown)) {
            return true;
        }
        match self.environment {
            // written by tools/names/write: the environments that show the vendor
            Environment::HermitKernel | Environment::LinuxKernel => true,
            // end of what is written
            _ => !self.omits_unknown_vendor(),
        }
    }

    /// Whether an unknown vendor is omitted, unless the environment is a kernel's.
    #[inline(always)]
    fn omits_unknown_vendor(&self) -> bool
        ensures { result
            ≡ spec.omits_unknown_vendor self.now.architecture self.now.operating_system
            self.now.environment }
    {
        match self.operating_system {
            // written by tools/names/write: what omits an unknown vendor
            OperatingSystem::Linux => matches!(
                self.environment,
                Environment::Android | Environment::Androideabi | Environment::Kernel
            ),
            OperatingSystem::Wasi | OperatingSystem::WasiP1 | OperatingSystem::WasiP2 => true,
            OperatingSystem::None_ => matches!(
                self.architecture,
                Architecture::Msp430
                    | Architecture::Arm(
                        ArmArchitecture::Armv4t
                            | ArmArchitecture::Armv5te
                            | ArmArchitecture::Armebv7r
                            | ArmArchitecture::Armv7a
                            | ArmArchitecture::Armv7r
                            | ArmArchitecture::Armv8r
                            | ArmArchitecture::Thumbv4t
                            | ArmArchitecture::Thumbv5te
                            | ArmArchitecture::Thumbv6m
                            | ArmArchitecture::Thumbv7em
                            | ArmArchitecture::Thumbv7m
                            | ArmArchitecture::Thumbv8mBase
                            | ArmArchitecture::Thumbv8mMain
                    )
            ),
            // end of what is written
            _ => false,
        }
    }

    /// Whether the system is unknown, and the architecture omits an unknown one.
    #[inline(always)]
    pub(crate) fn omits_unknown_system(&self) -> bool
        ensures { result
            ≡ values.omits_unknown_system self.now.architecture self.now.operating_system }
    {
        match self.operating_system {
            OperatingSystem::Unknown => matches!(
                self.architecture,
                // written by tools/names/write: the architectures that omit an unknown system
                Architecture::Clever(_)
                // end of what is written
            ),
            _ => false,
        }
    }

    /// Whether the environment is shown: unless it is unknown, or a `Newlib` that vendor and system imply.
    fn shows_environment(&self) -> bool
        ensures { result ≡ spec.shows_environment (values_of_ref self.now) }
    {
        match self.environment {
            Environment::Unknown => false,
            Environment::Newlib => !self.implies_newlib(),
            _ => true,
        }
    }

    /// Whether the binary format is shown: if it isn't the implied one. Without a system a known one always is, except
    /// on some architectures and in some environments.
    #[inline(always)]
    fn shows_binary_format(&self) -> bool
        ensures { result ≡ spec.shows_binary_format (values_of_ref self.now) }
    {
        if self.binary_format != self.default_binary_format() {
            return true;
        }
        match self.operating_system {
            OperatingSystem::None_ | OperatingSystem::Unknown => {
                !self.architecture_implies_format()
                    && !self.environment_implies_format()
                    && self.binary_format != BinaryFormat::Unknown
            }
            _ => false,
        }
    }

    /// Whether the architecture omits an implied format, also without a system.
    #[inline(always)]
    fn architecture_implies_format(&self) -> bool
        ensures { result ≡ spec.architecture_implies_format self.now.architecture }
    {
        matches!(
            self.architecture,
            // written by tools/names/write: the architectures that omit an implied format
            Architecture::ZkAsm | Architecture::Avr | Architecture::Wasm32 | Architecture::Wasm64
            // end of what is written
        )
    }

    /// Whether the environment omits an implied format, also without a system.
    #[inline(always)]
    fn environment_implies_format(&self) -> bool
        ensures { result ≡ spec.environment_implies_format self.now.environment }
    {
        matches!(
            self.environment,
            // written by tools/names/write: the environments that omit an implied format
            Environment::Eabi | Environment::Eabihf | Environment::Sgx
            // end of what is written
        )
    }

    /// Whether environment and format are both shown as unknown, and the operating system with them.
    fn shows_unknowns(&self) -> bool
        ensures { result ≡ spec.shows_unknowns (values_of_ref self.now) }
    {
        matches!(
            (self.environment, self.binary_format),
            (Environment::Unknown, BinaryFormat::Unknown)
        ) && self.binary_format != self.default_binary_format()
    }
}

/// What is shown of a triple: the name of the architecture, or the special string; and each other field that is shown,
/// after a dash. The name of the operating system is without its version, which follows it.
#[derive(Clone, Copy)]
// In Rust instead: pub(crate) struct Pieces<'a> {
struct Pieces<'a> {
    first: &'static str,
    vendor: Option<&'a str>,
    operating_system: Option<&'static str>,
    version: Option<DeploymentTarget>,
    environment: Option<&'static str>,
    binary_format: Option<&'static str>,
}

impl Pieces<'_> {
    ghost use Rattle.target_lexicon.specs.Pieces.{pieces_text};

    /// Writes the string at the front of the buffer if it fits there, and returns its length. If it doesn't fit, the
    /// buffer is unchanged.
    // In Rust: #[inline].
    fn write_to(&self, out: &mut [u8]) -> usize
        requires { length (pieces_text self.now) < 2 ^ 64 }
        ensures { IsWritten (pieces_text self.now) out.old out.new result }
    {
        let mut buffer = [0; MAX_VERSION_LENGTH];
        let version = optional_version_text(self.version, &mut buffer);
        let length = self.first.len()
            + piece_length(self.vendor)
            + piece_length(self.operating_system)
            + version.len()
            + piece_length(self.environment)
            + piece_length(self.binary_format);
        if length <= out.len() {
            texts_are_put_in_order();
            let at = put(out, 0, self.first.as_bytes());
            let at = put_piece(out, at, self.vendor);
            let at = put_piece(out, at, self.operating_system);
            let at = put(out, at, version.as_bytes());
            let at = put_piece(out, at, self.environment);
            put_piece(out, at, self.binary_format);
        }
        length
    }
}

impl fmt::Display for Pieces<'_> {
    ghost use Rattle.target_lexicon.specs.Pieces.{pieces_text};

    ghost output = { λ it. Some (pieces_text it) };

    ghost styled_output = { λ it _. Some (pieces_text it) };

    #[inline(always)]
    fn fmt<W: fmt::Write>(&self, f: &mut fmt::Formatter<W>) -> fmt::Result {
        f.write_str(self.first)?;
        write_piece(f, self.vendor)?;
        write_piece(f, self.operating_system)?;
        if let Some(version) = self.version {
            f.write_str(version_text(version, &mut [0; MAX_VERSION_LENGTH]))?;
        }
        write_piece(f, self.environment)?;
        write_piece(f, self.binary_format)
    }
}

/// Writes a dash and the name, if there is one.
#[inline(always)]
fn write_piece<W: fmt::Write>(f: &mut fmt::Formatter<W>, name: Option<&str>) -> fmt::Result
    ensures { WritesStyledOnOk W.write_str_gives f.old result (name_piece name.entry) f.new }
{
    match name {
        Some(name) => {
            f.write_str("-")?;
            f.write_str(name)
        }
        None => Ok(()),
    }
}

/// The version's string, which is empty if there is no version.
#[inline(always)]
fn optional_version_text(
    version: Option<DeploymentTarget>,
    buffer: &mut [u8; MAX_VERSION_LENGTH],
) -> &str
    ensures { result.now ≡ version_suffix version }
{
    match version {
        Some(version) => version_text(version, buffer),
        None => "",
    }
}

/// The length of a dash and the name, if there is one.
// In Rust: #[inline].
fn piece_length(name: Option<&str>) -> usize
    requires { length (name_piece name) < 2 ^ 64 }
    ensures { result ≡ length (name_piece name.entry) }
{
    match name {
        Some(name) => 1 + name.len(),
        None => 0,
    }
}

/// Writes a dash and the name, if there is one, as [`put`] writes a string.
// In Rust: #[inline].
fn put_piece(out: &mut [u8], at: usize, name: Option<&str>) -> usize
    requires { at + length (name_piece name) ≤ length out.old }
    ensures { Puts (name_piece name.entry) out.old at out.new result }
{
    match name {
        Some(name) => {
            let at = put(out, at, b"-");
            put(out, at, name.as_bytes())
        }
        None => at,
    }
}

/// Writes a string after what ends at `at`, into a buffer that has room for it. Returns the end of both.
// In Rust: #[inline].
pub(crate) fn put(out: &mut [u8], at: usize, text: &[u8]) -> usize
    requires { at + length text.now ≤ length out.old }
    ensures { Puts text.now out.old at out.new result }
{
    let end = at + text.len();
    out[at..end].copy_from_slice(text);
    end
}
