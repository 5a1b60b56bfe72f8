//! Queries for code generators.
ghost use Rattle.std.specs.Prelude.{◌≡◌, ◌↔◌, IsErr, false};
ghost use Rattle.lexicon_fields.specs.Names.{MatchesLookup};
ghost use Rattle.target_lexicon.specs.Queries as spec;
ghost use Rattle.lexicon_fields.specs.declared.known_vendor.KnownVendor.TheVariants.{Unknown};
ghost use Rattle.target_lexicon.specs.Values.{Known, values, values_of};
ghost use Rattle.target_lexicon.specs.ValuesRef.{values_of_ref};

use crate::calling_convention::CallingConvention;
use crate::data_model::CDataModel;
use crate::triple::Triple;
use crate::triple_ref::TripleRef;
use lexicon_fields::{
    Architecture, Endianness, Environment, KnownVendor, OperatingSystem, PointerWidth, VendorRef,
};
// written by tools/names/write: the families that have conventions by their members
// end of what is written

impl TripleRef<'_> {
    /// The byte order, as [`Triple::endianness`] says.
    ///
    /// # Errors
    ///
    /// `()` for the architecture `Unknown`.
    // In Rust: pub(crate), known_endianness.
    pub const fn endianness(&self) -> Result<Endianness, ()>
        ensures answer { MatchesLookup (spec.endianness (values_of_ref self.now)) result }
        ensures refusal { IsErr result ↔ (self.now.architecture ≡ Architecture.Unknown) }
    {
        self.architecture.endianness()
    }

    /// The width of a pointer, as [`Triple::pointer_width`] says.
    ///
    /// # Errors
    ///
    /// `()` if the width is that of the architecture, which is `Unknown`.
    // In Rust: pub(crate), known_pointer_width.
    pub const fn pointer_width(&self) -> Result<PointerWidth, ()>
        ensures answer { MatchesLookup (spec.pointer_width (values_of_ref self.now)) result }
        ensures refusal { IsErr result
            ↔ ((self.now.architecture ≡ Architecture.Unknown)
            × (spec.is_ilp32 self.now.environment ≡ false)) }
    {
        match self.environment {
            // written by tools/names/write: the pointer widths of Environment
            Environment::Gnux32 | Environment::GnuIlp32 => Ok(PointerWidth::U32),
            // end of what is written
            _ => self.architecture.pointer_width(),
        }
    }

    /// The calling convention, as [`Triple::default_calling_convention`] says.
    ///
    /// # Errors
    ///
    /// `()` if no convention is known.
    // In Rust: pub(crate), known_default_calling_convention.
    pub const fn default_calling_convention(&self) -> Result<CallingConvention, ()>
        ensures { MatchesLookup (spec.calling_convention (values_of_ref self.now)) result }
    {
        match self.operating_system {
            // written by tools/names/write: the conventions of systems
            OperatingSystem::Darwin(_)
            | OperatingSystem::IOS(_)
            | OperatingSystem::MacOSX(_)
            | OperatingSystem::TvOS(_)
            | OperatingSystem::VisionOS(_)
            | OperatingSystem::WatchOS(_)
            | OperatingSystem::XROS(_) => match self.architecture {
                Architecture::Aarch64(_) => Ok(CallingConvention::AppleAarch64),
                _ => Ok(CallingConvention::SystemV),
            },
            OperatingSystem::Aix
            | OperatingSystem::Bitrig
            | OperatingSystem::Cloudabi
            | OperatingSystem::Dragonfly
            | OperatingSystem::Freebsd
            | OperatingSystem::Fuchsia
            | OperatingSystem::Haiku
            | OperatingSystem::Hermit
            | OperatingSystem::Hurd
            | OperatingSystem::L4re
            | OperatingSystem::Linux
            | OperatingSystem::Netbsd
            | OperatingSystem::Openbsd
            | OperatingSystem::Redox
            | OperatingSystem::Solaris => Ok(CallingConvention::SystemV),
            OperatingSystem::Windows => Ok(CallingConvention::WindowsFastcall),
            OperatingSystem::Nebulet
            | OperatingSystem::Emscripten
            | OperatingSystem::Wasi
            | OperatingSystem::Unknown => match self.architecture {
                Architecture::Wasm32 => Ok(CallingConvention::WasmBasicCAbi),
                _ => Err(()),
            },
            OperatingSystem::AmdHsa
            | OperatingSystem::Cuda
            | OperatingSystem::Cygwin
            | OperatingSystem::Espidf
            | OperatingSystem::Horizon
            | OperatingSystem::Illumos
            | OperatingSystem::None_
            | OperatingSystem::Psp
            | OperatingSystem::SolidAsp3
            | OperatingSystem::Uefi
            | OperatingSystem::VxWorks
            | OperatingSystem::WasiP1
            | OperatingSystem::WasiP2 => Err(()),
            // end of what is written
        }
    }

    /// The data model of C, as [`Triple::data_model`] says.
    ///
    /// # Errors
    ///
    /// `()` if no model is known.
    // In Rust: pub(crate), const, known_data_model.
    pub fn data_model(&self) -> Result<CDataModel, ()>
        ensures { MatchesLookup (spec.data_model (values_of_ref self.now)) result }
    {
        match self.pointer_width()? {
            PointerWidth::U64 => self.data_model_64(),
            PointerWidth::U32 => self.data_model_32(),
            PointerWidth::U16 => Err(()),
        }
    }

    /// Whether 64-bit machines have the data model LLP64 on the system, whatever its calling convention is.
    const fn has_llp64(&self) -> bool
        ensures { result ≡ spec.has_llp64 self.now.operating_system }
    {
        matches!(
            self.operating_system,
            // written by tools/names/write: the systems with LLP64
            OperatingSystem::Windows
            // end of what is written
        )
    }

    /// The data model for pointers of 64 bits.
    // In Rust: const.
    fn data_model_64(&self) -> Result<CDataModel, ()>
        ensures { MatchesLookup
            (spec.model_64 self.now.architecture self.now.operating_system) result }
    {
        if self.has_llp64() {
            return Ok(CDataModel::LLP64);
        }
        match self.architecture {
            Architecture::Wasm64 => Ok(CDataModel::LP64),
            _ => {
                let convention = self.default_calling_convention()?;
                match convention {
                    CallingConvention::SystemV | CallingConvention::AppleAarch64 => {
                        Ok(CDataModel::LP64)
                    }
                    _ => Err(()),
                }
            }
        }
    }

    /// Whether 32-bit machines have the data model ILP32 on the system, whatever its calling convention is.
    const fn has_ilp32(&self) -> bool
        ensures { result ≡ spec.has_ilp32 self.now.operating_system }
    {
        matches!(
            self.operating_system,
            // written by tools/names/write: the systems with ILP32
            OperatingSystem::Windows
            // end of what is written
        )
    }

    /// The data model for pointers of 32 bits.
    // In Rust: const.
    fn data_model_32(&self) -> Result<CDataModel, ()>
        ensures { MatchesLookup
            (spec.model_32 self.now.architecture self.now.operating_system) result }
    {
        if self.has_ilp32() {
            return Ok(CDataModel::ILP32);
        }
        match self.architecture {
            Architecture::Wasm32 => Ok(CDataModel::ILP32),
            _ => {
                let convention = self.default_calling_convention()?;
                match convention {
                    CallingConvention::SystemV => Ok(CDataModel::ILP32),
                    _ => Err(()),
                }
            }
        }
    }
}

impl Triple {
    /// The same triple with an unknown vendor, at which no query looks.
    // In Rust: pub(crate).
    const fn without_vendor(&self) -> TripleRef<'static>
        ensures { values_of_ref result ≡ values self.now.architecture (Known Unknown)
            self.now.operating_system self.now.environment self.now.binary_format }
    {
        TripleRef {
            architecture: self.architecture,
            vendor: VendorRef::Known(KnownVendor::Unknown),
            operating_system: self.operating_system,
            environment: self.environment,
            binary_format: self.binary_format,
        }
    }

    /// The byte order of the architecture.
    ///
    /// # Errors
    ///
    /// `()` for the architecture `Unknown`.
    ///
    /// # Examples
    ///
    /// ```
    /// use target_lexicon::{Architecture, Endianness, Triple};
    ///
    /// let triple = Triple { architecture: Architecture::S390x, ..Triple::unknown() };
    /// assert_eq!(rt; triple.endianness(), Ok(Endianness::Big));
    /// ```
    pub const fn endianness(&self) -> Result<Endianness, ()>
        ensures answer { MatchesLookup (spec.endianness (values_of self.now)) result }
        ensures refusal { IsErr result ↔ (self.now.architecture ≡ Architecture.Unknown) }
    {
        self.without_vendor().endianness()
    }

    /// The width of a pointer: 32 bits in the environments `Gnux32` and `GnuIlp32`, in every other environment the
    /// width of the architecture.
    ///
    /// # Errors
    ///
    /// `()` if the width is that of the architecture, which is `Unknown`.
    ///
    /// # Examples
    ///
    /// ```
    /// use target_lexicon::{Architecture, Environment, PointerWidth, Triple};
    ///
    /// let mut triple = Triple { architecture: Architecture::X86_64, ..Triple::unknown() };
    /// assert_eq!(rt; triple.pointer_width(), Ok(PointerWidth::U64));
    /// triple.environment = Environment::Gnux32;
    /// assert_eq!(rt; triple.pointer_width(), Ok(PointerWidth::U32));
    /// ```
    pub const fn pointer_width(&self) -> Result<PointerWidth, ()>
        ensures answer { MatchesLookup (spec.pointer_width (values_of self.now)) result }
        ensures refusal { IsErr result
            ↔ ((self.now.architecture ≡ Architecture.Unknown)
            × (spec.is_ilp32 self.now.environment ≡ false)) }
    {
        self.without_vendor().pointer_width()
    }

    /// The calling convention. It depends on the operating system, and on systems like Darwin and those that run
    /// WebAssembly also on the architecture.
    ///
    /// # Errors
    ///
    /// `()` if no convention is known, for instance on `WasiP1`, `WasiP2`, `Illumos` and `Cygwin`.
    ///
    /// # Examples
    ///
    /// ```
    /// use target_lexicon::{CallingConvention, OperatingSystem, Triple};
    ///
    /// let triple = Triple { operating_system: OperatingSystem::Linux, ..Triple::unknown() };
    /// assert_eq!(rt; triple.default_calling_convention(), Ok(CallingConvention::SystemV));
    /// assert_eq!(rt; Triple::unknown().default_calling_convention(), Err(()));
    /// ```
    pub const fn default_calling_convention(&self) -> Result<CallingConvention, ()>
        ensures { MatchesLookup (spec.calling_convention (values_of self.now)) result }
    {
        self.without_vendor().default_calling_convention()
    }

    /// The data model of C. It depends on the pointer width, the operating system, the calling convention and the
    /// architecture.
    ///
    /// # Errors
    ///
    /// `()` if no model is known, for instance for pointers of 16 bits.
    ///
    /// # Examples
    ///
    /// ```
    /// use target_lexicon::{Architecture, CDataModel, OperatingSystem, Triple};
    ///
    /// let mut triple = Triple { architecture: Architecture::X86_64, ..Triple::unknown() };
    /// assert_eq!(rt; triple.data_model(), Err(()));
    /// triple.operating_system = OperatingSystem::Windows;
    /// assert_eq!(rt; triple.data_model(), Ok(CDataModel::LLP64));
    /// ```
    // In Rust: const.
    pub fn data_model(&self) -> Result<CDataModel, ()>
        ensures { MatchesLookup (spec.data_model (values_of self.now)) result }
    {
        self.without_vendor().data_model()
    }
}
