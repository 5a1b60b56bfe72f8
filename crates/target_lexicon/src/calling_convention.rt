//! Calling conventions.
ghost use Rattle.std.specs.Prelude.{◌≡◌};
ghost use Rattle.target_lexicon.specs.CallingConvention.{convention_name};

/// A calling convention: which registers have the arguments of a call, which ones a call preserves, and so on.
///
/// # Examples
///
/// ```
/// use target_lexicon::{CallingConvention, TripleRef};
///
/// let triple = TripleRef::from_str("x86_64-pc-windows-msvc").unwrap();
/// assert_eq!(rt; triple.default_calling_convention(), Ok(CallingConvention::WindowsFastcall));
/// ```
// In Rust: #[non_exhaustive].
#[derive(Clone, Copy, Debug, PartialEq, Eq, Hash)]
pub enum CallingConvention {
    /// "System V", on most systems like Unix. It differs by architecture: that of 32-bit x86 has nothing in common with
    /// that of 64-bit x86.
    SystemV,
    /// The C ABI of WebAssembly:
    /// <https://github.com/WebAssembly/tool-conventions/blob/master/BasicCABI.md>
    WasmBasicCAbi,
    /// "Windows Fastcall", on Windows. It differs by architecture too: on 32-bit x86 it is the convention that Windows
    /// calls "fastcall", on 64-bit x86 the Windows x64 calling convention.
    WindowsFastcall,
    /// Apple's variant of the common convention of 64-bit Arm:
    /// <https://developer.apple.com/documentation/xcode/writing_arm64_code_for_apple_platforms>
    AppleAarch64,
}

impl CallingConvention {
    /// The name of the convention.
    // In Rust: pub(crate).
    pub const fn name(self) -> &'static str
        ensures { result.now ≡ convention_name self }
    {
        match self {
            // written by tools/names/write: the names of CallingConvention
            CallingConvention::SystemV => "SystemV",
            CallingConvention::WasmBasicCAbi => "WasmBasicCAbi",
            CallingConvention::WindowsFastcall => "WindowsFastcall",
            CallingConvention::AppleAarch64 => "AppleAarch64",
            // end of what is written
        }
    }
}
