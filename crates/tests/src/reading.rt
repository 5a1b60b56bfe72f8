//! Strings that parse as a triple, and strings that are refused, misleading and very long ones too.

use crate::values::{hash_alike, is_answer, prints};
use std::alloc::Global;
use std::process::Abort;
use target_lexicon::{ParseError, Triple, TripleRef};

/// A string, and after `=` the five values of the triple that it parses as.
const READ: &str = "\
unknown-unknown-unknown=Unknown Unknown Unknown Unknown Unknown
unknown-unknown-unknown-unknown=Unknown Unknown Unknown Unknown Unknown
unknown-unknown-unknown-unknown-unknown=Unknown Unknown Unknown Unknown Unknown
riscv64=Riscv64(Riscv64) Unknown Unknown Unknown Elf
aarch64-fuchsia=Aarch64(Aarch64) Unknown Fuchsia Unknown Elf
aarch64-unknown-fuchsia=Aarch64(Aarch64) Unknown Fuchsia Unknown Elf
x86_64-fuchsia=X86_64 Unknown Fuchsia Unknown Elf
x86_64-unknown-fuchsia=X86_64 Unknown Fuchsia Unknown Elf
thumbv7em-none-eabihf=Arm(Thumbv7em) Unknown None_ Eabihf Elf
x86_64-unknown-linux-gnu=X86_64 Unknown Linux Gnu Elf
x86_64-unknown-none=X86_64 Unknown None_ Unknown Unknown
x86_64-none-none=X86_64 Unknown None_ None Unknown
clever-unknown-unknown-none=Clever(Clever) Unknown Unknown None Elf
clever-unknown-none-elf=Clever(Clever) Unknown None_ Unknown Elf
clever-unknown-unknown-unknown-unknown=Clever(Clever) Unknown Unknown Unknown Unknown
clever-unknown-unknown=Clever(Clever) Unknown Unknown Unknown Elf
x86_64-unknown-linux-unknown-unknown=X86_64 Unknown Linux Unknown Unknown
x86_64-unknown-linux-unknown=X86_64 Unknown Linux Unknown Elf
arm64-apple-ios=Aarch64(Aarch64) Apple IOS(None) Unknown Macho
aarch64-apple-macosx=Aarch64(Aarch64) Apple MacOSX(None) Unknown Macho
aarch64-apple-macosx10.14.6=Aarch64(Aarch64) Apple MacOSX(Some(DeploymentTarget { major: 10, minor: 14, patch: 6 })) Unknown Macho
x86_64-apple-darwin23=X86_64 Apple Darwin(Some(DeploymentTarget { major: 23, minor: 0, patch: 0 })) Unknown Macho
x86_64-apple-darwin23.0=X86_64 Apple Darwin(Some(DeploymentTarget { major: 23, minor: 0, patch: 0 })) Unknown Macho
x86_64-apple-darwin23.0.0=X86_64 Apple Darwin(Some(DeploymentTarget { major: 23, minor: 0, patch: 0 })) Unknown Macho
x86_64-apple-darwin+023.6=X86_64 Apple Darwin(Some(DeploymentTarget { major: 23, minor: 6, patch: 0 })) Unknown Macho
x86_64-apple-ios65535.255.255=X86_64 Apple IOS(Some(DeploymentTarget { major: 65535, minor: 255, patch: 255 })) Unknown Macho
armv6k-nintendo-3ds=Arm(Armv6k) Nintendo Horizon Newlib Elf
armv6k-nintendo-horizon-gnu-coff=Arm(Armv6k) Nintendo Horizon Gnu Coff
aarch64-nintendo-horizon-newlib-unknown=Aarch64(Aarch64) Nintendo Horizon Newlib Unknown
riscv32imc-esp-espidf=Riscv32(Riscv32imc) Espressif Espidf Newlib Elf
riscv32imc-esp-espidf-unknown=Riscv32(Riscv32imc) Custom(Owned(\"esp\")) Espidf Unknown Elf
riscv32imc-esp-espidf-unknown-unknown=Riscv32(Riscv32imc) Custom(Owned(\"esp\")) Espidf Unknown Unknown
x86_64-customvendor-linux=X86_64 Custom(Owned(\"customvendor\")) Linux Unknown Elf
x86_64-customvendor=X86_64 Custom(Owned(\"customvendor\")) Unknown Unknown Elf
x86_64-ffi-linux=X86_64 Custom(Owned(\"ffi\")) Linux Unknown Elf
x86_64-darwin23.0.0.0=X86_64 Custom(Owned(\"darwin23.0.0.0\")) Unknown Unknown Elf
unknown-foo=Unknown Custom(Owned(\"foo\")) Unknown Unknown Unknown
wasm32-wasip1=Wasm32 Unknown WasiP1 Unknown Elf
wasm32-wasi=Wasm32 Unknown Wasi Unknown Wasm";

/// A string, and after `=` the line that says why it is refused. Some letters only look like those of a vendor.
const REFUSED: &str = "\
=Unrecognized architecture: 
foo=Unrecognized architecture: foo
customvendor=Unrecognized architecture: customvendor
customvendor-x86_64=Unrecognized architecture: customvendor
x86_64-=Unrecognized vendor: 
x86_64--=Unrecognized vendor: 
x86_64--linux=Unrecognized vendor: 
x86_64-42-linux=Unrecognized vendor: 42
x86_64-__customvendor__-linux=Unrecognized vendor: __customvendor__
x86_64-^-linux=Unrecognized vendor: ^
x86_64-\u{20}-linux=Unrecognized vendor: \u{20}
x86_64-CustomVendor-linux=Unrecognized vendor: CustomVendor
x86_64-x86_64-linux=Unrecognized vendor: x86_64
x86_64-é-linux=Unrecognized vendor: é
x86_64-ćúśtőḿvéńdőŕ-linux=Unrecognized vendor: ćúśtőḿvéńdőŕ
x86_64-𝓬𝓾𝓼𝓽𝓸𝓶𝓿𝓮𝓷𝓭𝓸𝓻-linux=Unrecognized vendor: 𝓬𝓾𝓼𝓽𝓸𝓶𝓿𝓮𝓷𝓭𝓸𝓻
x86_64-customvend\u{3bf}r-linux=Unrecognized vendor: customvend\u{3bf}r
x86_64-\u{fb03}-linux=Unrecognized vendor: \u{fb03}
x86_64-\u{feff}customvendor-linux=Unrecognized vendor: \u{feff}customvendor
unknown-unknown-foo=Unrecognized operating system: foo
armv6k-nintendo-3ds-elf=Unrecognized operating system: 3ds
x86_64-a-b-linux=Unrecognized operating system: b
x86_64-apple-darwin.=Unrecognized operating system: darwin.
x86_64-apple-darwin23.0.0.0=Unrecognized operating system: darwin23.0.0.0
x86_64-apple-ios65536=Unrecognized operating system: ios65536
x86_64-apple-ios1.256=Unrecognized operating system: ios1.256
unknown-unknown-unknown-foo=Unrecognized environment: foo
x86_64-linux-linux=Unrecognized environment: linux
x86_64-linux-customvendor=Unrecognized environment: customvendor
x86_64-customvendor-linux-foo-bar=Unrecognized environment: foo
unknown-unknown-unknown-unknown-foo=Unrecognized binary format: foo
x86_64-gnu-linux=Unrecognized binary format: linux
unknown-unknown-unknown-unknown-unknown-foo=Unrecognized field: foo
x86_64-elf-linux=Unrecognized field: linux
x86_64-custom\u{200d}vendor-linux=Unrecognized vendor: custom\u{200d}vendor
x86_64-none-linux=Unrecognized environment: linux
x86_64-apple-ios1.-2=Unrecognized operating system: ios1.
x86_64-apple-ios\u{661}=Unrecognized operating system: ios\u{661}";

/// The same of strings with a thousand dashes for each star.
const DASHES: &str = "\
*****=Unrecognized architecture: 
x86_64*****=Unrecognized vendor: 
x86_64-unknown-linux-gnu-elf*****=Unrecognized field: ";

/// The same of a string with a thousand nines for the star.
const NINES: &str = "\
x86_64-apple-ios*=Unrecognized operating system: ios*";

/// A string with a thousand zeros for each star, and the five values.
const ZEROS: &str = "\
x86_64-apple-darwin*23.*=X86_64 Apple Darwin(Some(DeploymentTarget { major: 23, minor: 0, patch: 0 })) Unknown Macho";

/// Whether the string parses as a triple with these values, or is refused with this line; the same without an allocator
/// and then owned; and so does a clone.
fn is_parsed(alloc: Global, text: &str, expected: &str) -> bool {
    match (Triple::from_str(alloc, text), TripleRef::from_str(text)) {
        (Ok(triple), Ok(borrowed)) => match (triple.clone(alloc), borrowed.to_triple(alloc)) {
            (Ok(copy), Ok(owned)) => hash_alike(&copy, &triple)
                && owned == triple
                && is_answer::<ParseError>(Ok(owned), expected),
            _ => false,
        },
        (Err(error), Err(borrowed)) => match (error.clone(alloc), borrowed.to_error(alloc)) {
            (Ok(copy), Ok(owned)) => copy == error
                && owned == error
                && prints(&borrowed, expected)
                && is_answer(Err(owned), expected),
            _ => false,
        },
        _ => false,
    }
}

#[test]
fn strings_are_parsed_or_refused(rt: HostRuntime) {
    let alloc = rt.alloc();
    for (rows, star) in [
        (READ, "*"),
        (REFUSED, "*"),
        (DASHES, "-"),
        (NINES, "9"),
        (ZEROS, "0"),
    ] {
        let Ok(stars) = star.repeat(alloc, 1000) else {
            panic!(rt; "out of memory");
        };
        let Ok(rows) = rows.replace(alloc, "*", stars.as_str()) else {
            panic!(rt; "out of memory");
        };
        for row in rows.lines() {
            let (text, expected) = row.split_once('=').unwrap_or((row, ""));
            assert!(rt; is_parsed(alloc, text, expected), "{row}");
        }
    }
}
