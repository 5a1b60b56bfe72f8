//! The printed strings of triples, parsed and built, and what they parse as.

use crate::known_triples::KNOWN_TRIPLES;
use crate::values::{hash_alike, is_answer, prints, writes};
use std::alloc::Global;
use std::process::Abort;
use target_lexicon::{Architecture, CustomVendor, RoundTripException, Triple, Vendor, round};

/// Whether the triple and the borrowed one display this string, and `to_text` returns it.
fn is_printed(alloc: Global, triple: &Triple, text: &str) -> bool {
    match triple.to_text(alloc) {
        Ok(printed) => printed.as_str() == text
            && prints(triple, text)
            && prints(&triple.as_triple_ref(), text),
        Err(_) => false,
    }
}

/// A string, after `=` its triple, printed, and, if that differs, its canonical triple, printed. A star is a thousand
/// zeros.
const READ: &str = "\
unknown-unknown-unknown=unknown-unknown-unknown
unknown-unknown-unknown-unknown=unknown-unknown-unknown
unknown-unknown-unknown-unknown-unknown=unknown-unknown-unknown
riscv64=riscv64-unknown-unknown-elf
x86_64-apple-darwin+023.6=x86_64-apple-darwin23.6.0
x86_64-darwin23.0.0.0=x86_64-darwin23.0.0.0-unknown-elf
x86_64-apple-ios65535.255.255=x86_64-apple-ios65535.255.255
x86_64-none-none=x86_64-unknown-none-none
armv6k-nintendo-3ds=armv6k-nintendo-3ds
armv6k-nintendo-horizon-gnu-coff=armv6k-nintendo-3ds
aarch64-nintendo-horizon-newlib-unknown=aarch64-nintendo-horizon-unknown aarch64-nintendo-horizon
riscv32imc-esp-espidf=riscv32imc-esp-espidf
x86_64-unknown-linux-unknown-unknown=x86_64-unknown-linux-unknown-unknown
arm64-apple-ios=aarch64-apple-ios
aarch64-apple-ios17.2-macabi=aarch64-apple-ios17.2.0-macabi
aarch64-pc-ios17.2-macabi-elf=aarch64-pc-ios17.2.0-macabi-elf
x86_64-customvendor-linux=x86_64-customvendor-linux
x86_64-fortanix-unknown-sgx=x86_64-fortanix-unknown-sgx
hexagon-unknown-none-elf=hexagon-unknown-none-elf
x86_64-unknown-linux-kernel=x86_64-linux-kernel
x86_64-none-linuxkernel=x86_64-unknown-none-linuxkernel
wasm32-wasi-unknown-unknown=wasm32-wasi-unknown-unknown
wasm32-unknown-wasi-unknown-unknown=wasm32-wasi-unknown-unknown
x86_64-unknown-none-unknown-unknown=x86_64-unknown-none
wasm32-wasip1=wasm32-wasip1
riscv32imc-esp-espidf-unknown-unknown=riscv32imc-esp-espidf-unknown-unknown
armv6k-nintendo-horizon-unknown-unknown=armv6k-nintendo-3ds
clever-unknown-unknown-none=clever-unknown-none-elf
clever-unknown-unknown-unknown-unknown=clever-unknown-unknown-unknown-unknown
x86_64-unknown-linux-unknown=x86_64-unknown-linux
armv7a-unknown-none-eabihf-elf=armv7a-none-eabihf
clever-pc-unknown-gnu-elf=clever-pc-gnu-elf
aarch64-nintendo-horizon-newlib-coff=aarch64-nintendo-horizon-coff
clever1.0-pc-unknown-none-coff=clever1.0-pc-none-coff
x86_64-apple-darwin*23.*=x86_64-apple-darwin23.0.0";

/// Whether the round trip of the first triple gives the second.
fn is_round(alloc: Global, triple: &Triple, back: &Triple) -> bool {
    match round(alloc, triple) {
        Ok(again) => again == *back,
        Err(_) => false,
    }
}

/// Whether the triple of the string prints this, and comes back and has no exception if and only if that parses as the
/// triple; and the triple of the printed string is the round trip, the next step and the canonical triple, and prints
/// the last string.
fn is_round_trip(alloc: Global, text: &str, print: &str, last: &str) -> bool {
    match (
        Triple::from_str(alloc, text),
        Triple::from_str(alloc, text),
        Triple::from_str(alloc, print),
    ) {
        (Ok(triple), Ok(same), Ok(back)) => is_printed(alloc, &triple, print)
            && is_printed(alloc, &back, last)
            && triple.comes_back() == (triple == back)
            && triple.round_trip_exception().is_none() == (triple == back)
            && is_round(alloc, &triple, &back)
            && triple.normal() == back
            && same.settle() == back,
        _ => false,
    }
}

#[test]
fn parsed_triples_print(rt: HostRuntime) {
    let Ok(zeros) = "0".repeat(rt.alloc(), 1000) else {
        panic!(rt; "out of memory");
    };
    let Ok(rows) = READ.replace(rt.alloc(), "*", zeros.as_str()) else {
        panic!(rt; "out of memory");
    };
    for row in rows.lines() {
        let (text, prints) = row.split_once('=').unwrap_or((row, ""));
        let (print, last) = prints.split_once(' ').unwrap_or((prints, prints));
        assert!(rt; is_round_trip(rt.alloc(), text, print, last), "{row}");
    }
    for text in KNOWN_TRIPLES.lines() {
        assert!(rt; is_round_trip(rt.alloc(), text, text, text), "{text}");
        let triple = Triple::from_str(rt.alloc(), text);
        assert!(rt;
            matches!(&triple, Ok(triple) if triple.architecture != Architecture::Unknown
                && triple.comes_back()),
            "{text}"
        );
    }
}

/// A custom vendor and a string; what the string's triple prints with that vendor; and the triple that this parses as,
/// or why it is refused. Only the first vendor is plain.
const BUILT: &str = "\
customvendor x86_64-unknown-linux-unknown-elf=x86_64-customvendor-linux=X86_64 Custom(Owned(\"customvendor\")) Linux Unknown Elf
a-b x86_64-unknown-linux-unknown-elf=x86_64-a-b-linux=Unrecognized operating system: b
 x86_64-unknown-linux-unknown-elf=x86_64--linux=Unrecognized vendor:\u{20}
apple x86_64-unknown-darwin-unknown-macho=x86_64-apple-darwin=X86_64 Apple Darwin(None) Unknown Macho
pc x86_64-unknown-windows-msvc-coff=x86_64-pc-windows-msvc=X86_64 Pc Windows Msvc Coff
unknown-linux x86_64-unknown-unknown-unknown-elf=x86_64-unknown-linux-unknown-elf=X86_64 Unknown Linux Unknown Elf
none x86_64-unknown-linux-unknown-elf=x86_64-none-linux=Unrecognized environment: linux";

/// Whether the triple of the string with this vendor prints this string, which parses as that, as a round trip does;
/// and it comes back and has no exception if and only if its vendor is plain.
fn is_built(alloc: Global, text: &str, vendor: &'static str, print: &str, expected: &str) -> bool {
    let Ok(parsed) = Triple::from_str(alloc, text) else {
        return false;
    };
    let triple = Triple {
        vendor: Vendor::Custom(CustomVendor::Static(vendor)),
        ..parsed
    };
    let answer = Triple::from_str(alloc, print);
    let is_back = matches!(&answer, Ok(back) if hash_alike(back, &triple));
    triple.comes_back() == is_back
        && triple.vendor.is_plain() == is_back
        && matches!(
            triple.round_trip_exception(),
            Some(RoundTripException::VendorIsNotPlain)
        ) != is_back
        && is_printed(alloc, &triple, print)
        && is_answer(round(alloc, &triple), expected)
        && is_answer(answer, expected)
}

#[test]
fn built_triples_print(rt: HostRuntime) {
    for row in BUILT.lines() {
        let (names, rest) = row.split_once('=').unwrap_or((row, ""));
        let (vendor, text) = names.split_once(' ').unwrap_or((names, ""));
        let (print, expected) = rest.split_once('=').unwrap_or((rest, ""));
        assert!(rt;
            is_built(rt.alloc(), text, vendor, print, expected),
            "{row}"
        );
    }
}
