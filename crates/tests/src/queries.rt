//! The queries of triples.

use crate::values::writes;
use std::process::Abort;
use target_lexicon::{
    Architecture, CDataModel, CallingConvention, Endianness, PointerWidth, Triple,
};

/// A string, and after `=` the byte order, pointer width, calling convention and data model of its triple; `-` for no
/// answer.
const ANSWERS: &str = "\
wasm32-wasip1=little 32 - ILP32
wasm32-wasi=little 32 WasmBasicCAbi ILP32
aarch64-apple-ios-gnu_ilp32=little 32 AppleAarch64 -
aarch64-apple-ios-macabi=little 64 AppleAarch64 LP64
x86_64-unknown-linux-gnu=little 64 SystemV LP64
x86_64-pc-windows-msvc=little 64 WindowsFastcall LLP64
avr-unknown-unknown=little 16 - -
wasm64-unknown-unknown=little 64 - LP64
unknown-unknown-linux-gnux32=- 32 SystemV ILP32
unknown=- - - -
x86_64-unknown-linux-gnux32=little 32 SystemV ILP32
i686-pc-windows-gnu=little 32 WindowsFastcall ILP32
aarch64-apple-darwin=little 64 AppleAarch64 LP64
aarch64-apple-ios=little 64 AppleAarch64 LP64
aarch64-apple-tvos=little 64 AppleAarch64 LP64
aarch64-apple-watchos=little 64 AppleAarch64 LP64
aarch64-linux-android=little 64 SystemV LP64
x86_64-apple-ios=little 64 SystemV LP64
aarch64_be-unknown-linux-gnu_ilp32=big 32 SystemV ILP32
aarch64-unknown-linux-gnu_ilp32=little 32 SystemV ILP32
aarch64_be-unknown-linux-gnu=big 64 SystemV LP64
aarch64-unknown-linux-gnu=little 64 SystemV LP64";

#[test]
fn triples_answer(rt: HostRuntime) {
    for row in ANSWERS.lines() {
        let (text, expected) = row.split_once('=').unwrap_or((row, ""));
        let Ok(triple) = Triple::from_str(rt.alloc(), text) else {
            panic!(rt; "{row}");
        };
        let order = triple.endianness().ok().map(Endianness::name);
        let width = triple.pointer_width().ok().map(PointerWidth::name);
        let convention = triple.default_calling_convention().ok();
        let convention = convention.map(CallingConvention::name);
        let model = triple.data_model().ok().map(CDataModel::name);
        assert!(rt;
            writes(
                &format_args!(
                    "{} {} {} {}",
                    order.unwrap_or("-"),
                    width.unwrap_or("-"),
                    convention.unwrap_or("-"),
                    model.unwrap_or("-")
                ),
                expected
            ),
            "{row}"
        );
    }
}

/// A name of an architecture, and after `=` its byte order and pointer width, and whether it is Thumb.
const ARCHITECTURES: &str = "\
unknown=- - false
thumbv8m.base=little 32 true
rabbit3000a=little 16 false
mips64=big 64 false
clever1.0=little 64 false";

#[test]
fn architectures_answer(rt: HostRuntime) {
    for row in ARCHITECTURES.lines() {
        let (name, expected) = row.split_once('=').unwrap_or((row, ""));
        let Ok(architecture) = Architecture::from_str(name) else {
            panic!(rt; "{row}");
        };
        assert!(rt;
            architecture.is_clever() == name.starts_with("clever"),
            "{row}"
        );
        let order = architecture.endianness().ok().map(Endianness::name);
        let width = architecture.pointer_width().ok().map(PointerWidth::name);
        let is_thumb = matches!(architecture, Architecture::Arm(arm) if arm.is_thumb());
        let (order, width) = (order.unwrap_or("-"), width.unwrap_or("-"));
        assert!(rt;
            writes(&format_args!("{order} {width} {is_thumb}"), expected),
            "{row}"
        );
    }
    let unknown = Triple::unknown();
    assert!(rt; unknown.endianness().is_err() && unknown.pointer_width().is_err());
    assert!(rt; unknown.default_calling_convention().is_err() && unknown.data_model().is_err());
}
