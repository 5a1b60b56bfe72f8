//! Each call of `uses` once, the macro, and the wrappers with a default.

use crate::values::{hash_alike, is_answer, prints, writes};
use std::process::Abort;
use target_lexicon::{
    Architecture, DefaultToHost, DefaultToUnknown, OperatingSystem, PointerWidth, Triple, triple,
};
use uses::{CacheKey, canonical_string, host_by_text, image_facts, triple_by_macro};

#[test]
fn callers_have_their_answers(rt: HostRuntime) {
    let alloc = rt.alloc();
    let host = "X86_64 Unknown Linux Gnu Elf";
    assert!(rt; is_answer(host_by_text(alloc), host));
    assert!(rt;
        is_answer(
            triple_by_macro(alloc, "foo"),
            "Unrecognized architecture: foo"
        )
    );
    assert!(rt; is_answer(triple!(alloc, "x86_64-unknown-linux-gnu",), host));
    match canonical_string(alloc, "arm64-linux-gnu") {
        Ok(text) => assert!(rt; text.as_str() == "aarch64-unknown-linux-gnu"),
        Err(_) => panic!(rt; "no key"),
    }
    match Triple::from_str(alloc, "armv6k-nintendo-horizon-gnu") {
        Ok(triple) => assert!(rt; prints(&CacheKey::new(triple).triple, "armv6k-nintendo-3ds")),
        Err(_) => panic!(rt; "no triple"),
    }
    match image_facts("x86_64-nuttx") {
        Some(facts) => assert!(rt;
            writes(
                &format_args!(
                    "{:?} {:?} {:?}",
                    facts.endianness, facts.pointer_width, facts.format
                ),
                "Some(Little) Some(U64) Elf"
            )
        ),
        None => panic!(rt; "no facts"),
    }
    assert!(rt; image_facts("x86_64-Foo").is_none());
}

#[test]
fn defaults_are_the_host_and_the_unknown_triple(rt: HostRuntime) {
    assert!(rt; prints(&DefaultToHost::default().0, "x86_64-unknown-linux-gnu"));
    assert!(rt; prints(&DefaultToUnknown::default().0, "unknown-unknown-unknown"));
    assert!(rt; OperatingSystem::host() == OperatingSystem::Linux);
    assert!(rt; Architecture::host().pointer_width() == Ok(PointerWidth::U64));
    let text = "x86_64-customvendor-linux";
    match (
        Triple::from_str(rt.alloc(), text),
        Triple::from_str(rt.alloc(), text),
    ) {
        (Ok(one), Ok(other)) => {
            let (host, unknown) = (DefaultToHost(one), DefaultToUnknown(other));
            match (host.clone(rt.alloc()), unknown.clone(rt.alloc())) {
                (Ok(one), Ok(other)) => assert!(rt;
                    hash_alike(&one, &host) && hash_alike(&other, &unknown)
                ),
                _ => panic!(rt; "out of memory"),
            }
        }
        _ => panic!(rt; "out of memory"),
    }
}
