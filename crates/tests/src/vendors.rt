//! Vendors: known, custom and none.

use crate::all_names::VENDORS;
use crate::values::{hash_alike, prints, writes};
use std::alloc::Global;
use std::process::Abort;
use target_lexicon::{CustomVendor, Vendor, VendorError, VendorRef};

/// Strings that parse as custom vendors, and after `=` the vendor.
const READ: &str = "\
esp32s2=Custom(Owned(\"esp32s2\"))
a_b.c9=Custom(Owned(\"a_b.c9\"))
iosfoo=Custom(Owned(\"iosfoo\"))
darwin23.0.0.0=Custom(Owned(\"darwin23.0.0.0\"))
foo=Custom(Owned(\"foo\"))";

/// Names of other fields, and strings of another form.
const REFUSED: &str = "\
=
ios17=
linux=
none=
elf=
gnu=
x86_64=
arm64=
3com=
__x=
CustomVendor=
a-b=
Ünix=";

/// Whether the string parses as this vendor, also without an allocator, and is its name; or is refused if this is
/// empty.
fn is_vendor(alloc: Global, text: &'static str, expected: &str) -> bool {
    match (Vendor::from_str(alloc, text), VendorRef::from_str(text)) {
        (Ok(vendor), Ok(borrowed)) => match (vendor.clone(alloc), borrowed.to_vendor(alloc)) {
            (Ok(copy), Ok(owned)) => vendor.is_plain()
                && vendor.as_str() == text
                && prints(&vendor, text)
                && prints(&borrowed, text)
                && hash_alike(&owned, &vendor)
                && writes(&format_args!("{copy:?}"), expected),
            _ => false,
        },
        (Err(VendorError::Unrecognized), Err(())) => {
            expected.is_empty() && !Vendor::Custom(CustomVendor::Static(text)).is_plain()
        }
        _ => false,
    }
}

#[test]
fn vendors_are_parsed_or_refused(rt: HostRuntime) {
    for rows in [VENDORS, READ, REFUSED] {
        for row in rows.lines() {
            let (text, expected) = row.split_once('=').unwrap_or((row, ""));
            assert!(rt; is_vendor(rt.alloc(), text, expected), "{row}");
        }
    }
}

#[test]
fn custom_vendors_are_compared_by_text(rt: HostRuntime) {
    let fixed = CustomVendor::Static("foo");
    let Ok(Vendor::Custom(owned)) = Vendor::from_str(rt.alloc(), "foo") else {
        panic!(rt; "not custom");
    };
    assert!(rt; hash_alike(&owned, &fixed));
    match (owned.clone(rt.alloc()), fixed.clone(rt.alloc())) {
        (Ok(owned), Ok(fixed)) => assert!(rt;
            writes(
                &format_args!("{owned:?} {fixed:?}"),
                "Owned(\"foo\") Static(\"foo\")"
            )
        ),
        _ => panic!(rt; "out of memory"),
    }
    assert!(rt; prints(&Vendor::Custom(CustomVendor::Static("")), ""));
    let apple = Vendor::Custom(CustomVendor::Static("apple"));
    assert!(rt; apple != Vendor::Apple && !apple.is_plain());
}
