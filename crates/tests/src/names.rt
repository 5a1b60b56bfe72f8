//! The names of all values without a version, both ways, and the table of names.

use crate::all_names::{
    ALIASES, ARCHITECTURES, BINARY_FORMATS, DARWIN_SYSTEMS, ENVIRONMENTS, OPERATING_SYSTEMS,
    VENDORS,
};
use crate::values::{prints, writes};
use lexicon_fields::{ROW_COUNT, Steps, fixed_row, row_order};
use std::cmp::Ordering;
use std::fmt::{Debug, Display};
use std::process::Abort;
use std::str::FromStr;
// written by tools/names/write: the types of families in tests
use target_lexicon::{
    Aarch64Architecture, ArmArchitecture, CleverArchitecture, Mips32Architecture,
    Mips64Architecture, Riscv32Architecture, Riscv64Architecture, X86_32Architecture,
    Z80Architecture,
};
// end of what is written
use target_lexicon::{Architecture, BinaryFormat, Environment, OperatingSystem};

/// Each row is a name and its value, as `{:?}` shows it. A name parses if and only if its value begins with that of the
/// family, and then it is what the value prints.
fn check_names<T: Debug + Display + Drop + FromStr<Err = ()>>(
    rt: &impl Abort,
    rows: &str,
    family: &str,
) {
    for row in rows.lines() {
        let (name, shown) = row.split_once('=').unwrap_or((row, ""));
        match (name.parse::<T>(), shown.strip_prefix(family)) {
            (Ok(value), Some(rest)) => {
                let end = if family.is_empty() { "" } else { ")" };
                assert!(rt; prints(&value, name), "{row}");
                assert!(rt; writes(&format_args!("{value:?}{end}"), rest), "{row}");
            }
            (Err(()), None) => {}
            _ => panic!(rt; "{row}"),
        }
    }
}

#[test]
fn each_value_has_its_name(rt: HostRuntime) {
    check_names::<Architecture>(&rt, ARCHITECTURES, "");
    // written by tools/names/write: the tests of families
    check_names::<ArmArchitecture>(&rt, ARCHITECTURES, "Arm(");
    check_names::<Aarch64Architecture>(&rt, ARCHITECTURES, "Aarch64(");
    check_names::<X86_32Architecture>(&rt, ARCHITECTURES, "X86_32(");
    check_names::<Mips32Architecture>(&rt, ARCHITECTURES, "Mips32(");
    check_names::<Mips64Architecture>(&rt, ARCHITECTURES, "Mips64(");
    check_names::<Riscv32Architecture>(&rt, ARCHITECTURES, "Riscv32(");
    check_names::<Riscv64Architecture>(&rt, ARCHITECTURES, "Riscv64(");
    check_names::<CleverArchitecture>(&rt, ARCHITECTURES, "Clever(");
    check_names::<Z80Architecture>(&rt, ARCHITECTURES, "Z80(");
    // end of what is written
    check_names::<OperatingSystem>(&rt, OPERATING_SYSTEMS, "");
    check_names::<OperatingSystem>(&rt, DARWIN_SYSTEMS, "");
    check_names::<Environment>(&rt, ENVIRONMENTS, "");
    check_names::<BinaryFormat>(&rt, BINARY_FORMATS, "");
    for text in ["armv8_1a", "Aarch64", "aarch64be", "arm64 ", ""] {
        assert!(rt; Architecture::from_str(text).is_err(), "{text}");
        assert!(rt; ArmArchitecture::from_str(text).is_err(), "{text}");
        assert!(rt; Aarch64Architecture::from_str(text).is_err(), "{text}");
    }
}

/// A string, and after `=` the values of its row in the table of names, by field; nothing if it has no row.
const ROWS: &str = "\
none=None None Some(None_) Some(None) None
unknown=Some(Unknown) Some(Unknown) Some(Unknown) Some(Unknown) Some(Unknown)
arm64=Some(Aarch64(Aarch64)) None None None None
clever1.0=Some(Clever(Clever1_0)) None None None None
pc=None Some(Pc) None None None
=
darwin=
ios17=
zz=";

#[test]
fn names_have_rows(rt: HostRuntime) {
    for row in ALIASES.lines() {
        let (name, shown) = row.split_once('=').unwrap_or((row, ""));
        let value = Architecture::from_str(name).unwrap_or(Architecture::Unknown);
        assert!(rt; writes(&format_args!("{value:?}"), shown), "{row}");
    }
    for row in ROWS.lines() {
        let (text, expected) = row.split_once('=').unwrap_or((row, ""));
        match fixed_row(text, &mut Steps::new()) {
            Some(found) => {
                let values = format_args!(
                    "{:?} {:?} {:?} {:?} {:?}",
                    found.architecture,
                    found.vendor,
                    found.operating_system,
                    found.environment,
                    found.binary_format
                );
                assert!(rt; found.text == text && writes(&values, expected), "{row}");
            }
            None => assert!(rt; expected.is_empty(), "{row}"),
        }
    }
    for rows in [
        ARCHITECTURES,
        ALIASES,
        VENDORS,
        OPERATING_SYSTEMS,
        ENVIRONMENTS,
        BINARY_FORMATS,
    ] {
        for row in rows.lines() {
            let (name, _) = row.split_once('=').unwrap_or((row, ""));
            let found = fixed_row(name, &mut Steps::new());
            assert!(rt; matches!(found, Some(found) if found.text == name), "{row}");
        }
    }
}

/// The number of a row, a string, and the order of the row's string against it.
const ORDERS: [(usize, &str, Ordering); 4] = [
    (0, "0", Ordering::Greater),
    (0, "zz", Ordering::Less),
    (ROW_COUNT - 1, "zz", Ordering::Less),
    (ROW_COUNT - 1, "0", Ordering::Greater),
];

#[test]
fn rows_are_in_order(rt: HostRuntime) {
    for (number, text, order) in ORDERS {
        assert!(rt; number < ROW_COUNT, "{number}");
        assert!(rt;
            row_order(number, text, &mut Steps::new()) == order,
            "{number} {text}"
        );
    }
}
