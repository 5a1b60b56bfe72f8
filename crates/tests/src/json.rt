//! JSON strings and lists, parsed and written.

use crate::values::{is_answer, prints, writes};
use serde_json::Value;
use std::alloc::Global;
use std::process::Abort;
use target_lexicon::{JsonError, ListError, ParseError, Triple, list_from_json, list_to_json};

/// A JSON value, and after `=` the five values of the triple that it parses as, or the line of the error.
const VALUES: &str = "\
\"x86_64-unknown-linux-gnu\"=X86_64 Unknown Linux Gnu Elf
\"x86_64-customvendor-linux\"=X86_64 Custom(Owned(\"customvendor\")) Linux Unknown Elf
\"foo\"=Unrecognized architecture: foo
\"x86_64-A\"=Unrecognized vendor: A
\"x86_64-pc-A\"=Unrecognized operating system: A
\"x86_64-pc-linux-A\"=Unrecognized environment: A
\"x86_64-pc-linux-gnu-A\"=Unrecognized binary format: A
\"x86_64-pc-linux-gnu-elf-A\"=Unrecognized field: A
null=Not a text
true=Not a text
7=Not a text
7.5=Not a text
[]=Not a text
{}=Not a text";

/// A JSON source, and after `=` its list of triples, or the line of the error.
const LISTS: &str = "\
[]=[]
[\"x86_64-unknown-linux-gnu\",\"i686-pc-windows-gnu\"]=[\"x86_64-unknown-linux-gnu\",\"i686-pc-windows-gnu\"]
{}=Not a list
[\"x86_64\",7,\"foo\"]=Element 1: Not a text";

/// Whether an element that isn't a string is named, by an index of each length.
fn elements_are_named(alloc: Global) -> bool {
    let mut index = usize::MAX;
    for _ in 0..21 {
        let Ok(line) = format!(in alloc; "Element {index}: Not a text") else {
            return false;
        };
        if !prints(
            &ListError::Element(index, JsonError::NotText),
            line.as_str(),
        ) {
            return false;
        }
        index = index / 10;
    }
    true
}

/// Whether the JSON source is a list with this result.
fn is_list_answer(alloc: Global, text: &str, expected: &str) -> bool {
    let Ok(value) = Value::from_str(alloc, text) else {
        return false;
    };
    match list_from_json(alloc, &value) {
        Ok(triples) => match list_to_json(alloc, &triples) {
            Ok(list) => writes(&list, expected),
            Err(_) => false,
        },
        Err(error) => prints(&error, expected),
    }
}

#[test]
fn values_are_parsed_or_refused(rt: HostRuntime) {
    for row in VALUES.lines() {
        let (text, expected) = row.split_once('=').unwrap_or((row, ""));
        match Value::from_str(rt.alloc(), text) {
            Ok(value) => assert!(rt;
                is_answer(Triple::from_json(rt.alloc(), &value), expected),
                "{row}"
            ),
            Err(_) => panic!(rt; "{row}"),
        }
    }
    for row in LISTS.lines() {
        let (text, expected) = row.split_once('=').unwrap_or((row, ""));
        assert!(rt; is_list_answer(rt.alloc(), text, expected), "{row}");
    }
    assert!(rt;
        prints(&ParseError::OutOfMemory, "Out of memory")
            && prints(&JsonError::Parse(ParseError::OutOfMemory), "Out of memory")
            && prints(&ListError::OutOfMemory, "Out of memory")
            && prints(
                &ListError::Element(0, JsonError::Parse(ParseError::OutOfMemory)),
                "Element 0: Out of memory"
            )
    );
    assert!(rt; elements_are_named(rt.alloc()));
    match Triple::host().to_json(rt.alloc()) {
        Ok(value) => assert!(rt; writes(&value, "\"x86_64-unknown-linux-gnu\"")),
        Err(_) => panic!(rt; "out of memory"),
    }
}
