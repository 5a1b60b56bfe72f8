//! Makes each call of the libraries that takes an allocator, and writes a line for each: its name, and after the call
//! `ok` or its error. `checks/gate/fail_allocations` makes each allocation of the program fail in turn. A call that should
//! allocate nothing has a line that begins with `no memory: `. If a call changed what it was given, which it must not
//! even where it fails, there is a line more.
#![tactic(auto)]

use serde_json::Value;
use std::alloc::Global;
use std::fmt::Debug;
use target_lexicon::{
    CustomVendor, DefaultToHost, DefaultToUnknown, DeploymentTarget, OperatingSystem, ParseError,
    Triple, TripleRef, Vendor, list_from_json, list_to_json, round,
};

/// What the line of a call that should allocate nothing begins with.
const NO_MEMORY: &str = "no memory: ";

/// Writes the beginning of a line, before the call.
fn begin(rt: &impl Print, memory: &str, call: &str, argument: &str) {
    let _ = print!(rt; "{memory}{call} of {argument}");
}

/// Writes the end of the line, after the call, and gives what the call returned, if it is no error.
fn end<T: Drop, E: Debug + Drop>(rt: &impl Print, returned: Result<T, E>) -> Option<T> {
    match returned {
        Ok(value) => {
            let _ = println!(rt; ": ok");
            Some(value)
        }
        Err(error) => {
            let _ = println!(rt; ": {error:?}");
            None
        }
    }
}

/// Writes a line if a call changed what it was given.
fn check_source(rt: &impl Print, is_same: bool) {
    if !is_same {
        let _ = println!(rt; "the source is another");
    }
}

/// The same for a call that has no error.
fn end_without_error(rt: &impl Print) {
    let _ = println!(rt; ": ok");
}

/// Calls on a string, which need memory or not.
fn report_parsing(rt: &impl Print, alloc: Global, text: &str, memory: &str) {
    begin(rt, memory, "Triple::from_str", text);
    let _ = end(rt, Triple::from_str(alloc, text));
    match TripleRef::from_str(text) {
        Ok(triple) => report_borrowed(rt, alloc, text, memory, triple),
        Err(error) => {
            begin(rt, "", "Refusal::to_error", text);
            let _ = end(rt, error.to_error(alloc));
            check_source(rt, TripleRef::from_str(text) == Err(error));
        }
    }
}

/// Calls on a borrowed triple and its vendor, which need memory to be owned or not.
fn report_borrowed(
    rt: &impl Print,
    alloc: Global,
    text: &str,
    memory: &str,
    triple: TripleRef<'_>,
) {
    begin(rt, memory, "TripleRef::to_triple", text);
    let _ = end(rt, triple.to_triple(alloc));
    begin(rt, "", "TripleRef::to_text", text);
    let _ = end(rt, triple.to_text(alloc));
    begin(rt, "", "TripleRef::to_upstream_text", text);
    let _ = end(rt, triple.to_upstream_text(alloc));
    begin(rt, "", "TripleRef::to_json", text);
    let _ = end(rt, triple.to_json(alloc));
    begin(rt, memory, "VendorRef::to_vendor", text);
    let _ = end(rt, triple.vendor.to_vendor(alloc));
    check_source(rt, TripleRef::from_str(text) == Ok(triple));
}

/// Calls on a triple that owns the string of its vendor, or has a known vendor.
fn report_owned(rt: &impl Print, alloc: Global, text: &str, memory: &str) -> Option<()> {
    begin(rt, memory, "Triple::from_str", text);
    let triple = end(rt, Triple::from_str(alloc, text))?;
    let is_same = |source: &Triple| TripleRef::from_str(text) == Ok(source.as_triple_ref());
    begin(rt, memory, "Triple::clone", text);
    let _ = end(rt, triple.clone(alloc));
    check_source(rt, is_same(&triple));
    begin(rt, "", "Triple::to_text", text);
    let _ = end(rt, triple.to_text(alloc));
    check_source(rt, is_same(&triple));
    begin(rt, "", "round", text);
    let _ = end(rt, round(alloc, &triple));
    check_source(rt, is_same(&triple));
    begin(rt, "", "Triple::to_upstream_text", text);
    let _ = end(rt, triple.to_upstream_text(alloc));
    check_source(rt, is_same(&triple));
    begin(rt, memory, "Vendor::clone", text);
    let _ = end(rt, triple.vendor.clone(alloc));
    check_source(rt, is_same(&triple));
    begin(rt, "", "Triple::to_json", text);
    let value = end(rt, triple.to_json(alloc));
    check_source(rt, is_same(&triple));
    let value = value?;
    let printed = value.as_str()?;
    begin(rt, memory, "Triple::from_json", text);
    let read = end(rt, Triple::from_json(alloc, &value));
    check_source(rt, value.as_str() == Some(printed));
    let host = DefaultToHost(read?);
    begin(rt, memory, "DefaultToHost::clone", text);
    let _ = end(rt, host.clone(alloc));
    check_source(
        rt,
        TripleRef::from_str(printed) == Ok(host.0.as_triple_ref()),
    );
    let unknown = DefaultToUnknown(host.0);
    begin(rt, memory, "DefaultToUnknown::clone", text);
    let _ = end(rt, unknown.clone(alloc));
    check_source(
        rt,
        TripleRef::from_str(printed) == Ok(unknown.0.as_triple_ref()),
    );
    report_steps(rt, text, triple);
    Some(())
}

/// Calls that take a triple, and so could allocate, but don't.
fn report_steps(rt: &impl Print, text: &str, triple: Triple) {
    begin(rt, NO_MEMORY, "Triple::comes_back", text);
    let _ = triple.comes_back();
    end_without_error(rt);
    begin(rt, NO_MEMORY, "Triple::settles_as", text);
    let _ = triple.settles_as(&triple);
    end_without_error(rt);
    if triple.vendor.is_plain() {
        begin(rt, NO_MEMORY, "Triple::normal and Triple::settle", text);
        let _ = triple.normal().settle();
        end_without_error(rt);
    }
}

/// Calls on vendors.
fn report_vendors(rt: &impl Print, alloc: Global) {
    for text in ["apple", "ios17", "Foo"] {
        begin(rt, NO_MEMORY, "Vendor::from_str", text);
        let _ = end(rt, Vendor::from_str(alloc, text));
    }
    begin(rt, NO_MEMORY, "CustomVendor::clone", "a static text");
    let _ = end(rt, CustomVendor::Static("foo").clone(alloc));
    begin(rt, "", "Vendor::from_str", "foo");
    if let Some(Vendor::Custom(custom)) = end(rt, Vendor::from_str(alloc, "foo")) {
        begin(rt, "", "CustomVendor::clone", "foo");
        let _ = end(rt, custom.clone(alloc));
        check_source(
            rt,
            matches!(&custom, CustomVendor::Owned(text) if text.as_str() == "foo"),
        );
    }
    begin(rt, NO_MEMORY, "Vendor::clone", "pc");
    let _ = end(rt, Vendor::Pc.clone(alloc));
}

/// Calls on systems and errors.
fn report_names(rt: &impl Print, alloc: Global) -> Option<()> {
    begin(rt, NO_MEMORY, "OperatingSystem::into_str", "none");
    let _ = end(rt, OperatingSystem::None_.into_str(alloc));
    let version = DeploymentTarget {
        major: 23,
        minor: 6,
        patch: 0,
    };
    let system = OperatingSystem::Darwin(Some(version));
    begin(rt, "", "OperatingSystem::into_str", "darwin23.6.0");
    let _ = end(rt, system.into_str(alloc));
    check_source(rt, system == OperatingSystem::Darwin(Some(version)));
    begin(
        rt,
        NO_MEMORY,
        "ParseError::clone",
        "an error without a part",
    );
    let _ = end(rt, ParseError::OutOfMemory.clone(alloc));
    begin(rt, "", "String::from_str", "foo");
    let error = ParseError::UnrecognizedVendor(end(rt, String::from_str(alloc, "foo"))?);
    begin(rt, "", "ParseError::clone", "an error with a part");
    let _ = end(rt, error.clone(alloc));
    check_source(
        rt,
        matches!(&error, ParseError::UnrecognizedVendor(part) if part.as_str() == "foo"),
    );
    Some(())
}

/// Calls on a list of these strings, some of which need memory.
fn report_list(rt: &impl Print, alloc: Global, text: &str, strings: &[&str]) -> Option<()> {
    begin(rt, "", "Value::from_str", text);
    let list = end(
        rt,
        match Value::from_str(alloc, text) {
            Ok(value) => Ok(value),
            Err(_) => Err(ParseError::OutOfMemory),
        },
    )?;
    begin(rt, "", "list_from_json", text);
    let triples = end(rt, list_from_json(alloc, &list));
    let is_same = |list: &Value| match list.as_array() {
        Some(elements) => elements
            .iter()
            .map(Value::as_str)
            .eq(strings.iter().map(|it| Some(*it))),
        None => false,
    };
    check_source(rt, is_same(&list));
    let triples = triples?;
    begin(rt, "", "list_to_json", text);
    let _ = end(rt, list_to_json(alloc, triples.as_slice()));
    let parsed = strings.iter().map(|it| TripleRef::from_str(it).ok());
    check_source(
        rt,
        triples.iter().map(|it| Some(it.as_triple_ref())).eq(parsed),
    );
    Some(())
}

fn main(rt: HostRuntime) {
    let alloc = rt.alloc();
    report_parsing(&rt, alloc, "x86_64-unknown-linux-gnu", NO_MEMORY);
    report_parsing(&rt, alloc, "armv6k-nintendo-3ds", NO_MEMORY);
    report_parsing(&rt, alloc, "riscv32imc-esp-espidf", NO_MEMORY);
    report_parsing(&rt, alloc, "x86_64-customvendor-linux", "");
    report_parsing(&rt, alloc, "foo", "");
    report_parsing(&rt, alloc, "x86_64-customvendor-linux-foo-bar", "");
    let _ = report_owned(&rt, alloc, "riscv32imc-esp-espidf-unknown-unknown", "");
    let _ = report_owned(&rt, alloc, "clever-unknown-unknown-none", NO_MEMORY);
    report_vendors(&rt, alloc);
    let _ = report_names(&rt, alloc);
    let two = ["x86_64", "x86_64-foo-linux"];
    let _ = report_list(&rt, alloc, "[\"x86_64\",\"x86_64-foo-linux\"]", &two);
    let four = ["x86_64", "x86_64-foo-linux", "avr", "avr-bar"];
    let text = "[\"x86_64\",\"x86_64-foo-linux\",\"avr\",\"avr-bar\"]";
    let _ = report_list(&rt, alloc, text, &four);
}
