//! Target triples: parsing, printing, queries and canonical forms.
//!
//! The calls of [`Triple`] are in files by topic: `triple` (the type, `unknown`, `clone`), `host`, `parse`
//! (`from_str`), `display` (`Display`, `to_text`, and which fields are shown), `special` (the two special strings),
//! `queries` (byte order, pointer width, calling convention, data model), `exception`, `settle` (`comes_back`,
//! `normal`, `settle`), `settles_as`, `json`. Most of them call the same of [`TripleRef`], a borrowed triple
//! (`triple_ref`). `round_trip` prints and parses a triple.
//!
//! To parse, `parse` gives each part of a string to a `reading`, which looks it up and fills a field. `explanation` has
//! the types of what was found, `default_format` the implied format, and `refusal` why a string is refused.
//!
//! A comment that begins with `In Rust` or `Not in Rust` is for `tools/erase`, which makes a Rust crate of this source.
#![tactic(auto)]

mod calling_convention;
mod data_model;
mod default_format;
mod defaults;
mod display;
mod exception;
mod explanation;
mod host; // Not in Rust.
mod json; // Not in Rust.
mod json_error; // Not in Rust.
pub mod laws; // Not in Rust.
mod list_error; // Not in Rust.
mod macros; // Not in Rust.
mod parse;
mod parse_error; // Not in Rust.
mod queries; // In Rust: #[inline].
mod reading;
mod refusal;
mod round_trip; // Not in Rust.
mod settle;
mod settles_as;
mod special;
mod triple;
mod triple_ref;

pub use calling_convention::CallingConvention;
pub use data_model::{CDataModel, Size};
pub use default_format::default_binary_format;
pub use defaults::{DefaultToHost, DefaultToUnknown};
pub use exception::RoundTripException;
pub use explanation::{Explanation, Source, Sources, TextPart};
pub use json::{list_from_json, list_to_json};
pub use json_error::JsonError;
// written by tools/names/write: the types of families of triples
pub use lexicon_fields::{
    Aarch64Architecture, ArmArchitecture, CleverArchitecture, Mips32Architecture,
    Mips64Architecture, Riscv32Architecture, Riscv64Architecture, X86_32Architecture,
    Z80Architecture,
};
// end of what is written
pub use lexicon_fields::{
    Architecture, BinaryFormat, CustomVendor, DeploymentTarget, Endianness, Environment, Field,
    FixedRow, KnownVendor, MAX_DECIMAL_LENGTH, MAX_VERSION_LENGTH, OperatingSystem, PointerWidth,
    ROW_COUNT, Steps, Vendor, VendorError, VendorRef, decimal_text, fixed_row, row_order,
    version_text,
};
pub use list_error::ListError;
pub use parse::explain;
// Not in Rust.
pub use parse::first_part;
pub use parse_error::ParseError;
// Not in Rust.
pub use reading::Reading;
pub use refusal::{Refusal, refusal_prefix};
pub use round_trip::round;
pub use triple::Triple;
pub use triple_ref::TripleRef;
