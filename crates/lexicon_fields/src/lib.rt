//! The fields of a target triple.
//!
//! `architecture` (with its families in a folder), `vendor`, `operating_system`, `environment` and `binary_format` are
//! the five fields, which `field` names. A custom vendor is owned or static in `vendor` and borrowed in `vendor_ref`;
//! `known_vendor` has the others. `deployment_target` is the version of a system, and `decimal` writes its numbers.
//! `endianness` and `pointer_width` are what an architecture answers.
//!
//! `table` has all names in one sorted list, where each `from_str` looks first, and `steps` counts its comparisons.
//! `laws` has what holds of all values.
//!
//! A comment that begins with `In Rust` or `Not in Rust` is for `tools/erase`, which makes a Rust crate of this source.
#![tactic(auto)]

mod architecture;
mod binary_format;
mod decimal;
mod deployment_target;
mod endianness;
mod environment;
mod field;
mod known_vendor;
pub mod laws; // Not in Rust.
mod operating_system;
mod pointer_width;
mod steps; // Not in Rust.
mod table;
mod vendor;
mod vendor_ref;

pub use architecture::Architecture;
// written by tools/names/write: the types of families
pub use architecture::{
    Aarch64Architecture, ArmArchitecture, CleverArchitecture, Mips32Architecture,
    Mips64Architecture, Riscv32Architecture, Riscv64Architecture, X86_32Architecture,
    Z80Architecture,
};
// end of what is written
pub use binary_format::BinaryFormat;
pub use decimal::{MAX_DECIMAL_LENGTH, decimal_text};
pub use deployment_target::{DeploymentTarget, MAX_VERSION_LENGTH, version_text};
pub use endianness::Endianness;
pub use environment::Environment;
pub use field::Field;
pub use known_vendor::KnownVendor;
pub use operating_system::OperatingSystem;
pub use pointer_width::PointerWidth;
pub use steps::Steps;
pub use table::fixed_row;
// Not in Rust.
pub use table::{FixedRow, ROW_COUNT, row_order};
pub use vendor::{CustomVendor, Vendor, VendorError};
pub use vendor_ref::VendorRef;
