//! The triple of the host.
ghost use Rattle.std.specs.Prelude.{◌≡◌};
ghost use Rattle.target_lexicon.specs.Values.{host_values, values_of};

use crate::triple::Triple;
use lexicon_fields::{Architecture, BinaryFormat, Environment, OperatingSystem, Vendor};

impl Triple {
    /// The triple `x86_64-unknown-linux-gnu`, on every machine.
    pub fn host() -> Self
        ensures { values_of result ≡ host_values }
    {
        Triple {
            architecture: Architecture::X86_64,
            vendor: Vendor::Unknown,
            operating_system: OperatingSystem::Linux,
            environment: Environment::Gnu,
            binary_format: BinaryFormat::Elf,
        }
    }
}
