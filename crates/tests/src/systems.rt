//! Operating systems: versions, parsed and printed.

use crate::values::prints;
use std::process::Abort;
use target_lexicon::{DeploymentTarget, OperatingSystem};

/// A string, and after `=` the name of the system that it parses as, or nothing if it is refused.
const VERSIONS: &str = "\
ios=ios
ios17=ios17.0.0
darwin+023.6=darwin23.6.0
macosx10.14.6=macosx10.14.6
tvos0.0.9=tvos0.0.9
visionos1.00=visionos1.0.0
watchos2.3.01=watchos2.3.1
xros65535.255.255=xros65535.255.255
ios65536=
ios1.256=
ios1.0.256=
ios.=
ios1.=
ios1..2=
ios+=
ios-0=
ios1.2.3.4=
iosfoo=
none=none
None_=
IOS=
=";

#[test]
fn versions_are_read_and_named(rt: HostRuntime) {
    for row in VERSIONS.lines() {
        let (text, expected) = row.split_once('=').unwrap_or((row, ""));
        match OperatingSystem::from_str(text) {
            Ok(system) => {
                assert!(rt; prints(&system, expected), "{row}");
                assert!(rt; system.is_like_darwin() == (text != "none"), "{row}");
                let name = system.into_str(rt.alloc());
                assert!(rt;
                    matches!(&name, Ok(name) if name.as_str() == expected),
                    "{row}"
                );
            }
            Err(()) => assert!(rt; expected.is_empty(), "{row}"),
        }
    }
}

/// A version, and a later one.
const LATER: [[(u16, u8, u8); 2]; 4] = [
    [(10, 7, 0), (10, 14, 6)],
    [(9, 255, 255), (10, 0, 0)],
    [(10, 7, 255), (10, 8, 0)],
    [(10, 7, 0), (10, 7, 1)],
];

#[test]
fn versions_are_ordered(rt: HostRuntime) {
    for versions in LATER {
        let [earlier, later] = versions.map(|(major, minor, patch)| DeploymentTarget {
            major,
            minor,
            patch,
        });
        assert!(rt; earlier < later && !(later <= earlier) && earlier != later);
    }
}
