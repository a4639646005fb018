//! What the program is: its version, the kit that it is proved by, and the commit that it was built from.

use std::hint::black_box;
use std::io;

const VERSION: &str = "1.0.0";

/// The first two words of what `rt version` prints.
const KIT: &str = "rattle-kit-13f";

/// Forty bytes, in whose place an installation writes a commit's name into the built program.
const COMMIT: &str = "not installed: a commit's name goes here";

/// Prints them, in a line. The commit is unknown until it is written.
pub(crate) fn tell_version(rt: &HostRuntime) -> io::Result<()> {
    let commit = black_box(COMMIT);
    let known = if commit.starts_with("not") {
        "unknown"
    } else {
        commit
    };
    println!(rt; "gx {VERSION} ({KIT}, commit {known})")
}
