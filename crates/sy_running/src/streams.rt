//! The standard streams of a relay that is to run.

use std::fs::{self, File};
use std::io;
use sy_report::outcome::report::report_text;
use sy_wire::Sink;

/// What this process's standard input is.
const STANDARD_INPUT: &str = "/proc/self/fd/0";

/// Takes the numbers of those standard streams that were closed when the process began: a file or a link that got one would
/// have written into it what belongs on that stream. They are kept until the process ends; writing to them fails.
pub fn take_closed_streams(rt: &HostRuntime) -> [io::Result<File>; 3] {
    [
        File::open(rt, "/dev/null"),
        File::open(rt, "/dev/null"),
        File::open(rt, "/dev/null"),
    ]
}

// Whether standard input has nothing from the beginning on: it is closed, or empty.
fn has_no_input(rt: &HostRuntime) -> bool {
    match fs::read_link(rt, STANDARD_INPUT) {
        Ok(name) if name.as_str() == "/dev/null" => true,
        _ => match fs::metadata(rt, STANDARD_INPUT) {
            Ok(found) => found.is_file() && found.len() == 0,
            Err(_) => false,
        },
    }
}

/// Tells where nothing keeps a relay running.
pub fn report_input<E: Sink>(rt: &HostRuntime, errors: &mut E) {
    if has_no_input(rt) {
        report_text(
            errors,
            "standard input is at its end: nothing keeps the relay running; see syc-run",
        );
    }
}
