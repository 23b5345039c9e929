//! The lines on standard error that say what a relay listens at, and which files it runs.
ghost use Rattle.std.specs.Prelude.{◌≡◌, ◌++◌, OnOk};
ghost use Rattle.sy_log.specs.Ports as spec;

use std::alloc::{AllocError, Global};
use std::net::IpAddr;
use sy_report::texts::parts::{Part, append_parts};
use sy_rules::Input;

/// Appends the line of an input that listens at this address.
pub fn append_listening(text: &mut Vec<u8>, port: u16, address: &[u8]) -> Result<(), AllocError>
    ensures { OnOk result (text.new.items ≡ text.old.items ++ spec.listening_line port address.now) }
{
    let parts = [
        Part::Text(b"syc: input "),
        Part::Number(u64::from(port)),
        Part::Text(b" listening at "),
        Part::Text(address),
        Part::Text(b"\n"),
    ];
    append_parts(text, &parts)
}

/// Appends the line that says which files a relay runs: their sum, in hexadecimal digits, and their number.
pub fn append_runs<'a>(
    text: &mut Vec<u8>,
    name: &'a [u8],
    sum: &'a [u8],
    files: u64,
) -> Result<(), AllocError>
    ensures { OnOk result (text.new.items ≡ text.old.items ++ spec.runs_line name.now sum.now files) }
{
    let parts = [
        Part::Text(b"syc: relay "),
        Part::Name(name),
        Part::Text(b" runs: site "),
        Part::Text(sum),
        Part::Text(b", "),
        Part::Number(files),
        Part::Text(b" files"),
        Part::Text(b"\n"),
    ];
    append_parts(text, &parts)
}

// The words of an address, or of all.
fn address_text(alloc: Global, address: Option<IpAddr>) -> Result<String, AllocError> {
    match address {
        Some(address) => address.to_string(alloc),
        None => String::from_str(alloc, "all addresses"),
    }
}

/// The lines of a relay whose inputs all listen at this address, or at all, and the one that says which files it runs.
pub fn start_lines(
    alloc: Global,
    address: Option<IpAddr>,
    inputs: &[Input],
    runs: &[u8],
) -> Result<Vec<u8>, AllocError> {
    let address = address_text(alloc, address)?;
    let mut text = Vec::new(alloc);
    for input in inputs {
        append_listening(&mut text, input.port, address.as_str().as_bytes())?;
    }
    text.extend_from_slice(runs)?;
    Ok(text)
}
