//! Parts of the lines that commands over a site print.
ghost use Rattle.std.specs.Prelude.{◌≡◌, ◌++◌, OnOk, codes, flat_map};
ghost use Rattle.std.specs.Fmt.{decimal};
ghost use Rattle.sy_site.specs.Names.{action_name, name_of, port_of};
ghost use Rattle.sy_report.specs.Texts.{class_text, input_text};
ghost use Rattle.sy_report.specs.Parts.{part_text};
ghost use Rattle.sy_report.specs.Printed.{printed};

use crate::texts::printed::append_printed;
use itoa::Buffer;
use std::alloc::AllocError;
use sy_select::{facility_text, severity_text};
use sy_site::{Site, SiteAction, SiteInput};
use sy_wire::Class;

/// A part of a line.
#[derive(Clone, Copy)]
pub enum Part<'a> {
    Text(&'a [u8]),
    /// A name, a word or a path of a file, as it is printed.
    Name(&'a [u8]),
    /// In decimal digits.
    Number(u64),
    /// In decimal digits.
    Sum(u128),
    /// As `auth.crit`.
    Class(Class),
    /// As `hub 6515`: an input's relay and port.
    Input(&'a [u8], u64),
}

// Puts a number in decimal digits behind a text.
fn append_number(text: &mut Vec<u8>, number: u64) -> Result<(), AllocError>
    ensures { OnOk result (text.new.items ≡ text.old.items ++ decimal number) }
{
    let mut digits = Buffer::new();
    text.extend_from_slice(digits.format(number).as_bytes())
}

// Puts a sum in decimal digits behind a text.
fn append_sum(text: &mut Vec<u8>, sum: u128) -> Result<(), AllocError>
    ensures { OnOk result (text.new.items ≡ text.old.items ++ decimal sum) }
{
    let mut digits = Buffer::new();
    text.extend_from_slice(digits.format(sum).as_bytes())
}

// Puts a class behind a text.
fn append_class(text: &mut Vec<u8>, class: Class) -> Result<(), AllocError>
    ensures { OnOk result (text.new.items ≡ text.old.items ++ class_text class) }
{
    text.extend_from_slice(facility_text(class))?;
    text.extend_from_slice(b".")?;
    text.extend_from_slice(severity_text(class))
}

// Puts an input behind a text.
fn append_input(text: &mut Vec<u8>, relay: &[u8], port: u64) -> Result<(), AllocError>
    ensures { OnOk result (text.new.items ≡ text.old.items ++ printed relay.now ++ codes " " ++ decimal port) }
{
    append_printed(text, relay)?;
    text.extend_from_slice(b" ")?;
    append_number(text, port)
}

fn append_part(text: &mut Vec<u8>, part: Part<'_>) -> Result<(), AllocError>
    ensures { OnOk result (text.new.items ≡ text.old.items ++ part_text part.entry) }
{
    match part {
        Part::Text(words) => text.extend_from_slice(words),
        Part::Name(name) => append_printed(text, name),
        Part::Number(number) => append_number(text, number),
        Part::Sum(sum) => append_sum(text, sum),
        Part::Class(class) => append_class(text, class),
        Part::Input(relay, port) => append_input(text, relay, port),
    }
}

/// Puts parts one behind the other behind a text.
pub fn append_parts(text: &mut Vec<u8>, parts: &[Part<'_>]) -> Result<(), AllocError>
    ensures { OnOk result (text.new.items ≡ text.old.items ++ flat_map part_text parts.now) }
{
    for part in parts {
        append_part(text, *part)?;
    }
    Ok(())
}

/// The name of a relay of a site.
pub fn relay_name(site: &Site, relay: u32) -> &[u8]
    ensures { result.now ≡ name_of site.now relay }
{
    if relay < site.relays() {
        return site.name(relay);
    }
    b""
}

/// The name of an action of a site.
pub fn action_name(site: &Site, action: SiteAction) -> &[u8]
    ensures { result.now ≡ action_name site.now action }
{
    if action.relay >= site.relays() {
        return b"";
    }
    match site
        .plan(action.relay)
        .actions()
        .get(action.action as usize)
    {
        Some(action) => action.name.as_slice(),
        None => b"",
    }
}

/// The port of an input.
pub fn port_of(site: &Site, input: SiteInput) -> u16
    ensures { result ≡ port_of site.now input }
{
    if input.relay >= site.relays() {
        return 0;
    }
    match site.plan(input.relay).inputs().get(input.input as usize) {
        Some(input) => input.port,
        None => 0,
    }
}

/// An input.
pub fn input_part(site: &Site, input: SiteInput) -> Part<'_>
    ensures { part_text result ≡ input_text site.now input }
{
    Part::Input(
        relay_name(site, input.relay),
        u64::from(port_of(site, input)),
    )
}
