//! Whether a file keeps what comes in at each whole entry of a relay and carries no message.
ghost use Rattle.std.specs.Prelude.{◌≡◌, ◌<◌, None, true, false, IfNone, IfSome, length, option_map};
ghost use Rattle.sy_report.specs.Reports.{Reported, seen};
ghost use Rattle.sy_site.specs.Sites.{is_whole};
ghost use Rattle.sy_log.specs.UnreadFiles.{unread_file};
ghost use Rattle.sy_inputs.specs.WholeEntries as spec;

use itoa::Buffer;
use sy_log::unread_names::unread_file;
use sy_report::outcome::report::report_texts;
use sy_rules::Input;
use sy_rules::laws::plans_are_whole;
use sy_site::{Site, SiteInput};
use sy_wire::Sink;

// Whether an input is a whole entry that no file keeps.
fn is_unkept(site: &Site, at: SiteInput, input: &Input, given: Option<&[u8]>) -> bool
    ensures yes { result ≡ true → (is_whole site.now at ≡ true) × (unread_file (option_map (λ name. name.now) given.entry) input.now ≡ None) }
    ensures no { result ≡ false → is_whole site.now at ≡ true → unread_file (option_map (λ name. name.now) given.entry) input.now ≡ None → ⊥ }
{
    match unread_file(input, given) {
        Some(_) => false,
        None => site.is_whole(at),
    }
}

/// The first input of a relay that is a whole entry, and whose frames without a message no file keeps, by its number and its port: it names none, and
/// none is given for all.
pub fn first_unkept(site: &Site, relay: u32, given: Option<&[u8]>) -> Option<(u32, u16)>
    requires exists { relay < length site.now.relays }
    ensures { spec.IsFirstUnkept site.now relay (option_map (λ name. name.now) given.entry) result }
{
    let plan = site.plan(relay);
    plans_are_whole(plan);
    let mut number: u32 = 0;
    for input in plan.inputs() {
        let at = SiteInput {
            relay,
            input: number,
        };
        if is_unkept(site, at, input, given) {
            return Some((number, input.port));
        }
        number += 1;
    }
    None
}

// Prints a line about the input of this port.
fn report_input<E: Sink>(errors: &mut E, port: u64, words: &[u8])
    ensures { Reported
        (seen E.contents E.is_flushed E.faults errors.old) (seen E.contents E.is_flushed E.faults errors.new)
        (spec.input_line port words.now) }
{
    let mut digits = Buffer::new();
    let port = digits.format(port).as_bytes();
    report_texts(errors, &[b"syc: input ", port, words, b"\n"]);
}

/// The same, which is told, where there is one.
pub fn report_first_unkept<E: Sink>(
    site: &Site,
    relay: u32,
    given: Option<&[u8]>,
    errors: &mut E,
) -> Option<(u32, u16)>
    requires exists { relay < length site.now.relays }
    ensures first { spec.IsFirstUnkept site.now relay (option_map (λ name. name.now) given.entry) result }
    ensures reported { IfSome result (λ found. Reported
        (seen E.contents E.is_flushed E.faults errors.old) (seen E.contents E.is_flushed E.faults errors.new)
        (spec.unkept_line found.1)) }
    ensures quiet { IfNone result (errors.new ≡ errors.old) }
{
    let (input, port) = first_unkept(site, relay, given)?;
    report_input(
        errors,
        u64::from(port),
        b" is a whole entry of the site, and nothing keeps its frames without a message: give --unread FILE, or unreadFile= on the input",
    );
    Some((input, port))
}
