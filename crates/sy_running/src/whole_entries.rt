//! Whether a relay may start, by its whole entries.
ghost use Rattle.std.specs.Prelude.{◌≡◌, ◌<◌, ℕ, Some, IfErr, IfOk, length, option_map};
ghost use Rattle.sy_inputs.specs.WholeEntries.{IsFirstUnkept, KeepsWhole};

use crate::explaining::print_words;
use crate::start_notes::{lines_of, note_at};
use std::alloc::{AllocError, Global};
use sy_inputs::whole_entries::report_first_unkept;
use sy_places::relay_file::places::Thing;
use sy_places::site_file::texts::SiteTexts;
use sy_report::texts::parts::{Part, relay_name};
use sy_site::Site;
use sy_wire::Sink;

// What is said of a whole entry at this port whose frames without a message no file keeps.
fn unkept_words(
    alloc: Global,
    texts: &SiteTexts<'_>,
    site: &Site,
    relay: u32,
    input: u32,
    port: u16,
) -> Result<Vec<u8>, AllocError> {
    let mut note = note_at(alloc, texts, site, relay, Thing::Input(input))?;
    note.why.append(&[
        Part::Text(b"entry "),
        Part::Text(relay_name(site, relay)),
        Part::Text(b" "),
        Part::Number(u64::from(port)),
        Part::Text(
            b" whole: no frame that comes in whole there may be dropped, and those without a message are, where no file keeps them",
        ),
    ]);
    note.change.say("unreadFile=\"FILE\" in that line, or --unread FILE on the command line");
    lines_of(alloc, &note)
}

// The bytes of the file that is given.
fn bytes_of<'a>(unread: Option<&'a str>) -> Option<&'a [u8]>
    ensures { option_map (λ name. name.now) result ≡ option_map (λ file. file.now) unread.entry }
{
    match unread {
        Some(file) => Some(file.as_bytes()),
        None => None,
    }
}

/// Refuses a relay of which a whole entry has no file that keeps its frames without a message, where that one is given for all: the first is told,
/// explained where its texts are given, and the exit status is answered.
pub fn keep_whole<E: Sink>(
    alloc: Global,
    explained: Option<&SiteTexts<'_>>,
    site: &Site,
    relay: u32,
    unread: Option<&str>,
    errors: &mut E,
) -> Result<(), u8>
    requires exists { relay < length site.now.relays }
    ensures ok { IfOk result (λ _. KeepsWhole site.now relay (option_map (λ file. file.now) unread.entry)) }
    ensures refused { IfErr result (λ status. (status ≡ 2)
        × (found : ℕ × ℕ) × IsFirstUnkept site.now relay (option_map (λ file. file.now) unread.entry) (Some found)) }
{
    let Some((input, port)) = report_first_unkept(site, relay, bytes_of(unread), errors) else {
        return Ok(());
    };
    if let Some(texts) = explained {
        print_words(errors, unkept_words(alloc, texts, site, relay, input, port));
    }
    Err(2)
}
