//! What a relay needs to run: its site and, where that was checked, its guard.
ghost use Rattle.std.specs.Prelude.{◌≡◌, ◌<◌, ◌≤◌, ℕ, List, Some, IfErr, IfOk, length, option_map};
ghost use Rattle.sy_site.specs.Sites.{relay_named};
ghost use Rattle.sy_site.specs.Finding.{IsTrueRefusal};
ghost use Rattle.sy_running.specs.Prepared.{HasGuard, IsGuardOf};
ghost use Rattle.sy_places.specs.SiteFiles.{IsSiteOf};
ghost use Rattle.sy_endpoints.specs.Endpoints.{AreEndpoints};
ghost use Rattle.sy_inputs.specs.WholeEntries.{KeepsWhole};

use crate::endpoints::tell_apart;
use crate::explaining::{options_for, print_found, print_halt, print_words};
use crate::files_read::{FilesRead, files_read};
use crate::start_notes::no_relay_words;
use crate::whole_entries::keep_whole;
use crate::words::RunWords;
use std::alloc::Global;
use sy_board::Guard;
use sy_checker::check_site;
use sy_commands::reading::read_for;
use sy_places::site_file::texts::SiteTexts;
use sy_report::outcome::report::report_texts;
use sy_report::outcome::stop::out_of_memory;
use sy_report::reading::files::Files;
use sy_report::writing::outputs::Outputs;
use sy_site::Site;
use sy_site::finding::Refusal;
use sy_wire::Sink;

// Tells that the site has no relay of that name, and answers the exit status.
fn no_relay<E: Sink>(alloc: Global, site: &Site, words: RunWords<'_>, errors: &mut E) -> u8
    ensures { result ≡ 2 }
{
    let name = words.relay;
    report_texts(errors, &[b"syc: no relay ", name.as_bytes(), b"\n"]);
    if words.is_explained {
        print_words(errors, no_relay_words(alloc, site, name));
    }
    2
}

// The guard of a relay of a site that is sound, or why it isn't.
fn guard_of(alloc: Global, site: &Site, relay: u32) -> Result<Guard, Refusal>
    requires { relay < length site.now.relays }
    ensures ok { IfOk result (λ guard. HasGuard site.now relay guard) }
    ensures found { IfErr result (IsTrueRefusal site.now) }
{
    let accepted = match check_site(alloc, site) {
        Ok(accepted) => accepted,
        Err(why) => return Err(why),
    };
    match accepted.guard(alloc, relay) {
        Ok(guard) => Ok(guard),
        Err(_) => Err(Refusal::NoMemory),
    }
}

// The guard of a relay, or the exit status where the site is refused, which is told, and explained where its texts are given.
fn checked<W: Sink, E: Sink>(
    alloc: Global,
    explained: Option<&SiteTexts<'_>>,
    site: &Site,
    relay: u32,
    out: &mut Outputs<W, E>,
) -> Result<Guard, u8>
    requires { relay < length site.now.relays }
    ensures ok { IfOk result (λ guard. HasGuard site.now relay guard) }
    ensures status { IfErr result (λ status. status ≤ 4) }
{
    match guard_of(alloc, site, relay) {
        Ok(guard) => Ok(guard),
        Err(why) => Err(print_found(alloc, explained, site, why, out)),
    }
}

// The site of that name, the number of its relay, and what its files say beside that, or the exit status. The texts are those that were read.
#[tactic(auto, using(crate::proofs::Halted::at_most_four))]
fn named<'a, F: Files, E: Sink>(
    alloc: Global,
    words: RunWords<'a>,
    files: &F,
    texts: &mut SiteTexts<'a>,
    errors: &mut E,
) -> Result<(Site, u32, FilesRead), u8>
    ensures site { IfOk result (λ found. (text : List ℕ) → F.bytes_of files.now words.entry.site.now ≡ Some text →
        IsSiteOf (F.bytes_of files.now) text found.0) }
    ensures relay { IfOk result (λ found. relay_named found.0.relays words.entry.relay.now ≡ Some found.1) }
    ensures status { IfErr result (λ status. status ≤ 4) }
{
    let options = options_for(words.is_explained);
    let site = match read_for(alloc, files, texts, options, words.site) {
        Ok(site) => site,
        Err(halt) => return Err(print_halt(alloc, texts, words, &halt, errors)),
    };
    let Some(relay) = site.relay_named(words.relay.as_bytes()) else {
        return Err(no_relay(alloc, &site, words, errors));
    };
    match files_read(alloc, texts, relay) {
        Some(read) => Ok((site, relay, read)),
        None => Err(out_of_memory(errors)),
    }
}

// The guard of a relay where the site is checked, or the exit status.
fn guard_if<W: Sink, E: Sink>(
    alloc: Global,
    explained: Option<&SiteTexts<'_>>,
    site: &Site,
    relay: u32,
    is_unchecked: bool,
    out: &mut Outputs<W, E>,
) -> Result<Option<Guard>, u8>
    requires { relay < length site.now.relays }
    ensures ok { IfOk result (IsGuardOf is_unchecked site.now relay) }
    ensures status { IfErr result (λ status. status ≤ 4) }
{
    if is_unchecked {
        return Ok(None);
    }
    match checked(alloc, explained, site, relay, out) {
        Ok(guard) => Ok(Some(guard)),
        Err(status) => Err(status),
    }
}

/// What the words name: a site, the number of its relay, the relay's guard, where the site is checked and sound, and what its files say beside that. With
/// `is_unchecked` no check is made, and there is no guard. Else an exit status, and what is to be said of it is printed.
#[tactic(auto, using(sy_endpoints::proofs::Named::is_there))]
pub fn ready<F: Files, W: Sink, E: Sink>(
    alloc: Global,
    words: RunWords<'_>,
    files: &F,
    out: &mut Outputs<W, E>,
) -> Result<(Site, u32, Option<Guard>, FilesRead), u8>
    ensures site { IfOk result (λ found. (text : List ℕ) → F.bytes_of files.now words.entry.site.now ≡ Some text →
        IsSiteOf (F.bytes_of files.now) text found.0) }
    ensures relay { IfOk result (λ found. relay_named found.0.relays words.entry.relay.now ≡ Some found.1) }
    ensures guard { IfOk result (λ found. IsGuardOf words.entry.is_unchecked found.0 found.1 found.2) }
    ensures endpoints { IfOk result (λ found. AreEndpoints found.0 found.1) }
    ensures whole { IfOk result (λ found. KeepsWhole found.0 found.1 (option_map (λ file. file.now) words.entry.unread)) }
    ensures status { IfErr result (λ status. status ≤ 4) }
{
    let mut texts = SiteTexts::empty(alloc, words.site);
    let (site, relay, read) = match named(alloc, words, files, &mut texts, &mut out.errors) {
        Ok(found) => found,
        Err(status) => return Err(status),
    };
    let is_explained = words.is_explained;
    if let Err(status) = tell_apart(
        alloc,
        files,
        &mut texts,
        is_explained,
        &site,
        relay,
        &mut out.errors,
    ) {
        return Err(status);
    }
    let explained = if words.is_explained {
        Some(&texts)
    } else {
        None
    };
    let guard = match guard_if(alloc, explained, &site, relay, words.is_unchecked, out) {
        Ok(guard) => guard,
        Err(status) => return Err(status),
    };
    match keep_whole(
        alloc,
        explained,
        &site,
        relay,
        words.unread,
        &mut out.errors,
    ) {
        Ok(()) => Ok((site, relay, guard, read)),
        Err(status) => Err(status),
    }
}
