//! The lines of a finding.
ghost use Rattle.std.specs.Prelude.{◌≡◌, ◌++◌, OnOk, flat_map};
ghost use Rattle.sy_rules.specs.Whole.{name_at, owner_at};
ghost use Rattle.sy_site.specs.Sites.{plan_at};
ghost use Rattle.sy_findings.specs.Checks as spec;

use std::alloc::AllocError;
use sy_report::texts::parts::{Part, action_name, append_parts, input_part, relay_name};
use sy_rules::Occurrence;
use sy_site::finding::{Finding, Kind, WayRow};
use sy_site::{Site, SiteAction};

// Puts an archive's names behind a text.
fn push_archive(text: &mut Vec<u8>, site: &Site, archive: SiteAction) -> Result<(), AllocError>
    ensures { OnOk result (text.new.items ≡ text.old.items ++ spec.archive_text site.now (Kind.Unmet archive)) }
{
    let parts = [
        Part::Text(b" "),
        Part::Name(relay_name(site, archive.relay)),
        Part::Text(b" "),
        Part::Name(action_name(site, archive)),
    ];
    append_parts(text, &parts)
}

/// Puts what is found behind a text.
pub fn push_kind(text: &mut Vec<u8>, site: &Site, kind: Kind) -> Result<(), AllocError>
    ensures { OnOk result (text.new.items ≡ text.old.items ++ spec.kind_text site.now kind) }
{
    text.extend_from_slice(kind.words().as_bytes())?;
    match kind {
        Kind::Unmet(archive) => push_archive(text, site, archive),
        _ => Ok(()),
    }
}

// The name of a list of a relay.
fn list_name(site: &Site, relay: u32, list: u32) -> &[u8]
    ensures { result.now ≡ name_at (plan_at site.now relay) list }
{
    if relay >= site.relays() {
        return b"";
    }
    match site.plan(relay).list_names().get(list as usize) {
        Some(name) => name.as_slice(),
        None => b"",
    }
}

// The action whose own list this is.
#[tactic(auto, using(crate::proofs::Owners::no_owner))]
fn owner_of(site: &Site, relay: u32, list: u32) -> Option<u32>
    ensures { result ≡ owner_at (plan_at site.now relay) list }
{
    if relay >= site.relays() {
        return None;
    }
    site.plan(relay).own_action(list)
}

// What a list is of, by the word for it.
fn owner_word(owner: Option<u32>) -> &'static [u8]
    ensures { result.now ≡ spec.owner_word owner }
{
    match owner {
        Some(_) => b" action ",
        None => b" ruleset ",
    }
}

// Puts what an occurrence runs or posts to behind a text, by its name.
fn push_executed(
    text: &mut Vec<u8>,
    site: &Site,
    relay: u32,
    occurrence: Occurrence,
) -> Result<(), AllocError>
    ensures { OnOk result (text.new.items ≡ text.old.items ++ spec.executed_text site.now relay occurrence) }
{
    match occurrence {
        Occurrence::Run(action) => {
            let parts = [
                Part::Text(b" action "),
                Part::Name(action_name(site, SiteAction { relay, action })),
            ];
            append_parts(text, &parts)
        }
        Occurrence::Post(list) => {
            let parts = [
                Part::Text(owner_word(owner_of(site, relay, list))),
                Part::Name(list_name(site, relay, list)),
            ];
            append_parts(text, &parts)
        }
    }
}

/// Puts an occurrence behind a text, where there is one.
pub fn push_occurrence(
    text: &mut Vec<u8>,
    site: &Site,
    relay: u32,
    occurrence: Option<Occurrence>,
) -> Result<(), AllocError>
    ensures { OnOk result (text.new.items ≡ text.old.items ++ spec.occurrence_text site.now relay occurrence) }
{
    match occurrence {
        Some(occurrence) => push_executed(text, site, relay, occurrence),
        None => Ok(()),
    }
}

// Puts the first line of a finding behind a text.
fn push_found(text: &mut Vec<u8>, site: &Site, finding: &Finding) -> Result<(), AllocError>
    ensures { OnOk result (text.new.items ≡ text.old.items ++ spec.finding_line site.now finding.now) }
{
    let parts = [
        Part::Text(b"refused: "),
        Part::Class(finding.class),
        Part::Text(b" at "),
        input_part(site, finding.input),
        Part::Text(b": "),
    ];
    append_parts(text, &parts)?;
    push_kind(text, site, finding.kind)?;
    text.extend_from_slice(b"\n")
}

// Puts the line of one part of the way behind a text.
fn push_row(text: &mut Vec<u8>, site: &Site, row: WayRow) -> Result<(), AllocError>
    ensures { OnOk result (text.new.items ≡ text.old.items ++ spec.way_line site.now row) }
{
    let parts = [
        Part::Text(b"  "),
        input_part(site, row.input),
        Part::Text(b" by "),
        Part::Number(u64::from(row.number)),
        Part::Text(b"\n"),
    ];
    append_parts(text, &parts)
}

// Puts a line for each part of a way behind a text.
fn push_way(text: &mut Vec<u8>, site: &Site, way: &[WayRow]) -> Result<(), AllocError>
    ensures { OnOk result (text.new.items ≡ text.old.items ++ flat_map (spec.way_line site.now) way.now) }
{
    for row in way {
        push_row(text, site, *row)?;
    }
    Ok(())
}

/// Puts a finding behind a text: what is found where, and a line for each part of the way there.
pub fn push_finding(text: &mut Vec<u8>, site: &Site, finding: &Finding) -> Result<(), AllocError>
    ensures { OnOk result (text.new.items ≡ text.old.items ++ spec.finding_text site.now finding.now) }
{
    push_found(text, site, finding)?;
    push_way(text, site, finding.way.as_slice())
}
