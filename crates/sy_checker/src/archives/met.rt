//! Archives that each entry is known to lead to, by the course of classes before.

ghost use Rattle.std.specs.Prelude.{◌≡◌, ◌++◌, OnOk, map};
ghost use Rattle.std.specs.List.{list_all, list_any};
ghost use Rattle.sy_checker.specs.internal.Met as spec;

use std::alloc::AllocError;
use sy_site::SiteAction;

/// An archive, and the place of a course by which each entry leads to it.
#[derive(Clone, Copy)]
pub struct Met {
    pub place: usize,
    pub archive: SiteAction,
}

// Whether each entry is known to lead to an archive by the course at a place.
fn is_met(met: &[Met], place: usize, archive: SiteAction) -> bool
    ensures { result ≡ list_any (spec.same_met (spec.met_at place archive)) met.now }
{
    met.iter().any(|m| {
        place == m.place && (archive.relay == m.archive.relay && archive.action == m.archive.action)
    })
}

/// Whether each entry is known to lead to each of some archives by the course at a place.
pub fn are_met(met: &[Met], place: usize, archives: &[SiteAction]) -> bool
    ensures { result ≡ list_all (spec.is_met met.now place) archives.now }
{
    archives.iter().all(|a| is_met(met, place, *a))
}

/// Puts each of some archives with the place of a course.
pub fn push_met(met: &mut Vec<Met>, place: usize, archives: &[SiteAction]) -> Result<(), AllocError>
    ensures { OnOk result (met.new.items ≡ met.old.items ++ map (spec.met_at place) archives.now) }
{
    for archive in archives {
        let archive = *archive;
        met.push(Met { place, archive })?;
    }
    Ok(())
}
