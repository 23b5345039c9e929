//! All faults of the tunnel lines of a site that has no other.

use crate::all_of_site::{JudgedFile, MOST_FAULTS, SiteHunt, note_of};
use crate::faults_with_notes::ReportedFault;
use std::alloc::{AllocError, Global};
use sy_places::site_file::source::place_of_line;
use sy_report::outcome::halt::Halt;
use sy_site::{Site, SiteFault};
use sy_tunnels::tunnels_of;

// The line of a fault of a tunnel line.
fn line_of(fault: &SiteFault) -> Option<usize> {
    match fault {
        SiteFault::Line(line) | SiteFault::Duplicate(line) | SiteFault::NoSuchAction(line) => {
            Some(*line)
        }
        _ => None,
    }
}

// Makes a comment of a line that is faulty.
fn leave_out(text: &mut Vec<u8>, line: usize) {
    let start = place_of_line(text.as_slice(), line as u64);
    if let Some(first) = text.as_mut_slice().get_mut(start) {
        *first = b'#';
    }
}

// Finds the next fault, and takes its line away. It answers whether there may be more.
fn find_next(
    alloc: Global,
    hunt: &mut SiteHunt<'_>,
    site: &Site,
    text: &[u8],
    left: &mut Vec<u8>,
    judged: &[JudgedFile<'_>],
) -> Result<bool, AllocError> {
    let fault = match tunnels_of(alloc, site, left.as_slice()) {
        Ok(_) => return Ok(false),
        Err(SiteFault::NoMemory) => return Err(AllocError),
        Err(fault) => fault,
    };
    let Some(line) = line_of(&fault) else {
        return Ok(false);
    };
    let note = note_of(alloc, hunt.name, text, judged, &fault)?;
    hunt.found.push(ReportedFault::new(0, line as u64, Halt::Site(fault), note))?;
    leave_out(left, line);
    Ok(true)
}

/// Finds the faults of the tunnel lines of a site file of that text, where nothing else of its site is faulty: what they name is
/// known there alone.
pub fn find_tunnels(
    alloc: Global,
    hunt: &mut SiteHunt<'_>,
    text: &[u8],
    judged: &[JudgedFile<'_>],
    given: &[(&str, &[u8])],
) -> Result<(), AllocError> {
    if !hunt.found.is_empty() {
        return Ok(());
    }
    let site = match Site::read(alloc, hunt.draft.text(), given) {
        Ok(site) => site,
        Err(SiteFault::NoMemory) => return Err(AllocError),
        Err(_) => return Ok(()),
    };
    let mut left = Vec::from_slice(alloc, text)?;
    for _ in 0..MOST_FAULTS {
        if !find_next(alloc, hunt, &site, text, &mut left, judged)? {
            return Ok(());
        }
    }
    hunt.bounds.is_full = true;
    Ok(())
}
