//! What a certificate of a site has to say, and what is kept of a site that is accepted.

use crate::flows::{first_entry, flows_for, flows_of_a_site};
use crate::site::site_of_a_relay;
use crate::values::message;
use std::alloc::{AllocError, Global};
use sy_checker::check_site;
use sy_fit::{
    Accepted, Risk, is_mark_above_size, is_mark_off, is_not_full, may_discard, may_risk,
    protected_classes, sorted, wanted_rows,
};
use sy_flows::{reached, reached_by_every};
use sy_site::Site;
use sy_wire::Class;

/// Which of some kinds hold at a site's first entry.
pub fn kinds_at_an_entry(alloc: Global) -> Option<(bool, bool, bool, bool, bool)> {
    let site = site_of_a_relay(alloc)?;
    let class = message(alloc)?.class();
    let entry = first_entry(&site)?;
    let flows = flows_of_a_site(alloc, &site, class)?;
    let off = is_mark_off(&site, class, entry);
    let above = is_mark_above_size(&site, class, entry);
    let risky = may_risk(&site, class, &flows, entry, Risk::Post);
    Some((
        is_not_full(&site, class, entry),
        off,
        above,
        may_discard(&site, class, entry),
        risky,
    ))
}

/// How many rows are wanted for a class, and how many inputs it reaches, in the order of the site.
pub fn rows_of_a_class(
    alloc: Global,
    site: &Site,
    class: Class,
) -> Result<(usize, usize), AllocError> {
    let flows = flows_for(alloc, site, class)?;
    let found = reached(alloc, site, class, &flows)?;
    let firm = found.inputs.as_slice();
    let every = reached_by_every(alloc, site, class, &flows, firm)?;
    let rows = wanted_rows(alloc, site, class, &flows, firm, every.as_slice())?;
    let inputs = sorted(alloc, site, firm)?;
    Ok((rows.len(), inputs.len()))
}

/// What is kept of a sound site without protected classes.
pub fn accepted_of_no_class(alloc: Global, site: &Site) -> Result<Option<Accepted>, AllocError> {
    let Ok(_) = check_site(alloc, site) else {
        return Ok(None);
    };
    let classes = protected_classes(alloc, site)?;
    let pairs = Vec::new(alloc);
    if !classes.as_slice().is_empty() {
        return Ok(None);
    }
    let accepted = Accepted::new(alloc, site, classes, pairs)?;
    Ok(Some(accepted))
}
