//! The rows of a class, beside those that are wanted.

ghost use Rattle.std.specs.Prelude.{◌≡◌, Contains, Decides, IfNone, IfSome};
ghost use Rattle.sy_fit.specs.Fit as fit;
ghost use Rattle.sy_flows.specs.Hops.{AreFlows};

use crate::rows::is_right;
use crate::rows::wanted::{RowKind, Wanted};
use sy_cert::Row;
use sy_flows::ClassFlows;
use sy_site::Site;
use sy_wire::Class;

/// The kind of row that is wanted.
pub fn wanted_kind(is: Wanted) -> RowKind
    ensures { result ≡ fit.wanted_kind is }
{
    match is {
        Wanted::Class(_) => RowKind::Class,
        Wanted::Reach(_) => RowKind::Reach,
        Wanted::Branch(_) => RowKind::Branch,
        Wanted::Rank(_) => RowKind::Rank,
        Wanted::Inner(_) => RowKind::Inner,
        Wanted::Path(_, _) => RowKind::Path,
    }
}

/// The kind of a row.
pub fn row_kind(row: &Row) -> RowKind
    ensures { result ≡ fit.row_kind row.now }
{
    match row {
        Row::Class(_) => RowKind::Class,
        Row::Reach { .. } => RowKind::Reach,
        Row::Branch { .. } => RowKind::Branch,
        Row::Rank { .. } => RowKind::Rank,
        Row::Inner { .. } => RowKind::Inner,
        Row::Path { .. } => RowKind::Path,
    }
}

// Whether the wanted row stands at a place, and holds.
fn is_right_at(
    site: &Site,
    class: Class,
    flows: &ClassFlows,
    part: &[Wanted],
    rows: &[Row],
    place: usize,
    is: Wanted,
) -> bool
    requires wanted { fit.AreWanted site.now class part.now }
    requires member { Contains part.now is }
    requires flows { AreFlows site.now class flows.now }
    ensures { Decides result (fit.IsRightAt site.now class part.now rows.now place is) }
{
    match rows.get(place) {
        Some(row) => is_right(site, class, flows, part, rows, is, row),
        None => false,
    }
}

/// The first of the wanted rows that doesn't stand at its place or doesn't hold, by its place and the kind wanted
/// there.
pub fn first_wrong(
    site: &Site,
    class: Class,
    flows: &ClassFlows,
    part: &[Wanted],
    rows: &[Row],
) -> Option<(usize, RowKind)>
    requires wanted { fit.AreWanted site.now class part.now }
    requires flows { AreFlows site.now class flows.now }
    ensures none { IfNone result (fit.AreRight site.now class part.now rows.now) }
    ensures some { IfSome result (λ w. fit.IsWrongAt site.now class part.now rows.now w.0 w.1) }
{
    for place in 0..part.len() {
        let is = part[place];
        if !is_right_at(site, class, flows, part, rows, place, is) {
            return Some((place, wanted_kind(is)));
        }
    }
    None
}
