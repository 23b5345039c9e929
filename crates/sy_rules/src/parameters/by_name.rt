//! The row of a parameter's name in the tables of a kind of object.

ghost use Rattle.std.specs.Prelude.{◌≡◌, ◌++◌, map};
ghost use Rattle.std.specs.Str.{str_eq_ignore_ascii_case};
ghost use Rattle.sy_rules.specs.parameters.Rows as spec;
ghost use Rattle.sy_rules.specs.parameters.RowViews as view;

use crate::parameters::kind::Kind;
use crate::parameters::rows::{Row, destination_rows, own_rows, queue_head_rows, queue_rest_rows};

fn find_in(mut rows: &'static [Row], name: &[u8]) -> Option<&'static Row>
    ensures { view.found result ≡ spec.lookup (map view.row_of rows.entry.now) name.now }
{
    while let [row, rest @ ..] = rows {
        if same_name(row.name, name) {
            return Some(row);
        }
        rows = rest;
    }
    None
}

/// Whether these are one name, without regard to the case of ASCII letters.
pub fn same_name(a: &[u8], b: &[u8]) -> bool
    ensures { result ≡ str_eq_ignore_ascii_case a.now b.now }
{
    a.eq_ignore_ascii_case(b)
}

fn find_in_queue(kind: Kind, name: &[u8]) -> Option<&'static Row>
    ensures { view.found result ≡ spec.lookup (spec.queue_head_rows kind ++ spec.queue_rest_rows kind) name.now }
{
    match find_in(queue_head_rows(kind), name) {
        Some(row) => Some(row),
        None => find_in(queue_rest_rows(kind), name),
    }
}

fn find_in_destination(kind: Kind, name: &[u8]) -> Option<&'static Row>
    ensures { view.found result ≡ spec.lookup (spec.destination_rows kind
        ++ (spec.queue_head_rows kind ++ spec.queue_rest_rows kind)) name.now }
{
    match find_in(destination_rows(kind), name) {
        Some(row) => Some(row),
        None => find_in_queue(kind, name),
    }
}

/// The row of a parameter that an object of a kind takes, without regard to the case of ASCII letters. It goes over at most 26 rows.
pub fn parameter_named(kind: Kind, name: &[u8]) -> Option<&'static Row>
    ensures { view.found result ≡ spec.lookup (spec.rows kind) name.now }
{
    match find_in(own_rows(kind), name) {
        Some(row) => Some(row),
        None => find_in_destination(kind, name),
    }
}
