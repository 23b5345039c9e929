//! The kinds of lines, and which may follow which.

ghost use Rattle.std.specs.Prelude.{◌≡◌};
ghost use Rattle.sy_cert.specs.Rows as spec;

use crate::row::Row;

/// The kinds of lines: the first line, and the six kinds of rows.
#[derive(Clone, Copy)]
pub enum Kind {
    Cert,
    Class,
    Reach,
    Branch,
    Rank,
    Inner,
    Path,
}

/// The kind of a row.
pub fn kind_of(row: &Row) -> Kind
    ensures { result ≡ spec.kind row.now }
{
    match row {
        Row::Class(_) => Kind::Class,
        Row::Reach { .. } => Kind::Reach,
        Row::Branch { .. } => Kind::Branch,
        Row::Rank { .. } => Kind::Rank,
        Row::Inner { .. } => Kind::Inner,
        Row::Path { .. } => Kind::Path,
    }
}

/// The kind of the last row, or of the first line.
pub fn last_kind(rows: &[Row]) -> Kind
    ensures { result ≡ spec.last_kind rows.now }
{
    match rows {
        [.., last] => kind_of(last),
        [] => Kind::Cert,
    }
}

/// Whether a row of this kind may follow a line of that kind.
pub fn follows(before: Kind, kind: Kind) -> bool
    ensures { result ≡ spec.may_follow before kind }
{
    match (before, kind) {
        (Kind::Cert | Kind::Path, Kind::Class) => true,
        (Kind::Class | Kind::Reach, Kind::Reach) => true,
        (Kind::Reach | Kind::Branch, Kind::Branch) => true,
        (Kind::Reach | Kind::Branch | Kind::Rank, Kind::Rank) => true,
        (Kind::Rank | Kind::Inner, Kind::Inner) => true,
        (Kind::Rank | Kind::Inner | Kind::Path, Kind::Path) => true,
        _ => false,
    }
}
