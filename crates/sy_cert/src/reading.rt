//! Lines read as rows.

ghost use Rattle.std.specs.Prelude.{◌≡◌, ◌∷◌, ℕ, map, IfSome, IfNone, IfOk, IfErr, OnOk, codes};
ghost use Rattle.std.specs.Fmt.{decimal};
ghost use Rattle.std.specs.Option.{option_copied};
ghost use Rattle.sy_cert.specs.Faults.{words_in};
ghost use Rattle.sy_cert.specs.Rows.{AreOccurrences, IsPort, last_kind};
ghost use Rattle.sy_cert.specs.declared.row.Row.TheVariants as row;
ghost use Rattle.sy_cert.specs.internal.Reading.{AreUnread, IsNotTaken, IsRowOf, IsTaken, IsUnread, words_left};

use crate::certificate::Certificate;
use crate::fault::FaultCode;
use crate::lines::{PathLine, class_line, inner_line, path_line, relay_line};
use crate::row::Row;
use crate::words::number;
use std::alloc::Global;
use sy_script::Items;
use sy_wire::Class;
use sy_wire::words::{first_word, next_word};

/// The highest number of a class.
const MOST_CLASS: u32 = 191;

/// The highest port; the lowest is 1.
const MOST_PORT: u32 = 65_535;

/// The highest rank.
const MOST_RANK: u32 = u32::MAX;

/// The highest number of a list, and the highest that an inner row gives it.
const MOST_INNER: u32 = u32::MAX;

/// The version of certificates that have branch rows.
const BRANCH_VERSION: u32 = 2;

/// The highest occurrence.
const MOST_OCCURRENCE: u32 = 63;

// The port that a word writes.
fn port(word: &[u8]) -> Option<u16>
    ensures some { IfSome result (λ n. IsPort n × (word.now ≡ decimal n)) }
    ensures none { IfNone result ((n : ℕ) → IsPort n → word.now ≡ decimal n → ⊥) }
{
    match number(word, MOST_PORT) {
        Some(0) => None,
        Some(port) => Some(port as u16),
        None => None,
    }
}

// A copy of a name.
fn copy(alloc: Global, name: &[u8]) -> Result<Items<u8>, FaultCode>
    ensures ok { IfOk result (λ it. it ≡ name.now) }
    ensures err { IfErr result (λ code. code ≡ FaultCode.NoMemory) }
{
    match Items::from_slice(alloc, name) {
        Ok(copy) => Ok(copy),
        Err(_) => Err(FaultCode::NoMemory),
    }
}

// The row of a class line, of what is after its first word.
fn class_row(rest: Option<&[u8]>) -> Result<Row, FaultCode>
    ensures ok { (version : ℕ) → IfOk result (λ r.
        IsRowOf version (codes "class" ∷ words_left (option_copied rest.entry)) r) }
    ensures err { (version : ℕ) → IfErr result (λ code.
        IsUnread version (codes "class" ∷ words_left (option_copied rest.entry)) code) }
{
    match class_line(rest) {
        Some(word) => match number(word, MOST_CLASS) {
            Some(class) => Ok(Row::Class(Class::of_number(class as u8))),
            None => Err(FaultCode::Number),
        },
        None => Err(FaultCode::Line),
    }
}

// The row of a reach line, of what is after its first word.
fn reach_row(alloc: Global, rest: Option<&[u8]>) -> Result<Row, FaultCode>
    ensures ok { (version : ℕ) → IfOk result (λ r.
        IsRowOf version (codes "reach" ∷ words_left (option_copied rest.entry)) r) }
    ensures err { (version : ℕ) → IfErr result (λ code.
        IsUnread version (codes "reach" ∷ words_left (option_copied rest.entry)) code) }
{
    match relay_line(rest) {
        Some(line) => match port(line.number) {
            Some(port) => match copy(alloc, line.relay) {
                Ok(relay) => Ok(Row::Reach { relay, port }),
                Err(code) => Err(code),
            },
            None => Err(FaultCode::Number),
        },
        None => Err(FaultCode::Line),
    }
}

// The row of a branch line, of what is after its first word. There are such rows in version 2 alone.
fn branch_row(alloc: Global, version: u32, rest: Option<&[u8]>) -> Result<Row, FaultCode>
    ensures ok { IfOk result (λ r. IsRowOf version (codes "branch" ∷ words_left (option_copied rest.entry)) r) }
    ensures err { IfErr result (λ code. IsUnread version (codes "branch" ∷ words_left (option_copied rest.entry)) code) }
{
    if version != BRANCH_VERSION {
        return Err(FaultCode::Line);
    }
    match relay_line(rest) {
        Some(line) => match port(line.number) {
            Some(port) => match copy(alloc, line.relay) {
                Ok(relay) => Ok(Row::Branch { relay, port }),
                Err(code) => Err(code),
            },
            None => Err(FaultCode::Number),
        },
        None => Err(FaultCode::Line),
    }
}

// The row of a rank line, of what is after its first word.
fn rank_row(alloc: Global, rest: Option<&[u8]>) -> Result<Row, FaultCode>
    ensures ok { (version : ℕ) → IfOk result (λ r.
        IsRowOf version (codes "rank" ∷ words_left (option_copied rest.entry)) r) }
    ensures err { (version : ℕ) → IfErr result (λ code.
        IsUnread version (codes "rank" ∷ words_left (option_copied rest.entry)) code) }
{
    match relay_line(rest) {
        Some(line) => match number(line.number, MOST_RANK) {
            Some(rank) => match copy(alloc, line.relay) {
                Ok(relay) => Ok(Row::Rank { relay, rank }),
                Err(code) => Err(code),
            },
            None => Err(FaultCode::Number),
        },
        None => Err(FaultCode::Line),
    }
}

// The row of an inner line, of what is after its first word.
fn inner_row(alloc: Global, rest: Option<&[u8]>) -> Result<Row, FaultCode>
    ensures ok { (version : ℕ) → IfOk result (λ r.
        IsRowOf version (codes "inner" ∷ words_left (option_copied rest.entry)) r) }
    ensures err { (version : ℕ) → IfErr result (λ code.
        IsUnread version (codes "inner" ∷ words_left (option_copied rest.entry)) code) }
{
    match inner_line(rest) {
        Some(line) => match number(line.list, MOST_INNER) {
            Some(list) => match number(line.number, MOST_INNER) {
                Some(number) => match copy(alloc, line.relay) {
                    Ok(relay) => Ok(Row::Inner {
                        relay,
                        list,
                        number,
                    }),
                    Err(code) => Err(code),
                },
                None => Err(FaultCode::Number),
            },
            None => Err(FaultCode::Number),
        },
        None => Err(FaultCode::Line),
    }
}

// The occurrences that the words that are left write.
fn occurrences(alloc: Global, rest: Option<&[u8]>) -> Result<Items<u8>, FaultCode>
    ensures ok { IfOk result (λ it. AreOccurrences it × (map decimal it ≡ words_left (option_copied rest.entry))) }
    ensures err { IfErr result (λ code. AreUnread (words_left (option_copied rest.entry)) code) }
{
    let mut occurrences = Items::new(alloc);
    let mut left = rest;
    while let Some((word, after)) = next_word(left) {
        match number(word, MOST_OCCURRENCE) {
            Some(occurrence) => match occurrences.push(occurrence as u8) {
                Ok(()) => left = after,
                Err(_) => return Err(FaultCode::NoMemory),
            },
            None => return Err(FaultCode::Number),
        }
    }
    Ok(occurrences)
}

// The path row of a line with this port and these occurrences.
fn named_path(
    alloc: Global,
    line: PathLine<'_>,
    port: u16,
    occurrences: Items<u8>,
) -> Result<Row, FaultCode>
    ensures ok { IfOk result (λ r. r ≡ row.Path line.entry.relay.now port line.entry.archive_relay.now
        line.entry.action.now occurrences) }
    ensures err { IfErr result (λ code. code ≡ FaultCode.NoMemory) }
{
    let relay = copy(alloc, line.relay)?;
    let archive_relay = copy(alloc, line.archive_relay)?;
    let action = copy(alloc, line.action)?;
    Ok(Row::Path {
        relay,
        port,
        archive_relay,
        action,
        occurrences,
    })
}

// The row of a path line, of what is after its first word.
fn path_row(alloc: Global, rest: Option<&[u8]>) -> Result<Row, FaultCode>
    ensures ok { (version : ℕ) → IfOk result (λ r.
        IsRowOf version (codes "path" ∷ words_left (option_copied rest.entry)) r) }
    ensures err { (version : ℕ) → IfErr result (λ code.
        IsUnread version (codes "path" ∷ words_left (option_copied rest.entry)) code) }
{
    match path_line(rest) {
        Some(line) => match port(line.port) {
            Some(port) => match occurrences(alloc, line.occurrences) {
                Ok(occurrences) => named_path(alloc, line, port, occurrences),
                Err(code) => Err(code),
            },
            None => Err(FaultCode::Number),
        },
        None => Err(FaultCode::Line),
    }
}

// The row of a line, in a certificate of the version.
fn row_of(alloc: Global, version: u32, line: &[u8]) -> Result<Row, FaultCode>
    ensures ok { IfOk result (λ r. IsRowOf version (words_in line.now) r) }
    ensures err { IfErr result (λ code. IsUnread version (words_in line.now) code) }
{
    let (first, rest) = first_word(line);
    if first == b"class".as_slice() {
        return class_row(rest);
    }
    if first == b"reach".as_slice() {
        return reach_row(alloc, rest);
    }
    if first == b"branch".as_slice() {
        return branch_row(alloc, version, rest);
    }
    if first == b"rank".as_slice() {
        return rank_row(alloc, rest);
    }
    if first == b"inner".as_slice() {
        return inner_row(alloc, rest);
    }
    if first == b"path".as_slice() {
        return path_row(alloc, rest);
    }
    Err(FaultCode::Line)
}

/// Puts the row of a line after the others.
pub fn take_line(alloc: Global, certificate: &mut Certificate, line: &[u8]) -> Result<(), FaultCode>
    ensures version { certificate.new.version ≡ certificate.old.version }
    ensures ok { OnOk result (IsTaken certificate.old.version (words_in line.now) certificate.old.rows certificate.new.rows) }
    ensures err { IfErr result (λ code. IsNotTaken certificate.old.version (last_kind certificate.old.rows)
        (words_in line.now) code) }
{
    match row_of(alloc, certificate.version(), line) {
        Ok(row) => {
            if !certificate.may_follow(&row) {
                return Err(FaultCode::Order);
            }
            match certificate.push(row) {
                Ok(()) => Ok(()),
                Err(_) => Err(FaultCode::NoMemory),
            }
        }
        Err(code) => Err(code),
    }
}
