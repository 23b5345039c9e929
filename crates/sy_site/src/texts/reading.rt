//! The lines of a text that are not skipped, each read by its shape.

ghost use Rattle.std.specs.Prelude.{◌≡◌, ◌≤◌, ◌++◌, ◌⊎◌, ◌∷◌, [], ℕ, List, length, map, filter, true, false, All};
ghost use Rattle.std.specs.Prelude.{IfOk, IfErr, IfSome, IfNone, OnOk};
ghost use Rattle.sy_site.specs.internal.Lines.{line_of};
ghost use Rattle.sy_site.specs.internal.Reading as spec;
ghost use Rattle.sy_site.specs.internal.Reading.{line_given, words_given};
ghost use Rattle.sy_site.specs.texts.Describes.{AreLines, ENTRIES, File, IsDuplicate, IsMisplaced, PROTECTIONS, Repeats};
ghost use Rattle.sy_site.specs.texts.Describes.{OUTSIDES, SPARES, entry_lines, outside_lines, policy_of, protect_lines, relay_lines, spare_lines};
ghost use Rattle.sy_site.specs.texts.Files.{BYTES, RELAYS};
ghost use Rattle.sy_site.specs.texts.HasFault.{HasFault};
ghost use Rattle.sy_site.specs.texts.Lines.{is_kind, is_skipped as skips, word_lines, words};
ghost use Rattle.sy_site.specs.texts.Shapes.{IsLine, Line as Shape};

use crate::fault::SiteFault;
use crate::texts::lines::{behind_word, next_line, next_word};
use crate::texts::names::{MOST_BYTES, MOST_RELAYS};
use crate::texts::shapes::{Line, is_skipped, read_line};
use std::alloc::Global;

/// The most entry lines.
const MOST_ENTRIES: usize = 256;

/// The most protect lines.
const MOST_PROTECTIONS: usize = 256;

/// The most spare lines.
const MOST_SPARES: usize = 256;

/// The most outside lines.
const MOST_OUTSIDES: usize = 256;

/// A line of one of the six shapes, its number in the text, counted from 1, and the text behind its first word.
#[derive(Drop)]
pub struct Given<'t> {
    pub number: usize,
    pub line: Line<'t>,
    pub behind: &'t [u8],
}

// Why the reading ends at a line.
enum Halt {
    Line,
    Duplicate,
    NoMemory,
}

// The first word of a line.
fn kind(line: &Line<'_>) -> &'static [u8]
    ensures { result.now ≡ spec.kind (line_of line.now) }
{
    match line {
        Line::Policy => b"policy",
        Line::Relay(_) => b"relay",
        Line::Entry(_) => b"entry",
        Line::Protect(_) => b"protect",
        Line::Spare(_) => b"spare",
        Line::Outside(_) => b"outside",
    }
}

// The most lines of the kind of a line.
fn most(line: &Line<'_>) -> usize
    ensures { result ≡ spec.most (line_of line.now) }
{
    match line {
        Line::Policy => 1,
        Line::Relay(_) => MOST_RELAYS,
        Line::Entry(_) => MOST_ENTRIES,
        Line::Protect(_) => MOST_PROTECTIONS,
        Line::Spare(_) => MOST_SPARES,
        Line::Outside(_) => MOST_OUTSIDES,
    }
}

fn same_words(a: &[u8], b: &[u8]) -> bool
    ensures same { result ≡ true → words a.now ≡ words b.now }
    ensures apart { result ≡ false → words a.now ≡ words b.now → ⊥ }
{
    let mut left = a;
    let mut right = b;
    while let Some((word, behind)) = next_word(left) {
        match behind_word(right, word) {
            Some(rest) => {
                left = behind;
                right = rest;
            }
            None => return false,
        }
    }
    next_word(right).is_none()
}

fn same_first_word(a: &[u8], b: &[u8]) -> bool
    ensures same { result ≡ true → spec.BeginAlike (words a.now) (words b.now) }
    ensures apart { result ≡ false → spec.BeginAlike (words a.now) (words b.now) → ⊥ }
{
    match next_word(a) {
        Some((word, _)) => match behind_word(b, word) {
            Some(_) => true,
            None => false,
        },
        None => false,
    }
}

#[tactic(auto, using(crate::proofs::lemmas::texts::Again::begin_twice, crate::proofs::lemmas::texts::Again::alike_behind, crate::proofs::lemmas::texts::Again::twice_apart, crate::proofs::lemmas::texts::Again::twice_none))]
fn same_two_words(a: &[u8], b: &[u8]) -> bool
    ensures same { result ≡ true → spec.BeginAlikeTwice (words a.now) (words b.now) }
    ensures apart { result ≡ false → spec.BeginAlikeTwice (words a.now) (words b.now) → ⊥ }
{
    match next_word(a) {
        Some((word, behind)) => match behind_word(b, word) {
            Some(rest) => same_first_word(behind, rest),
            None => false,
        },
        None => false,
    }
}

// Whether two texts have a second word, and it is the same.
#[tactic(auto, using(crate::proofs::lemmas::texts::Again::second_behind, crate::proofs::lemmas::texts::Again::second_apart, crate::proofs::lemmas::texts::Again::second_none, crate::proofs::lemmas::texts::Again::second_missing))]
fn same_second_word(a: &[u8], b: &[u8]) -> bool
    ensures same { result ≡ true → spec.SecondAlike (words a.now) (words b.now) }
    ensures apart { result ≡ false → spec.SecondAlike (words a.now) (words b.now) → ⊥ }
{
    match next_word(a) {
        Some((_, left)) => match next_word(b) {
            Some((_, right)) => same_first_word(left, right),
            None => false,
        },
        None => false,
    }
}

// Whether an outside line gives again the name and the port of an earlier one, of the texts behind their first words.
#[tactic(auto, using(crate::proofs::lemmas::texts::Again::receiver_twice, crate::proofs::lemmas::texts::Again::receiver_behind, crate::proofs::lemmas::texts::Again::receiver_apart, crate::proofs::lemmas::texts::Again::receiver_none))]
fn same_receiver(a: &[u8], b: &[u8]) -> bool
    ensures same { result ≡ true → spec.NameOneReceiver (words a.now) (words b.now) }
    ensures apart { result ≡ false → spec.NameOneReceiver (words a.now) (words b.now) → ⊥ }
{
    match next_word(a) {
        Some((word, behind)) => match behind_word(b, word) {
            Some(rest) => same_second_word(behind, rest),
            None => false,
        },
        None => false,
    }
}

// Whether a line that begins with this word gives a name that no line of the other such kind gives.
fn is_naming(word: &[u8]) -> bool
    ensures { result ≡ spec.is_naming word.now }
{
    word == b"relay".as_slice() || word == b"outside".as_slice()
}

// Whether two lines of two kinds give one name: a relay line and an outside line.
fn shares_name(earlier: &Given<'_>, line: &Given<'_>) -> bool
    ensures again { result ≡ true → (spec.kind (line_given earlier.now) ≡ spec.kind (line_given line.now) → ⊥)
        → Repeats (words_given earlier.now) (words_given line.now) }
    ensures apart { result ≡ false → (spec.kind (line_given earlier.now) ≡ spec.kind (line_given line.now) → ⊥)
        → Repeats (words_given earlier.now) (words_given line.now) → ⊥ }
{
    if !is_naming(kind(&earlier.line)) {
        return false;
    }
    if !is_naming(kind(&line.line)) {
        return false;
    }
    same_first_word(earlier.behind, line.behind)
}

// Whether a line gives again what an earlier one gave.
fn gives_again(earlier: &Given<'_>, line: &Given<'_>) -> bool
    ensures again { result ≡ true → Repeats (words_given earlier.now) (words_given line.now) }
    ensures apart { result ≡ false → Repeats (words_given earlier.now) (words_given line.now) → ⊥ }
{
    if kind(&earlier.line) != kind(&line.line) {
        return shares_name(earlier, line);
    }
    match &line.line {
        Line::Policy => false,
        Line::Relay(_) => same_first_word(earlier.behind, line.behind),
        Line::Entry(_) => same_two_words(earlier.behind, line.behind),
        Line::Outside(_) => same_receiver(earlier.behind, line.behind),
        _ => same_words(earlier.behind, line.behind),
    }
}

fn is_duplicate(found: &[Given<'_>], line: &Given<'_>) -> bool
    ensures again { result ≡ true → IsDuplicate (map words_given found.now) (words_given line.now) }
    ensures new { result ≡ false → IsDuplicate (map words_given found.now) (words_given line.now) → ⊥ }
{
    for earlier in found {
        if gives_again(earlier, line) {
            return true;
        }
    }
    false
}

/// The policy that the lines of a text set: 2 where the first one is a policy line, else 1.
pub fn policy(found: &[Given<'_>]) -> u32
    ensures { result ≡ policy_of (map line_given found.now) }
{
    match found {
        [first, ..] => match &first.line {
            Line::Policy => 2,
            _ => 1,
        },
        [] => 1,
    }
}

// Whether a line has a place behind those that were found: a policy line is the first one, and a spare line stands
// behind one of policy 2.
fn has_place(found: &[Given<'_>], line: &Line<'_>) -> bool
    ensures yes { result ≡ true → spec.HasNoPlace (map line_given found.now) (line_of line.now) → ⊥ }
    ensures no { result ≡ false → spec.HasNoPlace (map line_given found.now) (line_of line.now) }
{
    match line {
        Line::Policy => found.is_empty(),
        Line::Spare(_) => policy(found) == 2,
        _ => true,
    }
}

// How many lines begin with this word.
fn how_many(found: &[Given<'_>], word: &[u8]) -> usize
    ensures { result ≡ length (filter (is_kind word.now) (map words_given found.now)) }
{
    let mut count = 0;
    for given in found {
        if kind(&given.line) == word {
            count += 1;
        }
    }
    count
}

// The line of this number, where it has a shape.
fn read_given(alloc: Global, number: usize, line: &[u8]) -> Option<Given<'_>>
    ensures some { IfSome result (λ g. spec.IsGiven g number (words line.now)) }
    ensures none { IfNone result ((it : Shape) → IsLine (words line.now) it → ⊥) }
{
    let (_, behind) = next_word(line)?;
    match read_line(alloc, line) {
        Some(line) => Some(Given {
            number,
            line,
            behind,
        }),
        None => None,
    }
}

// Puts a line behind those that were found.
fn push_given<'t>(found: &mut Vec<Given<'t>>, line: Given<'t>) -> Result<(), Halt>
    ensures found { OnOk result (found.new.items ≡ found.old.items ++ line.entry ∷ []) }
    ensures placed { OnOk result (spec.HasNoPlace (map line_given found.old.items) (line_given line.entry) → ⊥) }
    ensures few { OnOk result (spec.HasRoom (map words_given found.old.items) (line_given line.entry)) }
    ensures new { OnOk result (IsDuplicate (map words_given found.old.items) (words_given line.entry) → ⊥) }
    ensures err { IfErr result (λ halt. IsLine (words_given line.entry) (line_given line.entry)
        → spec.IsStopped found.old.items (words_given line.entry) halt) }
{
    if !has_place(found.as_slice(), &line.line) {
        return Err(Halt::Line);
    }
    if how_many(found.as_slice(), kind(&line.line)) >= most(&line.line) {
        return Err(Halt::Line);
    }
    if is_duplicate(found.as_slice(), &line) {
        return Err(Halt::Duplicate);
    }
    match found.push(line) {
        Ok(()) => Ok(()),
        Err(_) => Err(Halt::NoMemory),
    }
}

// Notes the line of this number behind those that were found.
fn note<'t>(
    alloc: Global,
    found: &mut Vec<Given<'t>>,
    number: usize,
    line: &'t [u8],
) -> Result<(), Halt>
    ensures skipped { OnOk result (skips (words line.now) ≡ true → found.new.items ≡ found.old.items) }
    ensures given { OnOk result (skips (words line.now) ≡ false
        → spec.IsAdded found.old.items found.new.items number (words line.now)) }
    ensures err { IfErr result (λ halt. spec.IsStopped found.old.items (words line.now) halt) }
{
    if is_skipped(line) {
        return Ok(());
    }
    match read_given(alloc, number, line) {
        Some(line) => push_given(found, line),
        None => Err(Halt::Line),
    }
}

/// The lines of a text that are not skipped, in their order. Refuses a text that is too long, and a line that has none
/// of the six shapes, or else has no place or is one more than the most of its kind (51), or else gives again what an
/// earlier one gave (52); the first such line is answered. It takes time linear in the text, and for each line a look
/// at the lines before it, of which there are 1089 at most.
pub fn read_lines(alloc: Global, text: &[u8]) -> Result<Vec<Given<'_>>, SiteFault>
    ensures small { OnOk result (length text.now ≤ BYTES) }
    ensures lines { IfOk result (λ found. AreLines (word_lines text.now) (map line_given found.items)) }
    ensures placed { IfOk result (λ found. All (spec.IsPlaced text.now) found.items) }
    ensures once { OnOk result ((before later : List (List (List ℕ))) (line : List (List ℕ))
        → word_lines text.now ≡ before ++ line ∷ later → IsDuplicate before line → ⊥) }
    ensures in_place { OnOk result ((before later : List (List (List ℕ))) (line : List (List ℕ))
        → word_lines text.now ≡ before ++ line ∷ later → IsMisplaced before line → ⊥) }
    ensures few_relays { IfOk result (λ found. length (relay_lines (map line_given found.items)) ≤ RELAYS) }
    ensures few_entries { IfOk result (λ found. length (entry_lines (map line_given found.items)) ≤ ENTRIES) }
    ensures few_protections { IfOk result (λ found. length (protect_lines (map line_given found.items))
        ≤ PROTECTIONS) }
    ensures few_spares { IfOk result (λ found. length (spare_lines (map line_given found.items)) ≤ SPARES) }
    ensures few_outsides { IfOk result (λ found. length (outside_lines (map line_given found.items)) ≤ OUTSIDES) }
    ensures err { IfErr result (λ fault. (fault ≡ SiteFault.NoMemory)
        ⊎ ((files : List File) → HasFault text.now files fault)) }
    ensures first { IfErr result (λ fault. spec.IsFirst text.now fault) }
{
    if text.len() > MOST_BYTES {
        return Err(SiteFault::Line(1));
    }
    let mut found = Vec::new(alloc);
    let mut number = 1;
    let mut rest = text;
    while let Some((line, behind)) = next_line(rest) {
        match note(alloc, &mut found, number, line) {
            Ok(()) => {}
            Err(Halt::Line) => return Err(SiteFault::Line(number)),
            Err(Halt::Duplicate) => return Err(SiteFault::Duplicate(number)),
            Err(Halt::NoMemory) => return Err(SiteFault::NoMemory),
        }
        number += 1;
        rest = behind;
    }
    Ok(found)
}
