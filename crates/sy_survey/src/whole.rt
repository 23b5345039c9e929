//! A configuration with the files that it includes, put into one text, and where each place of that comes from.
ghost use Rattle.std.specs.Prelude.{◌≡◌, ◌++◌, IfOk, IfSome, OnOk};
ghost use Rattle.sy_survey.specs.Together as spec;

use crate::folders::Folders;
use crate::tree::{Source, Tree};
use std::alloc::{AllocError, Global};
use sy_fleet::includes::{Include, next_include};
use sy_fleet_text::{TextFault, read_text};
use sy_report::reading::files::Files;

/// How many files are read for a configuration at most, and in the places of how many statements.
const MOST_FILES: usize = 1_000;

const MOST_INCLUDES: usize = 256;

/// A stretch of the whole text: where it begins there, of which file it is, and where it begins in that.
#[derive(Clone, Copy)]
struct Stretch {
    start: usize,
    source: usize,
    from: usize,
}

/// A configuration in one text. Its own file is number 0 of its files.
#[derive(Drop)]
pub(crate) struct Whole {
    pub text: Vec<u8>,
    pub sources: Vec<Source>,
    stretches: Vec<Stretch>,
}

/// Why a configuration isn't put together.
#[derive(Clone, Copy)]
pub(crate) enum Apart {
    /// Its text isn't read.
    Text(TextFault),
    TooManyFiles,
    NoMemory,
}

/// A place: the number of a file, and where it is in that.
#[derive(Clone, Copy)]
pub(crate) struct Place {
    pub source: usize,
    pub at: usize,
}

impl Whole {
    /// A configuration without what it includes.
    pub fn plain(alloc: Global, name: &str, text: Vec<u8>) -> Result<Whole, AllocError>
        ensures { IfOk result (λ whole. whole.text.items ≡ text.items) }
    {
        let mut sources = Vec::new(alloc);
        sources.push(Source {
            name: String::from_str(alloc, name)?,
            text: Vec::from_slice(alloc, text.as_slice())?,
        })?;
        let mut stretches = Vec::new(alloc);
        stretches.push(Stretch {
            start: 0,
            source: 0,
            from: 0,
        })?;
        Ok(Whole {
            text,
            sources,
            stretches,
        })
    }

    /// Where a place of the whole text comes from.
    pub fn place(&self, at: usize) -> Place {
        let mut found = Place { source: 0, at };
        for stretch in &self.stretches {
            if stretch.start <= at {
                let behind = at.saturating_sub(stretch.start);
                found = Place {
                    source: stretch.source,
                    at: stretch.from.saturating_add(behind),
                };
            }
        }
        found
    }

    /// The name of a file, and its text.
    pub fn source(&self, number: usize) -> (&[u8], &[u8]) {
        match self.sources.get(number) {
            Some(source) => (source.name.as_bytes(), source.text.as_slice()),
            None => (b"", b""),
        }
    }
}

// ---- a statement's place

// A file between two line feeds: it begins a line, and so does what comes after it.
fn append_lines(text: &mut Vec<u8>, source: &Source) -> Result<(), AllocError>
    ensures { OnOk result (text.new.items ≡ text.old.items ++ spec.lines_of source.now) }
{
    text.push(b'\n')?;
    text.extend_from_slice(source.text.as_slice())?;
    text.push(b'\n')?;
    Ok(())
}

fn append_all(text: &mut Vec<u8>, sources: &[Source]) -> Result<(), AllocError>
    ensures { OnOk result (text.new.items ≡ text.old.items ++ spec.all_lines sources.now) }
{
    for source in sources {
        append_lines(text, source)?;
    }
    Ok(())
}

// A text in which files stand in the place of the bytes from one place up to another.
fn spliced(
    alloc: Global,
    text: &[u8],
    start: usize,
    end: usize,
    sources: &[Source],
) -> Result<Vec<u8>, AllocError>
    ensures { IfOk result (λ found. found.items ≡ spec.spliced text.now start end sources.now) }
{
    let mut found = Vec::new(alloc);
    found.extend_from_slice(text.get(..start).unwrap_or(text))?;
    append_all(&mut found, sources)?;
    found.extend_from_slice(text.get(end..).unwrap_or(&[]))?;
    Ok(found)
}

// Adds the stretches behind a place, which stands at another one now.
fn push_behind(
    found: &mut Vec<Stretch>,
    whole: &Whole,
    end: usize,
    start: usize,
) -> Result<(), AllocError> {
    for stretch in &whole.stretches {
        if stretch.start > end {
            let behind = stretch.start.saturating_sub(end);
            found.push(Stretch {
                start: start.saturating_add(behind),
                source: stretch.source,
                from: stretch.from,
            })?;
        }
    }
    Ok(())
}

// The stretches of that text.
fn stretches_of(
    alloc: Global,
    whole: &Whole,
    include: Include,
    sources: &[Source],
) -> Result<Vec<Stretch>, AllocError> {
    let mut found = Vec::new(alloc);
    for stretch in &whole.stretches {
        if stretch.start < include.start || stretch.start == 0 {
            found.push(*stretch)?;
        }
    }
    let mut start = include.start;
    for at in 0..sources.len() {
        found.push(Stretch {
            start: start.saturating_add(1),
            source: whole.sources.len().saturating_add(at),
            from: 0,
        })?;
        start = start
            .saturating_add(sources[at].text.len())
            .saturating_add(2);
    }
    let Place { source, at } = whole.place(include.end);
    found.push(Stretch {
        start,
        source,
        from: at,
    })?;
    push_behind(&mut found, whole, include.end, start)?;
    Ok(found)
}

// Puts files in the place of a statement.
fn splice(
    alloc: Global,
    whole: &mut Whole,
    include: Include,
    sources: Vec<Source>,
) -> Result<(), AllocError>
    ensures { OnOk result (whole.new.text.items ≡ spec.spliced whole.old.text.items include.start include.end sources.items) }
{
    let Include { start, end, .. } = include;
    let text = spliced(alloc, whole.text.as_slice(), start, end, sources.as_slice())?;
    whole.stretches = stretches_of(alloc, whole, include, sources.as_slice())?;
    for source in sources {
        whole.sources.push(source)?;
    }
    whole.text = text;
    Ok(())
}

// ---- all of them

// The first statement from a place on that includes.
fn include_from(alloc: Global, text: &[u8], from: usize) -> Result<Option<Include>, Apart>
    ensures { IfOk result (λ found. IfSome found (λ it. spec.IncludesIn text.now it.start it.end)) }
{
    let pieces = match read_text(alloc, text) {
        Ok(pieces) => pieces,
        Err(fault) => return Err(Apart::Text(fault)),
    };
    match next_include(alloc, text, pieces.as_slice(), from) {
        Ok(found) => Ok(found),
        Err(_) => Err(Apart::NoMemory),
    }
}

// The files of a statement below a root; nothing where they aren't known.
fn sources_of<F: Files, D: Folders>(
    alloc: Global,
    tree: &Tree<'_, F, D>,
    root: &str,
    text: &[u8],
    include: Include,
) -> Result<Option<Vec<Source>>, Apart>
    ensures { IfOk result (λ found. IfSome found (λ sources. spec.AreRead F.bytes_of tree.entry.now.files.now sources.items)) }
{
    match tree.included(alloc, root, include.pattern.of(text)) {
        Ok(found) => Ok(found),
        Err(_) => Err(Apart::NoMemory),
    }
}

// Puts these files in the place of a statement, where they aren't too many.
fn put(
    alloc: Global,
    whole: &mut Whole,
    include: Include,
    sources: Vec<Source>,
) -> Result<(), Apart>
    ensures { OnOk result (whole.new.text.items ≡ spec.spliced whole.old.text.items include.start include.end sources.items) }
{
    if whole.sources.len().saturating_add(sources.len()) > MOST_FILES {
        return Err(Apart::TooManyFiles);
    }
    match splice(alloc, whole, include, sources) {
        Ok(()) => Ok(()),
        Err(_) => Err(Apart::NoMemory),
    }
}

// Looks at one statement that includes, from a place on, and answers from where on the next is looked for; nothing where there is none.
fn step<F: Files, D: Folders>(
    alloc: Global,
    tree: &Tree<'_, F, D>,
    root: &str,
    whole: &mut Whole,
    from: usize,
) -> Result<Option<usize>, Apart>
    ensures { OnOk result (spec.Steps F.bytes_of tree.entry.now.files.now whole.old.text.items whole.new.text.items) }
{
    let Some(include) = include_from(alloc, whole.text.as_slice(), from)? else {
        return Ok(None);
    };
    match sources_of(alloc, tree, root, whole.text.as_slice(), include)? {
        Some(sources) => {
            put(alloc, whole, include, sources)?;
            Ok(Some(include.start))
        }
        None => Ok(Some(include.end)),
    }
}

/// Puts all files below a root that a configuration includes, and that these do, in the place of the statements that include them, as far
/// as they are known. A statement whose files aren't stays.
pub(crate) fn include<F: Files, D: Folders>(
    alloc: Global,
    tree: &Tree<'_, F, D>,
    root: &str,
    whole: &mut Whole,
) -> Result<(), Apart>
    ensures { OnOk result (spec.Together F.bytes_of tree.entry.now.files.now whole.old.text.items whole.new.text.items) }
{
    let mut from = 0;
    for _ in 0..MOST_INCLUDES {
        match step(alloc, tree, root, whole, from)? {
            Some(next) => from = next,
            None => return Ok(()),
        }
    }
    Err(Apart::TooManyFiles)
}
