//! Where the objects of a relay stand: in which line of which file.

use crate::relay_file::outline::{Object, ObjectWord, object_of, outline_script};
use crate::site_file::source::{point_at, word_in};
use crate::site_file::texts::RelayFile;
use std::alloc::{AllocError, Global};
use std::str;
use sy_report::texts::note::{Note, Point, append_point};
use sy_report::texts::words::Words;
use sy_site::{Site, SiteAction, without_return};

/// A relay's file with its objects.
#[derive(Clone, Copy)]
pub struct Places<'a> {
    pub file: &'a str,
    pub text: &'a [u8],
    pub objects: &'a [Object<'a>],
}

/// An object of a relay, by its number among those of its kind.
#[derive(Clone, Copy)]
pub enum Thing {
    MainQueue,
    Ruleset(u32),
    Input(u32),
    Action(u32),
}

impl<'a> Places<'a> {
    /// The object that a thing is, where it stands in the file.
    pub fn object(&self, thing: Thing) -> Option<Object<'a>> {
        match thing {
            Thing::MainQueue => object_of(self.objects, ObjectWord::MainQueue, 0),
            Thing::Ruleset(number) => object_of(self.objects, ObjectWord::Ruleset, number),
            Thing::Input(number) => object_of(self.objects, ObjectWord::Input, number),
            Thing::Action(number) => object_of(self.objects, ObjectWord::Action, number),
        }
    }

    /// The point at which an object's word stands.
    pub fn point(&self, thing: Thing) -> Option<Point> {
        match self.object(thing) {
            Some(object) => Some(point_at(self.text, object.start)),
            None => None,
        }
    }

    /// Says that something stands at a place of the file.
    pub fn stands_at(&self, alloc: Global, note: &mut Note, place: usize) {
        let point = point_at(self.text, place);
        note.stands_at(alloc, self.file.as_bytes(), Some(point));
    }

    /// Puts the file with a place of it, as `hub.conf:4:1`.
    pub fn push_point(&self, words: &mut Words, place: usize) {
        let point = point_at(self.text, place);
        append_point(words, self.file.as_bytes(), Some(point));
    }
}

/// Whether a line of the site file is a relay line.
pub fn is_relay_line(line: &[u8]) -> bool {
    matches!(word_in(line, 0), Some((_, first)) if first == b"relay".as_slice())
}

/// The name of a relay's file in a line of the site file, with its place there, where that is a relay line.
pub fn file_in(line: &[u8]) -> Option<(usize, &[u8])> {
    if is_relay_line(line) {
        word_in(line, 2)
    } else {
        None
    }
}

/// The same name as a text.
pub fn file_name_in(line: &[u8]) -> Option<&str> {
    let (_, name) = file_in(line)?;
    str::from_utf8(name).ok()
}

// Of the lines of a text that begin with a word the one of this number, counted from 0: its number among all lines, counted
// from 1, and that line.
fn line_of<'t>(text: &'t [u8], word: &[u8], number: u32) -> Option<(u64, &'t [u8])> {
    let mut left = number;
    let mut at: u64 = 1;
    for line in text.split(|b| *b == b'\n') {
        let line = without_return(line);
        if matches!(word_in(line, 0), Some((_, first)) if first == word) {
            if left == 0 {
                return Some((at, line));
            }
            left -= 1;
        }
        at = at.saturating_add(1);
    }
    None
}

/// The number of the line of a relay in the text of the site file, counted from 1, and that line.
pub fn relay_line(text: &[u8], relay: u32) -> Option<(u64, &[u8])> {
    line_of(text, b"relay", relay)
}

/// The same of the line by which an action is spare.
pub fn spare_line<'t>(text: &'t [u8], site: &Site, spare: SiteAction) -> Option<(u64, &'t [u8])> {
    let mut number: u32 = 0;
    for other in site.spares() {
        if *other == spare {
            return line_of(text, b"spare", number);
        }
        number = number.saturating_add(1);
    }
    None
}

/// The objects of a relay's file.
pub fn objects_of<'a>(
    alloc: Global,
    file: &'a Option<RelayFile<'_>>,
) -> Result<Vec<Object<'a>>, AllocError> {
    match file {
        Some(
            RelayFile {
                script: Some(script),
                ..
            },
        ) => outline_script(alloc, script),
        _ => Ok(Vec::new(alloc)),
    }
}

/// A relay's file with its objects, where it is a script.
pub fn places_of<'a>(
    file: &'a Option<RelayFile<'_>>,
    objects: &'a [Object<'a>],
) -> Option<Places<'a>> {
    match file {
        Some(file) if file.script.is_some() => Some(Places {
            file: file.name,
            text: file.text,
            objects,
        }),
        _ => None,
    }
}
