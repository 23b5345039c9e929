//! What `--explain` says of a fault, behind its first line.

use crate::fault_note::note_of_fault;
use std::alloc::{AllocError, Global};
use sy_places::site_file::texts::SiteTexts;
use sy_report::outcome::halt::Halt;
use sy_report::texts::note::{Note, append_note};
use sy_report::texts::words::Words;

// The lines of a note, where there is one.
fn words_of(alloc: Global, note: Option<Note>) -> Result<Vec<u8>, AllocError> {
    let mut words = Words::new(alloc);
    if let Some(note) = note {
        append_note(&mut words, &note);
    }
    words.finish()
}

/// The lines behind the first one on standard error, of a command that stopped: where the fault stands, why it is one, and
/// what to change.
pub fn fault_words(
    alloc: Global,
    texts: &SiteTexts<'_>,
    halt: &Halt,
) -> Result<Vec<u8>, AllocError> {
    match note_of_fault(alloc, texts, halt) {
        Ok(note) => words_of(alloc, note),
        Err(why) => Err(why),
    }
}
