//! Which step could be made in place of an illegal event, for people.

use std::alloc::{AllocError, Global};
use sy_places::site_file::source::word_in;
use sy_places::site_file::texts::SiteTexts;
use sy_replay::{Replay, read_event};
use sy_report::outcome::halt::Halt;
use sy_report::texts::parts::Part;
use sy_report::texts::words::Words;
use sy_site::{Site, file_names};

/// The shortest message, which is taken to see whether a hand is empty.
const MESSAGE: &[u8] = b"<34>1 - - - - - -";

/// A step that may be tried: the word before the words of the event, and what stands behind them in its line.
#[derive(Clone, Copy)]
struct Step {
    word: &'static [u8],
    behind: &'static [u8],
    /// What is said of it, behind its line.
    further: &'static str,
}

/// The steps of a worker.
static OF_WORKERS: [Step; 3] = [
    Step {
        word: b"done",
        behind: b"",
        further: ", or fail or giveup in place of done",
    },
    Step {
        word: b"post",
        behind: b"",
        further: ", or postlost in place of post",
    },
    Step {
        word: b"grab",
        behind: b"",
        further: "",
    },
];

/// The steps of a hand.
static OF_HANDS: [Step; 3] = [
    Step {
        word: b"enter",
        behind: b"",
        further: "",
    },
    Step {
        word: b"expire",
        behind: b"",
        further: "",
    },
    Step {
        word: b"take",
        behind: b" new ",
        further: "",
    },
];

// The site that the texts describe.
fn site_of(alloc: Global, texts: &SiteTexts<'_>, text: &[u8]) -> Result<Option<Site>, AllocError> {
    let Ok(names) = file_names(alloc, text) else {
        return Ok(None);
    };
    let mut files = Vec::new(alloc);
    for name in names.as_slice() {
        if let Some(file) = texts.file(name.as_str()) {
            files.push((file.name.as_str(), file.machine_text()))?;
        }
    }
    match Site::read(alloc, text, files.as_slice()) {
        Ok(site) => Ok(Some(site)),
        Err(_) => Ok(None),
    }
}

// Makes the step of a line, where it can be made, and answers whether it was.
fn is_made(alloc: Global, site: &Site, replay: &mut Replay<'_>, line: &[u8]) -> bool {
    match read_event(alloc, site, line) {
        Ok(Some(event)) => replay.apply(&event).is_ok(),
        _ => false,
    }
}

// Makes the steps of the lines before the one of a number, and answers that one.
fn line_at<'t>(
    alloc: Global,
    site: &Site,
    replay: &mut Replay<'_>,
    events: &'t [u8],
    number: u64,
) -> &'t [u8] {
    let mut at: u64 = 1;
    for line in events.split(|b| *b == b'\n') {
        if at == number {
            return line;
        }
        is_made(alloc, site, replay, line);
        at = at.saturating_add(1);
    }
    b""
}

// Whether an event is one of a hand, and not of a worker.
fn is_of_hand(line: &[u8]) -> bool {
    matches!(word_in(line, 0), Some((_, b"take" | b"enter" | b"expire")))
}

// The words of an event that say where it is: a relay with a port and a hand, or with a worker.
fn place_of(line: &[u8]) -> &[u8] {
    let last = if is_of_hand(line) { 3 } else { 2 };
    match (word_in(line, 1), word_in(line, last)) {
        (Some((start, _)), Some((end, word))) => {
            let end = end.saturating_add(word.len());
            match line.get(start..end) {
                Some(place) => place,
                None => b"",
            }
        }
        _ => b"",
    }
}

// The line of a step at a place.
fn line_of(alloc: Global, step: Step, place: &[u8]) -> Result<Vec<u8>, AllocError> {
    let mut words = Words::new(alloc);
    words.append(&[
        Part::Text(step.word),
        Part::Text(b" "),
        Part::Text(place),
        Part::Text(step.behind),
    ]);
    if !step.behind.is_empty() {
        words.append(&[Part::Text(MESSAGE)]);
    }
    words.finish()
}

// Puts the first of some steps at a place that can be made now, and answers whether one can.
fn push_first(
    alloc: Global,
    words: &mut Words,
    site: &Site,
    replay: &mut Replay<'_>,
    steps: &[Step],
    place: &[u8],
) -> Result<bool, AllocError> {
    for step in steps {
        let line = line_of(alloc, *step, place)?;
        if is_made(alloc, site, replay, line.as_slice()) {
            words.say("change: ");
            words.append_in_line(line.as_slice());
            words.say(step.further);
            words.say("\n");
            return Ok(true);
        }
    }
    Ok(false)
}

// Puts what could be made in place of the event of a line.
fn push_step(
    alloc: Global,
    words: &mut Words,
    site: &Site,
    events: &[u8],
    number: u64,
) -> Result<(), AllocError> {
    let mut replay = Replay::new(alloc, site)?;
    let line = line_at(alloc, site, &mut replay, events, number);
    let steps: &[Step] = if is_of_hand(line) {
        &OF_HANDS
    } else {
        &OF_WORKERS
    };
    if push_first(alloc, words, site, &mut replay, steps, place_of(line))? {
        return Ok(());
    }
    words.say(if is_of_hand(line) {
        "change: grab of a worker of its queue before it, since that takes no more\n"
    } else {
        "change: enter of a hand before it, since this worker has nothing to do\n"
    });
    Ok(())
}

/// Of an illegal event the words on which step could be made in its place; of anything else none.
pub fn step_words(
    alloc: Global,
    texts: &SiteTexts<'_>,
    halt: &Halt,
) -> Result<Vec<u8>, AllocError> {
    let mut words = Words::new(alloc);
    if let (Halt::Illegal(number), Some(text), Some(events)) = (
        halt,
        texts.machine_text(),
        texts.second_text(),
    ) {
        if let Some(site) = site_of(alloc, texts, text)? {
            push_step(alloc, &mut words, &site, events, *number)?;
        }
    }
    words.finish()
}
