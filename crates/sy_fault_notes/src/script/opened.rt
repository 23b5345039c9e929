//! What is open at a place of a script: the innermost parenthesis or brace.

use sy_places::site_file::source::{behind, between};

/// What may be open: the parameters of an object, another parenthesis, or a brace.
#[derive(Clone, Copy, PartialEq, Eq)]
pub enum Opening {
    Parameters,
    Parenthesis,
    Brace,
}

/// What is open, where it was opened, and the last byte before the place that is no blank and no comment, where it
/// isn't that opening itself.
#[derive(Clone, Copy)]
pub struct Open {
    pub opening: Opening,
    pub place: usize,
    pub before: Option<u8>,
    // where the last word before it begins, and ends
    word: (usize, usize),
}

impl Open {
    /// The last word before the place.
    pub fn name<'t>(&self, text: &'t [u8]) -> &'t [u8] {
        let (start, end) = self.word;
        between(text, start, end)
    }
}

/// How deep what is open is kept.
const DEPTH: usize = 64;

/// A scan of a script from its beginning.
#[derive(Clone, Copy)]
struct Scan {
    open: [Option<(Opening, usize)>; 64],
    depth: usize,
    before: Option<u8>,
    word: (usize, usize),
}

/// Whether a byte is one of words.
pub fn is_word_byte(byte: u8) -> bool {
    byte.is_ascii_alphanumeric() || byte == b'_' || byte == b'.' || byte == b'-'
}

/// How many bytes a comment or a string at a place has, where one begins there.
pub fn skipped(rest: &[u8]) -> usize {
    match rest {
        [b'#', ..] => up_to(rest, b"\n"),
        [b'/', b'*', ..] => up_to(rest, b"*/").saturating_add(1),
        [b'"', ..] => string(rest, b'"'),
        [b'\'', ..] => string(rest, b'\''),
        _ => 0,
    }
}

// How many bytes there are up to some others, with the first of those.
fn up_to(rest: &[u8], end: &[u8]) -> usize {
    for place in 0..rest.len() {
        if behind(rest, place).starts_with(end) {
            return place.saturating_add(1);
        }
    }
    rest.len()
}

// How many bytes a string has, with its quotes.
fn string(rest: &[u8], quote: u8) -> usize {
    let mut is_escaped = false;
    let mut place: usize = 0;
    for byte in rest {
        if place > 0 && !is_escaped && *byte == quote {
            return place.saturating_add(1);
        }
        is_escaped = *byte == b'\\' && !is_escaped;
        place = place.saturating_add(1);
    }
    rest.len()
}

// Whether a word is that of an object.
fn is_object(word: &[u8]) -> bool {
    word.eq_ignore_ascii_case(b"module")
        || word.eq_ignore_ascii_case(b"global")
        || word.eq_ignore_ascii_case(b"main_queue")
        || word.eq_ignore_ascii_case(b"input")
        || word.eq_ignore_ascii_case(b"ruleset")
        || word.eq_ignore_ascii_case(b"action")
}

fn push_opening(scan: &mut Scan, opening: Opening, place: usize) {
    if let Some(found) = scan.open.get_mut(scan.depth) {
        *found = Some((opening, place));
    }
    if scan.depth < DEPTH {
        scan.depth += 1;
    }
    scan.before = None;
}

fn close(scan: &mut Scan, byte: u8) {
    scan.depth = scan.depth.saturating_sub(1);
    scan.before = Some(byte);
}

// Takes a byte that is in no comment and no string.
fn take(scan: &mut Scan, text: &[u8], place: usize, byte: u8) {
    let (start, end) = scan.word;
    match byte {
        b'(' if is_object(between(text, start, end)) => push_opening(
            scan,
            Opening::Parameters,
            place,
        ),
        b'(' => push_opening(scan, Opening::Parenthesis, place),
        b'{' => push_opening(scan, Opening::Brace, place),
        b')' | b'}' => close(scan, byte),
        b' ' | b'\t' | b'\r' | b'\n' => {}
        _ => {
            if is_word_byte(byte) {
                let after = place.saturating_add(1);
                scan.word = if end == place {
                    (start, after)
                } else {
                    (place, after)
                };
            }
            scan.before = Some(byte);
        }
    }
}

/// What is open at a place of a script, where something is.
pub fn open_at(text: &[u8], place: usize) -> Option<Open> {
    let mut scan = Scan {
        open: [None; 64],
        depth: 0,
        before: None,
        word: (0, 0),
    };
    let mut next: usize = 0;
    for at in 0..place.min(text.len()) {
        if at >= next {
            let rest = behind(text, at);
            let count = skipped(rest);
            next = at.saturating_add(count);
            match rest.first() {
                Some(byte @ (b'"' | b'\'')) => scan.before = Some(*byte),
                Some(byte) if count == 0 => take(&mut scan, text, at, *byte),
                _ => {}
            }
        }
    }
    match scan.open.get(scan.depth.checked_sub(1)?) {
        Some(Some((opening, place))) => Some(Open {
            opening: *opening,
            place: *place,
            before: scan.before,
            word: scan.word,
        }),
        _ => None,
    }
}
