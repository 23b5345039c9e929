//! The relay's configuration so far.
ghost use Rattle.std.specs.Prelude.{◌≡◌, ◌++◌, OnOk};

use crate::fates::Why;
use crate::names::Names;
use crate::source::Source;
use itoa::Buffer;
use std::alloc::{AllocError, Global};
use std::mem;
use sy_fleet::params::Span;
use sy_fleet_text::scan::part;

/// A test whose statement comes next: what it is there, and where it begins in the configuration.
#[derive(Drop)]
pub(crate) struct Pending {
    pub text: Vec<u8>,
    pub start: Option<usize>,
}

/// What is written so far, and what holds for what comes next.
#[derive(Drop)]
pub(crate) struct Draft {
    pub alloc: Global,
    pub text: Vec<u8>,
    /// What is written behind all else: the inputs of directives within a ruleset.
    pub tail: Vec<u8>,
    pub pending: Pending,
    /// The test of the last filter of the older syntax; nothing where it is left out.
    pub filter: Option<Vec<u8>>,
    /// The names of the actions.
    pub names: Names,
    /// The first of the inputs that are still to come.
    pub next_input: usize,
    /// What a directive said of the next action's retries.
    pub retries: Option<Span>,
    /// Whether a directive began a ruleset.
    pub is_in_ruleset: bool,
    /// Whether the inputs are encrypted.
    pub is_secret: bool,
    /// Why the last statement is left out, where nothing has come behind it.
    last: Option<Why>,
}

impl Draft {
    pub fn new(alloc: Global) -> Draft {
        Draft {
            alloc,
            text: Vec::new(alloc),
            tail: Vec::new(alloc),
            pending: Pending {
                text: Vec::new(alloc),
                start: None,
            },
            filter: None,
            names: Names::new(alloc),
            next_input: 0,
            retries: None,
            is_in_ruleset: false,
            is_secret: false,
            last: None,
        }
    }

    /// Whether a test waits for its statement.
    pub fn is_pending(&self) -> bool {
        self.pending.start.is_some()
    }

    /// Puts a test before the next statement.
    pub fn push_pending(&mut self, start: usize, text: &[u8]) -> Result<(), AllocError> {
        if self.pending.start.is_none() {
            self.pending.start = Some(start);
        }
        self.pending.text.extend_from_slice(text)
    }

    // Forgets the tests that wait.
    fn take_pending(&mut self) -> Pending
        ensures pending { result ≡ self.old.pending }
        ensures text { self.new.text ≡ self.old.text }
    {
        mem::replace(
            &mut self.pending,
            Pending {
                text: Vec::new(self.alloc),
                start: None,
            },
        )
    }

    /// Writes a statement behind the tests that wait for it.
    pub fn push(&mut self, text: &[u8]) -> Result<(), AllocError>
        ensures { OnOk result (self.new.text.items ≡ (self.old.text.items ++ self.old.pending.text.items) ++ text.now) }
    {
        let pending = self.take_pending();
        self.last = None;
        self.text.extend_from_slice(pending.text.as_slice())?;
        self.text.extend_from_slice(text)
    }

    /// Writes blanks as they are. A line that a comment has ended isn't ended again.
    pub fn push_blank(&mut self, blank: &[u8]) -> Result<(), AllocError> {
        if self.is_pending() {
            return Ok(());
        }
        if !self.text.is_empty() && !self.text.as_slice().ends_with(b"\n") {
            return self.text.extend_from_slice(blank);
        }
        match blank.iter().position(|byte| *byte == b'\n') {
            Some(end) => {
                let rest = part(blank, end + 1, blank.len());
                if rest.contains(&b'\n') {
                    self.last = None;
                }
                self.text.extend_from_slice(rest)
            }
            None => Ok(()),
        }
    }

    // The blanks that the last line begins with, where it has nothing else; otherwise it is ended.
    fn begin_line(&mut self) -> Result<Vec<u8>, AllocError> {
        let mut start = self.text.len();
        for byte in self.text.as_slice().iter().rev() {
            if *byte == b'\n' {
                break;
            }
            if *byte != b' ' && *byte != b'\t' {
                self.text.push(b'\n')?;
                return Ok(Vec::new(self.alloc));
            }
            start = start.saturating_sub(1);
        }
        let blanks = Vec::from_slice(
            self.alloc,
            part(self.text.as_slice(), start, self.text.len()),
        )?;
        self.text.truncate(start);
        Ok(blanks)
    }

    /// Writes a comment as it stands.
    pub fn push_comment(&mut self, comment: &[u8]) -> Result<(), AllocError> {
        self.last = None;
        self.text.extend_from_slice(comment)?;
        if self.is_pending() && comment.starts_with(b"#") {
            self.text.push(b'\n')?;
        }
        Ok(())
    }

    // Writes a comment of some words in a line.
    fn push_line(&mut self, blanks: &[u8], words: &[&[u8]]) -> Result<(), AllocError> {
        self.text.extend_from_slice(blanks)?;
        self.text.extend_from_slice(b"# ")?;
        for word in words {
            self.text.extend_from_slice(word)?;
        }
        self.text.push(b'\n')?;
        Ok(())
    }

    /// Writes which parameters of a statement are left out, in a comment.
    pub fn without(&mut self, of: &[u8], names: &[&[u8]]) -> Result<(), AllocError> {
        if names.is_empty() {
            return Ok(());
        }
        let mut list = Vec::new(self.alloc);
        for at in 0..names.len() {
            if at > 0 {
                list.extend_from_slice(b", ")?;
            }
            list.extend_from_slice(names[at])?;
        }
        let blanks = self.begin_line()?;
        self.push_line(
            blanks.as_slice(),
            &[b"left out of ", of, b": ", list.as_slice()],
        )?;
        self.text.extend_from_slice(blanks.as_slice())
    }

    // Writes why something is left out, and it as comments.
    fn push_left(&mut self, why: Why, text: &[u8]) -> Result<(), AllocError> {
        let blanks = self.begin_line()?;
        let blanks = blanks.as_slice();
        if self.last != Some(why) {
            let begin: &[u8] = if why.is_loss() {
                b"left out: "
            } else {
                b"left out, no message is lost by it: "
            };
            self.push_line(blanks, &[begin, why.words()])?;
        }
        for line in text.split(|byte| *byte == b'\n') {
            self.push_line(blanks, &[line.strip_suffix(b"\r").unwrap_or(line)])?;
        }
        self.last = Some(why);
        Ok(())
    }

    /// Leaves out the statements from one up to another, with the tests that wait for them; where `else` comes next these stay.
    pub fn leave(
        &mut self,
        source: Source<'_>,
        first: usize,
        end: usize,
        why: Why,
    ) -> Result<(), AllocError> {
        let start = source.start(first);
        let stop = source.end_before(end);
        if self.is_pending() && source.is_else(end) {
            self.push_left(why, part(source.text, start, stop))?;
            return self.push(b"{ }\n");
        }
        let pending = self.take_pending();
        self.push_left(why, part(source.text, pending.start.unwrap_or(start), stop))
    }
}

/// Puts a number in decimal digits behind a text.
pub(crate) fn append_number(out: &mut Vec<u8>, number: u64) -> Result<(), AllocError> {
    let mut digits = Buffer::new();
    out.extend_from_slice(digits.format(number).as_bytes())
}
