//! The commands on files that a relay wrote: its archives' lines, and frames that carry no message.

use crate::unread::{is_unread, unread};
use crate::usage::refusal;
use crate::wrong_words::refuse;
use std::alloc::Global;
use std::fs::File;
use sy_escapes::{Line, read_message};
use sy_report::command_line::command::{is_plain, is_word};
use sy_report::command_line::options::all_words;
use sy_report::outcome::report::{report_text, report_texts};
use sy_report::outcome::stop::{out_of_memory, write_failed};
use sy_report::texts::parts::{Part, append_parts};
use sy_report::writing::output::send;
use sy_report::writing::outputs::Outputs;
use sy_wire::{FromRead, MAX_FRAME, Message, MsgFault, Sink, Source};

/// How many bytes are read at once.
const PIECE: usize = 16_384;

/// The longest line: each byte of a message is four there.
const MOST: usize = 4 * MAX_FRAME;

/// So many lines that are left are told one by one.
const TOLD: u64 = 10;

// Why a command ends before the end of the file.
#[derive(Clone, Copy)]
enum Halt {
    Read,
    NoMemory,
    Write,
}

// Why a line is left.
#[derive(Clone, Copy)]
enum Left {
    NoLine,
    NoMessage(MsgFault),
    TooLong,
    NoEnd,
}

impl Left {
    fn words(self) -> &'static str {
        match self {
            Left::NoLine => " was written without escapeControlCharacters",
            Left::NoMessage(_) => " is no message: ",
            Left::TooLong => " is longer than that of any message",
            Left::NoEnd => " has no end",
        }
    }

    // What is wrong with it as a message.
    fn fault(self) -> &'static str {
        match self {
            Left::NoMessage(fault) => fault.code.words(),
            _ => "",
        }
    }
}

// A file of lines, as far as it is read.
#[derive(Drop)]
struct Archive {
    alloc: Global,
    // bytes that are read, and not yet given back
    held: Vec<u8>,
    // whether the line that is under way is too long, and its beginning was let go
    is_long: bool,
    lines: u64,
    left: u64,
    frame: Vec<u8>,
}

// Whether the words, those after the program's name, begin with that command.
fn is_lines(args: &[String]) -> bool {
    match args.first() {
        Some(word) => is_word(word.as_str(), "lines"),
        None => false,
    }
}

// The bytes before the first line feed, and those after it.
fn cut_line(bytes: &[u8]) -> (&[u8], Option<&[u8]>) {
    for at in 0..bytes.len() {
        if bytes[at] == b'\n' {
            return (&bytes[..at], Some(&bytes[at + 1..]));
        }
    }
    (bytes, None)
}

impl Archive {
    fn new(alloc: Global) -> Archive {
        Archive {
            alloc,
            held: Vec::new(alloc),
            is_long: false,
            lines: 0,
            left: 0,
            frame: Vec::new(alloc),
        }
    }

    // Holds more bytes of the line that is under way. Of one that is longer than any message's nothing is held.
    fn hold(&mut self, bytes: &[u8]) -> Result<(), Halt> {
        if self.is_long {
            return Ok(());
        }
        let Ok(()) = self.held.extend_from_slice(bytes) else {
            return Err(Halt::NoMemory);
        };
        if self.held.len() > MOST {
            self.is_long = true;
            self.held.clear();
        }
        Ok(())
    }

    // Tells that a line is left.
    fn leave<E: Sink>(&mut self, errors: &mut E, why: Left) -> Result<(), Halt> {
        self.left = self.left.saturating_add(1);
        if self.left > TOLD {
            return Ok(());
        }
        let mut text = Vec::new(self.alloc);
        let parts = [
            Part::Text(b"syc: line "),
            Part::Number(self.lines),
            Part::Text(why.words().as_bytes()),
            Part::Text(why.fault().as_bytes()),
            Part::Text(b"\n"),
        ];
        if append_parts(&mut text, &parts).is_err() {
            return Err(Halt::NoMemory);
        }
        report_texts(errors, &[text.as_slice()]);
        Ok(())
    }

    // Writes the frame of a message.
    fn give<W: Sink>(&mut self, writer: &mut W, message: &Message) -> Result<(), Halt> {
        self.frame.clear();
        let raw = message.raw();
        let parts = [
            Part::Number(raw.len() as u64),
            Part::Text(b" "),
            Part::Text(raw),
        ];
        if append_parts(&mut self.frame, &parts).is_err() {
            return Err(Halt::NoMemory);
        }
        match send(writer, self.frame.as_slice()) {
            Ok(()) => Ok(()),
            Err(_) => Err(Halt::Write),
        }
    }

    // Gives the message of the line that is held.
    fn end_line<W: Sink, E: Sink>(&mut self, out: &mut Outputs<W, E>) -> Result<(), Halt> {
        self.lines = self.lines.saturating_add(1);
        if self.is_long {
            self.is_long = false;
            return self.leave(&mut out.errors, Left::TooLong);
        }
        let Ok(line) = read_message(self.alloc, self.held.as_slice()) else {
            return Err(Halt::NoMemory);
        };
        self.held.clear();
        match line {
            Line::Message(message) if message.raw().len() <= MAX_FRAME => {
                self.give(&mut out.writer, &message)
            }
            Line::Message(_) => self.leave(&mut out.errors, Left::TooLong),
            Line::NoMessage(fault) => self.leave(&mut out.errors, Left::NoMessage(fault)),
            Line::NoLine => self.leave(&mut out.errors, Left::NoLine),
        }
    }

    // Gives the messages of the lines that end in these bytes.
    fn take<W: Sink, E: Sink>(
        &mut self,
        bytes: &[u8],
        out: &mut Outputs<W, E>,
    ) -> Result<(), Halt> {
        let mut rest = bytes;
        for _ in 0..u64::MAX {
            let (line, later) = cut_line(rest);
            self.hold(line)?;
            let Some(later) = later else {
                return Ok(());
            };
            self.end_line(out)?;
            rest = later;
        }
        Ok(())
    }

    // Gives the messages of all lines.
    fn take_all<R: Source, W: Sink, E: Sink>(
        &mut self,
        source: &mut R,
        out: &mut Outputs<W, E>,
    ) -> Result<(), Halt> {
        let mut piece = [0u8; PIECE];
        for _ in 0..u64::MAX {
            match source.read(&mut piece) {
                Ok(0) => break,
                Ok(count) => self.take(&piece[..count], out)?,
                Err(_) => return Err(Halt::Read),
            }
        }
        if self.is_long || !self.held.is_empty() {
            self.lines = self.lines.saturating_add(1);
            return self.leave(&mut out.errors, Left::NoEnd);
        }
        Ok(())
    }

    // Tells how many lines were left, where more were than are told of one by one.
    fn report_left<E: Sink>(&self, errors: &mut E) -> Result<(), Halt> {
        if self.left <= TOLD {
            return Ok(());
        }
        let mut text = Vec::new(self.alloc);
        let parts = [
            Part::Text(b"syc: "),
            Part::Number(self.left),
            Part::Text(b" lines were left in all\n"),
        ];
        if append_parts(&mut text, &parts).is_err() {
            return Err(Halt::NoMemory);
        }
        report_texts(errors, &[text.as_slice()]);
        Ok(())
    }
}

// Tells why the file isn't read to its end, and answers the exit status.
fn halted<E: Sink>(errors: &mut E, halt: Halt) -> u8 {
    match halt {
        Halt::Read => {
            report_text(errors, "read failed");
            4
        }
        Halt::NoMemory => out_of_memory(errors),
        Halt::Write => write_failed(errors),
    }
}

// The file that the words name, the program's name being the first of them.
fn file_of<'a>(words: &[&'a str]) -> Option<&'a str> {
    match words {
        [_, _, file] if is_plain(file) => Some(*file),
        _ => None,
    }
}

// Writes the messages of an archive whose action says `escapeControlCharacters="on"` to standard output, as frames. It answers the exit
// status: 0 done, 1 where a line was left, 2 for faulty words, 3 where memory runs out, and 4 where a read or a write failed.
fn lines<W: Sink, E: Sink>(rt: &HostRuntime, args: &[String], out: &mut Outputs<W, E>) -> u8 {
    let alloc = rt.alloc();
    let Ok(words) = all_words(alloc, args) else {
        return out_of_memory(&mut out.errors);
    };
    let Some(name) = file_of(words.as_slice()) else {
        return refuse(alloc, out, &refusal(alloc, words.as_slice()));
    };
    let Ok(file) = File::open(rt, name) else {
        report_text(&mut out.errors, "read failed");
        return 4;
    };
    let mut archive = Archive::new(alloc);
    let taken = archive.take_all(&mut FromRead::new(file), out);
    if out.writer.flush().is_err() {
        return write_failed(&mut out.errors);
    }
    let told = archive.report_left(&mut out.errors);
    match (taken, told) {
        (Err(halt), _) => halted(&mut out.errors, halt),
        (Ok(()), Err(halt)) => halted(&mut out.errors, halt),
        (Ok(()), Ok(())) => u8::from(archive.left > 0),
    }
}

/// Does what the words ask of a file that a relay wrote, where they do, and answers the exit status.
pub fn read_back<W: Sink, E: Sink>(
    rt: &HostRuntime,
    words: &[String],
    out: &mut Outputs<W, E>,
) -> Option<u8> {
    if is_unread(words) {
        return Some(unread(rt, words, out));
    }
    if is_lines(words) {
        return Some(lines(rt, words, out));
    }
    None
}
