//! The command that says what a file of frames without a message has, and repairs them.

use crate::usage::refusal;
use crate::wrong_words::refuse;
use std::alloc::Global;
use std::fs::File;
use sy_report::command_line::command::{is_plain, is_word};
use sy_report::command_line::options::all_words;
use sy_report::outcome::report::{report_text, report_texts};
use sy_report::outcome::stop::{out_of_memory, write_failed};
use sy_report::texts::parts::{Part, append_parts};
use sy_report::writing::output::send;
use sy_report::writing::outputs::Outputs;
use sy_unread::records::{FileFault, Records};
use sy_unread::repair::repair;
use sy_unread::summary::Summary;
use sy_wire::{FromRead, Sink, Source};

// What the words of that command say.
#[derive(Clone, Copy)]
struct UnreadWords<'a> {
    file: &'a str,
    repairs: bool,
}

// What the words say, the program's name being the first of them, where they are those of that command.
fn unread_words<'a>(words: &[&'a str]) -> Option<UnreadWords<'a>> {
    let (file, repairs) = match words {
        [_, _, file] => (*file, false),
        [_, _, option, file] if is_word(option, "--repair") => (*file, true),
        [_, _, file, option] if is_word(option, "--repair") => (*file, true),
        _ => return None,
    };
    if is_plain(file) {
        Some(UnreadWords { file, repairs })
    } else {
        None
    }
}

/// Whether the words, those after the program's name, begin with that command.
pub fn is_unread(args: &[String]) -> bool {
    match args.first() {
        Some(word) => is_word(word.as_str(), "unread"),
        None => false,
    }
}

// How many frames were written as messages, and how many weren't.
#[derive(Clone, Copy)]
struct Repairs {
    made: u64,
    left: u64,
}

// Why a command ends before the end of the file.
#[derive(Clone, Copy)]
enum Halt {
    File(FileFault),
    NoMemory,
    Write,
}

// Counts all frames of the file.
fn summarize<R: Source>(
    alloc: Global,
    records: &mut Records,
    source: &mut R,
    summary: &mut Summary,
) -> Result<(), Halt> {
    for _ in 0..u64::MAX {
        match records.next(source) {
            Ok(Some(kept)) => {
                let Ok(()) = summary.add(alloc, &kept.found, kept.bytes.as_slice()) else {
                    return Err(Halt::NoMemory);
                };
            }
            Ok(None) => return Ok(()),
            Err(fault) => return Err(Halt::File(fault)),
        }
    }
    Ok(())
}

// Writes those frames as messages of which a repair makes one.
fn repair_all<R: Source, W: Sink>(
    alloc: Global,
    records: &mut Records,
    source: &mut R,
    writer: &mut W,
    repairs: &mut Repairs,
) -> Result<(), Halt> {
    let mut text = Vec::new(alloc);
    for _ in 0..u64::MAX {
        let kept = match records.next(source) {
            Ok(Some(kept)) => kept,
            Ok(None) => return Ok(()),
            Err(fault) => return Err(Halt::File(fault)),
        };
        match repair(alloc, kept.bytes.as_slice()) {
            Ok(Some(repaired)) => {
                text.clear();
                let Ok(()) = repaired.append_frame(&mut text) else {
                    return Err(Halt::NoMemory);
                };
                let Ok(()) = send(writer, text.as_slice()) else {
                    return Err(Halt::Write);
                };
                repairs.made = repairs.made.saturating_add(1);
            }
            Ok(None) => repairs.left = repairs.left.saturating_add(1),
            Err(_) => return Err(Halt::NoMemory),
        }
    }
    Ok(())
}

// Tells so many of something on standard error.
fn report_count<E: Sink>(alloc: Global, errors: &mut E, number: u64, words: &str) {
    let mut text = Vec::new(alloc);
    let parts = [
        Part::Text(b"syc: "),
        Part::Number(number),
        Part::Text(words.as_bytes()),
        Part::Text(b"\n"),
    ];
    if append_parts(&mut text, &parts).is_ok() {
        report_texts(errors, &[text.as_slice()]);
    }
}

// Tells why the file isn't read to its end, and answers the exit status.
fn halted<E: Sink>(errors: &mut E, halt: Halt) -> u8 {
    match halt {
        Halt::File(FileFault::Frame(fault)) => {
            report_texts(
                errors,
                &[b"syc: ", fault.words().as_bytes(), b" in the file\n"],
            );
            2
        }
        Halt::File(FileFault::ReadFailed) => {
            report_text(errors, "read failed");
            4
        }
        Halt::File(FileFault::NoMemory) | Halt::NoMemory => out_of_memory(errors),
        Halt::Write => write_failed(errors),
    }
}

// Tells what of the file is no record, and answers whether anything is.
fn report_others<E: Sink>(alloc: Global, errors: &mut E, records: &Records) -> bool {
    if records.others() > 0 {
        report_count(
            alloc,
            errors,
            records.others(),
            " frames of the file are no record",
        );
    }
    if records.lone() > 0 {
        report_count(
            alloc,
            errors,
            records.lone(),
            " records lack their other part",
        );
    }
    records.others() > 0 || records.lone() > 0
}

// Prints what the file has.
fn list<R: Source, W: Sink, E: Sink>(alloc: Global, source: &mut R, out: &mut Outputs<W, E>) -> u8 {
    let (mut records, mut summary) = (Records::new(alloc), Summary::new(alloc));
    let read = summarize(alloc, &mut records, source, &mut summary);
    let Ok(lines) = summary.lines(alloc) else {
        return out_of_memory(&mut out.errors);
    };
    if send(&mut out.writer, lines.as_slice()).is_err() {
        return write_failed(&mut out.errors);
    }
    let has_others = report_others(alloc, &mut out.errors, &records);
    match read {
        Err(halt) => halted(&mut out.errors, halt),
        Ok(()) => u8::from(has_others),
    }
}

// Writes what becomes messages by repairs, and tells how many did.
fn repair_file<R: Source, W: Sink, E: Sink>(
    alloc: Global,
    source: &mut R,
    out: &mut Outputs<W, E>,
) -> u8 {
    let mut records = Records::new(alloc);
    let mut repairs = Repairs { made: 0, left: 0 };
    let read = repair_all(alloc, &mut records, source, &mut out.writer, &mut repairs);
    report_count(
        alloc,
        &mut out.errors,
        repairs.made,
        " frames are messages now",
    );
    if repairs.left > 0 {
        report_count(alloc, &mut out.errors, repairs.left, " frames were left");
    }
    let has_others = report_others(alloc, &mut out.errors, &records);
    match read {
        Err(halt) => halted(&mut out.errors, halt),
        Ok(()) => u8::from(has_others || repairs.left > 0),
    }
}

/// Says what a file that `run --unread` wrote has, or writes what becomes messages by repairs, as frames, on standard output. The file isn't changed.
/// It answers the exit status: 0 done, 1 where something is left or is no record, 2 for a file that isn't one of frames or for faulty words, 3
/// where memory runs out, and 4 where a read or write failed.
pub fn unread<W: Sink, E: Sink>(rt: &HostRuntime, args: &[String], out: &mut Outputs<W, E>) -> u8 {
    let alloc = rt.alloc();
    let Ok(words) = all_words(alloc, args) else {
        return out_of_memory(&mut out.errors);
    };
    let Some(found) = unread_words(words.as_slice()) else {
        return refuse(alloc, out, &refusal(alloc, words.as_slice()));
    };
    let Ok(file) = File::open(rt, found.file) else {
        report_text(&mut out.errors, "read failed");
        return 4;
    };
    let mut source = FromRead::new(file);
    if found.repairs {
        repair_file(alloc, &mut source, out)
    } else {
        list(alloc, &mut source, out)
    }
}
