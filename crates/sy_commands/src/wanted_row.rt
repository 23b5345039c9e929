//! What `verify --explain` prints of a certificate that is refused: which row is wanted in the first wrong line, and why.
ghost use Rattle.std.specs.Prelude.{◌≤◌};

use crate::commands::{Request, request_of};
use std::alloc::{AllocError, Global};
use sy_cert::{Certificate, Row, read_cert, write_cert};
use sy_checker::{CertFault, RowKind, certify, verify};
use sy_findings::verdicts::verdict::WrongRow;
use sy_places::site_file::site::{ReadSite, read_site};
use sy_report::command_line::command::SiteCommand;
use sy_report::command_line::options::given_words;
use sy_report::outcome::answer::stop;
use sy_report::outcome::halt::Halt;
use sy_report::outcome::stop::out_of_memory;
use sy_report::reading::files::Files;
use sy_report::texts::parts::Part;
use sy_report::texts::words::Words;
use sy_report::writing::output::send;
use sy_report::writing::outputs::Outputs;
use sy_site::Site;
use sy_site::finding::Refusal;
use sy_wire::{Class, Sink};

// What is explained: the names of the files, the certificate's text, and its first wrong line.
#[derive(Clone, Copy)]
struct Unfit<'a> {
    site: &'a str,
    name: &'a str,
    text: &'a [u8],
    wrong: WrongRow,
    // the class of the rows around that line
    class: Option<Class>,
}

// Why a row of a kind is wanted where it is.
fn reason_for(kind: RowKind) -> &'static str {
    match kind {
        RowKind::Cert => "as the site's policy has that number",
        RowKind::Class => "as each protected class has its rows, in the order of their numbers",
        RowKind::Reach => "as messages of the class come to that input",
        RowKind::Branch => "as messages of the class come to that input by way of a spare action",
        RowKind::Rank => {
            "as its number has to be above those of the relays that it forwards the class to; another one that is may be there"
        }
        RowKind::Inner => {
            "as its number has to be above those of the lists that it posts the class to; another one that is may be there"
        }
        RowKind::Path => {
            "as each message of the class has to come from that entry to that archive by what is executed in any case"
        }
    }
}

// A line of a text, by its number from 1; none where it ends before.
fn line_of(text: &[u8], number: usize) -> Option<&[u8]> {
    let mut rest = text;
    for _ in 1..number {
        let end = rest.iter().position(|byte| *byte == b'\n')?;
        rest = rest.get(end.saturating_add(1)..)?;
    }
    let end = rest.iter().position(|byte| *byte == b'\n')?;
    rest.get(..end)
}

// The class of the rows around a line: that of the last row of a class before it.
fn class_around(certificate: &Certificate, line: usize) -> Option<Class> {
    let mut found = None;
    for row in certificate.rows().iter().take(line.saturating_sub(1)) {
        if let Row::Class(class) = row {
            found = Some(*class);
        }
    }
    found
}

// Which line it is, and what is in it.
fn append_place(words: &mut Words, unfit: Unfit<'_>) {
    words.append(&[
        Part::Text(b"where: "),
        Part::Name(unfit.name.as_bytes()),
        Part::Text(b":"),
        Part::Number(unfit.wrong.line as u64),
        Part::Text(b":1: "),
    ]);
    match line_of(unfit.text, unfit.wrong.line) {
        Some(line) => words.append(&[Part::Name(line)]),
        None => words.say("the end"),
    }
    if let Some(class) = unfit.class {
        words.append(&[Part::Text(b", among the rows of "), Part::Class(class)]);
    }
    words.say("\nwhy: ");
}

// That this row is wanted, or that none is.
fn append_wanted(words: &mut Words, unfit: Unfit<'_>, made: &[u8]) {
    match line_of(made, unfit.wrong.line) {
        Some(line) => words.append(&[
            Part::Name(line),
            Part::Text(b" is wanted there, "),
            Part::Text(reason_for(unfit.wrong.row).as_bytes()),
        ]),
        None => words.say("no row is wanted there, as each protected class has its rows before it"),
    }
    words.append(&[
        Part::Text(b"\nchange: make a certificate of the site as it is: syc certify "),
        Part::Name(unfit.site.as_bytes()),
        Part::Text(b"\n"),
    ]);
}

// That no certificate is fit for the site.
fn append_refused(words: &mut Words, unfit: Unfit<'_>) {
    words.append(&[
        Part::Text(
            b"no certificate is fit for the site, which is refused\nchange: what syc check --explain ",
        ),
        Part::Name(unfit.site.as_bytes()),
        Part::Text(b" says\n"),
    ]);
}

// The lines on a certificate's first wrong line.
fn lines_on(alloc: Global, site: &Site, unfit: Unfit<'_>) -> Result<Vec<u8>, AllocError> {
    let mut words = Words::new(alloc);
    append_place(&mut words, unfit);
    match certify(alloc, site) {
        Ok(made) => append_wanted(&mut words, unfit, write_cert(alloc, &made)?.as_slice()),
        Err(Refusal::Finding(_finding)) => append_refused(&mut words, unfit),
        Err(Refusal::NoMemory) => return Err(AllocError),
    }
    words.finish()
}

// The lines on the certificate of a text; none where it is fit.
fn lines_of(
    alloc: Global,
    site: &Site,
    name: &str,
    certificate: &str,
    text: &[u8],
) -> Result<Vec<u8>, AllocError> {
    let Ok(read) = read_cert(alloc, text) else {
        return Ok(Vec::new(alloc));
    };
    match verify(alloc, site, &read) {
        Err(CertFault::Wrong { line, row }) => {
            let wrong = WrongRow { line, row };
            let class = class_around(&read, line.saturating_sub(1));
            let unfit = Unfit {
                site: name,
                name: certificate,
                text,
                wrong,
                class,
            };
            lines_on(alloc, site, unfit)
        }
        Err(CertFault::NoMemory) => Err(AllocError),
        Ok(_) => Ok(Vec::new(alloc)),
    }
}

// The same of the files of these names.
fn explained<F: Files>(
    alloc: Global,
    files: &F,
    name: &str,
    certificate: &str,
) -> Result<Vec<u8>, Halt> {
    let ReadSite { site, .. } = read_site(alloc, files, name);
    let site = site?;
    let Ok(text) = files.read_beside(certificate) else {
        return Err(Halt::ReadFailed);
    };
    match lines_of(alloc, &site, name, certificate, text.as_slice()) {
        Ok(lines) => Ok(lines),
        Err(AllocError) => Err(Halt::NoMemory),
    }
}

// Prints them, and answers the exit status: that of a refusal, where nothing fails.
fn print_explained<W: Sink, E: Sink>(lines: Result<Vec<u8>, Halt>, out: &mut Outputs<W, E>) -> u8
    ensures { result ≤ 4 }
{
    match lines {
        Ok(lines) => match send(&mut out.writer, lines.as_slice()) {
            Ok(()) => 1,
            Err(_) => stop(out, &Halt::WriteFailed),
        },
        Err(halt) => stop(out, &halt),
    }
}

/// Prints which row of a certificate is wanted, and why, where the words are of `verify --explain`, which refused it. It answers
/// the exit status: 1, where nothing fails. Standard input isn't read again.
pub fn explain_unfit<W: Sink, E: Sink, F: Files>(
    alloc: Global,
    words: &[String],
    files: &F,
    out: &mut Outputs<W, E>,
) -> u8
    ensures { result ≤ 4 }
{
    let Ok(given) = given_words(alloc, words) else {
        return out_of_memory(&mut out.errors);
    };
    match request_of(&given) {
        Some(Request::OfSite(options, SiteCommand::Verify(site, certificate))) => {
            if options.explain && !options.json && certificate != "-" {
                return print_explained(explained(alloc, files, site, certificate), out);
            }
            1
        }
        _ => 1,
    }
}
