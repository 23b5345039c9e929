//! What a verdict rests on, as a member of its document: the program that judged, and the files that were judged.
ghost use Rattle.std.specs.Prelude.{◌≡◌, ℕ, List, IfErr, IfOk};
ghost use Rattle.sy_commands.specs.Built as spec;

use crate::built::{own_end, record_lines, value_of};
use hex::encode;
use sha2::{Digest, Sha256};
use std::alloc::{AllocError, Global};
use sy_places::site_file::texts::SiteTexts;
use sy_report::outcome::answer::Answer;
use sy_report::outcome::halt::Halt;
use sy_report::reading::files::Files;
use sy_report::texts::json::append_character;
use sy_site::{SiteFault, file_names};

// Appends a text in quotes. Each longest piece of it that is no UTF-8 becomes U+FFFD.
fn append_text(alloc: Global, text: &mut Vec<u8>, bytes: &[u8]) -> Result<(), AllocError> {
    let value = String::from_utf8_lossy(alloc, bytes)?;
    text.push(b'"')?;
    for character in value.as_str().chars() {
        if character == '"' || character == '\\' {
            text.push(b'\\')?;
        }
        append_character(text, character)?;
    }
    text.extend_from_slice(b"\"")
}

// Appends a text in quotes, or null.
fn append_if_any(
    alloc: Global,
    text: &mut Vec<u8>,
    bytes: Option<&[u8]>,
) -> Result<(), AllocError> {
    match bytes {
        Some(bytes) => append_text(alloc, text, bytes),
        None => text.extend_from_slice(b"null"),
    }
}

// Appends a sum in quotes.
fn append_sum(alloc: Global, text: &mut Vec<u8>, sum: &[u8]) -> Result<(), AllocError> {
    let digits = encode(alloc, sum)?;
    append_text(alloc, text, digits.as_str().as_bytes())
}

// Appends a file's name, and the sum of what was read of it.
fn append_file(
    alloc: Global,
    text: &mut Vec<u8>,
    name: &[u8],
    bytes: &[u8],
) -> Result<(), AllocError> {
    let mut hasher = Sha256::new();
    hasher.update(bytes);
    text.extend_from_slice(b"{\"name\":")?;
    append_text(alloc, text, name)?;
    text.extend_from_slice(b",\"sha256\":")?;
    append_sum(alloc, text, hasher.finalize().as_slice())?;
    text.extend_from_slice(b"}")
}

// Appends the same of each file that a site file names, as far as they were read, behind it. It answers whether all were.
fn append_named(
    alloc: Global,
    text: &mut Vec<u8>,
    texts: &SiteTexts<'_>,
    site: &[u8],
    all: &mut Sha256,
) -> Result<bool, AllocError> {
    let names = match file_names(alloc, site) {
        Ok(names) => names,
        Err(SiteFault::NoMemory) => return Err(AllocError),
        Err(_) => return Ok(false),
    };
    let mut is_whole = true;
    for name in names.as_slice() {
        match texts.file(name.as_str()) {
            Some(file) => {
                all.update(file.text.as_slice());
                text.push(b',')?;
                append_file(alloc, text, name.as_str().as_bytes(), file.text.as_slice())?;
            }
            None => is_whole = false,
        }
    }
    Ok(is_whole)
}

// Appends the same of all files of a site. It answers the sum over all, where all were read.
fn append_site(
    alloc: Global,
    text: &mut Vec<u8>,
    texts: &SiteTexts<'_>,
) -> Result<Option<[u8; 32]>, AllocError> {
    let Some(site) = texts.text() else {
        return Ok(None);
    };
    let mut all = Sha256::new();
    all.update(site);
    append_file(alloc, text, texts.name.as_bytes(), site)?;
    let is_whole = append_named(alloc, text, texts, site, &mut all)?;
    Ok(if is_whole { Some(all.finalize()) } else { None })
}

// Appends the same of the file beside a site, where that was read.
fn append_second(
    alloc: Global,
    text: &mut Vec<u8>,
    texts: &SiteTexts<'_>,
) -> Result<(), AllocError> {
    let (Some(name), Some(bytes)) = (texts.second_name(), texts.second_text()) else {
        return Ok(());
    };
    if text.last() == Some(&b'}') {
        text.push(b',')?;
    }
    append_file(alloc, text, name.as_bytes(), bytes)
}

// Appends how the program was built: null where that isn't recorded.
fn append_program(alloc: Global, text: &mut Vec<u8>, end: &[u8]) -> Result<(), AllocError> {
    let Some(lines) = record_lines(end) else {
        return text.extend_from_slice(b"null");
    };
    text.extend_from_slice(b"{\"commit\":")?;
    append_if_any(alloc, text, value_of(lines, b"commit "))?;
    text.extend_from_slice(b",\"kit\":")?;
    append_if_any(alloc, text, value_of(lines, b"kit "))?;
    text.extend_from_slice(b",\"proved\":")?;
    let is_proved: &[u8] = match value_of(lines, b"proved") {
        Some(_) => b"true",
        None => b"false",
    };
    text.extend_from_slice(is_proved)?;
    text.extend_from_slice(b",\"sources\":")?;
    append_if_any(alloc, text, value_of(lines, b"sources "))?;
    text.extend_from_slice(b"}")
}

// What a verdict rests on, as an object: these texts, with the certificate where it is of one, and the program by the last
// bytes of its file.
fn basis_of(
    alloc: Global,
    texts: &SiteTexts<'_>,
    is_of_certificate: bool,
    end: &[u8],
) -> Result<Vec<u8>, AllocError> {
    let mut text = Vec::from_slice(alloc, b"{\"files\":[")?;
    let sum = append_site(alloc, &mut text, texts)?;
    if is_of_certificate {
        append_second(alloc, &mut text, texts)?;
    }
    text.extend_from_slice(b"],\"program\":")?;
    append_program(alloc, &mut text, end)?;
    text.extend_from_slice(b",\"sum\":")?;
    match sum {
        Some(sum) => append_sum(alloc, &mut text, sum.as_slice())?,
        None => text.extend_from_slice(b"null")?,
    }
    text.push(b'}')?;
    Ok(text)
}

// A document with this object as its first member, by its name before all others.
fn with_first(alloc: Global, basis: &[u8], document: &[u8]) -> Result<Vec<u8>, AllocError>
    ensures { IfOk result (λ text. text.items ≡ spec.with_basis basis.now document.now) }
{
    let mut text = Vec::from_slice(alloc, b"{\"basis\":")?;
    text.extend_from_slice(basis)?;
    text.extend_from_slice(b",")?;
    text.extend_from_slice(&document[document.len().min(1)..])?;
    Ok(text)
}

/// A document with what its verdict rests on as its first member: these texts, the second one alone where it is a certificate,
/// and the program.
pub fn based<F: Files>(
    alloc: Global,
    files: &F,
    texts: &SiteTexts<'_>,
    is_of_certificate: bool,
    document: &[u8],
) -> Result<Vec<u8>, AllocError>
    ensures { IfOk result (λ text. (basis : List ℕ) × (text.items ≡ spec.with_basis basis document.now)) }
{
    let end = own_end(alloc, files)?;
    let basis = basis_of(alloc, texts, is_of_certificate, end.as_slice())?;
    with_first(alloc, basis.as_slice(), document)
}

/// An answer that is a document, with the same. Its verdict is as it was.
pub fn with_basis<F: Files>(
    alloc: Global,
    files: &F,
    texts: &SiteTexts<'_>,
    answer: Answer,
) -> Result<Answer, Halt>
    ensures ok { IfOk result (λ a. a.is_accepted ≡ answer.is_accepted) }
    ensures err { IfErr result (λ halt. halt ≡ Halt.NoMemory) }
{
    match based(alloc, files, texts, true, answer.text.as_slice()) {
        Ok(text) => Ok(Answer {
            text,
            is_accepted: answer.is_accepted,
        }),
        Err(_) => Err(Halt::NoMemory),
    }
}
