//! The text of a certificate.
ghost use Rattle.std.specs.Prelude.{◌≡◌, ◌⊎◌, ◌++◌, [], ◌∷◌, ℕ, List, map, IfOk, IfErr, IfNone, IfSome, OnOk};
ghost use Rattle.std.specs.Fmt.{decimal};
ghost use Rattle.sy_cert.specs.Faults.{HasFault, IsRefused};
ghost use Rattle.sy_cert.specs.declared.row.Row.{Row as AnyRow};
ghost use Rattle.sy_cert.specs.Rows.{IsCertificate, IsVersion, further, head, line, spaced, text};

use crate::certificate::Certificate;
use crate::fault::{FaultCode, TextFault};
use crate::reading::take_line;
use crate::row::Row;
use crate::words::cut;
use itoa::Buffer;
use std::alloc::{AllocError, Global};

// A word behind another.
fn push_word(text: &mut Vec<u8>, word: &[u8]) -> Result<(), AllocError>
    ensures { OnOk result (text.new.items ≡ text.old.items ++ 32 ∷ word.now) }
{
    text.push(b' ')?;
    text.extend_from_slice(word)?;
    Ok(())
}

// A number behind another word.
fn push_number(text: &mut Vec<u8>, number: u32) -> Result<(), AllocError>
    ensures { OnOk result (text.new.items ≡ text.old.items ++ 32 ∷ decimal number) }
{
    let mut digits = Buffer::new();
    push_word(text, digits.format(number).as_bytes())?;
    Ok(())
}

fn push_numbers(text: &mut Vec<u8>, numbers: &[u8]) -> Result<(), AllocError>
    ensures { OnOk result (text.new.items ≡ text.old.items ++ further (map decimal numbers.now)) }
{
    for number in numbers {
        push_number(text, *number as u32)?;
    }
    Ok(())
}

// The words that most rows begin with: what is said, a relay's name and a number.
fn push_start(text: &mut Vec<u8>, said: &[u8], relay: &[u8], number: u32) -> Result<(), AllocError>
    ensures { OnOk result (text.new.items ≡ text.old.items ++ spaced (said.now ∷ relay.now ∷ decimal number ∷ [])) }
{
    text.extend_from_slice(said)?;
    push_word(text, relay)?;
    push_number(text, number)
}

fn push_row(text: &mut Vec<u8>, row: &Row) -> Result<(), AllocError>
    ensures { OnOk result (text.new.items ≡ text.old.items ++ line row.now) }
{
    match row {
        Row::Class(class) => {
            text.extend_from_slice(b"class")?;
            push_number(text, class.number() as u32)
        }
        Row::Reach { relay, port } => push_start(text, b"reach", relay.as_slice(), *port as u32),
        Row::Branch { relay, port } => push_start(text, b"branch", relay.as_slice(), *port as u32),
        Row::Rank { relay, rank } => push_start(text, b"rank", relay.as_slice(), *rank),
        Row::Inner {
            relay,
            list,
            number,
        } => {
            push_start(text, b"inner", relay.as_slice(), *list)?;
            push_number(text, *number)
        }
        Row::Path {
            relay,
            port,
            archive_relay,
            action,
            occurrences,
        } => {
            push_start(text, b"path", relay.as_slice(), *port as u32)?;
            push_word(text, archive_relay.as_slice())?;
            push_word(text, action.as_slice())?;
            push_numbers(text, occurrences.as_slice())
        }
    }
}

/// The text of a certificate: a line with its version, and one for each row in their order. It takes time and memory
/// linear in the text; its only refusal is where memory runs out.
pub fn write_cert(alloc: Global, certificate: &Certificate) -> Result<Vec<u8>, AllocError>
    ensures { IfOk result (λ bytes. bytes.items ≡ text certificate.now.version certificate.now.rows) }
{
    let mut bytes = Vec::new(alloc);
    bytes.extend_from_slice(b"cert")?;
    push_number(&mut bytes, certificate.version())?;
    bytes.push(b'\n')?;
    for row in certificate.rows() {
        push_row(&mut bytes, row)?;
        bytes.push(b'\n')?;
    }
    Ok(bytes)
}

// The version of which this is the first line.
fn head_version(line: &[u8]) -> Option<u32>
    ensures some { IfSome result (λ version. IsVersion version × (line.now ≡ head version)) }
    ensures none { IfNone result ((version : ℕ) → IsVersion version → line.now ≡ head version → ⊥) }
{
    if line == b"cert 1".as_slice() {
        return Some(1);
    }
    if line == b"cert 2".as_slice() {
        return Some(2);
    }
    None
}

/// The certificate that a text is. Refuses the first faulty line with its number, counted from 1; of several faults in
/// that line `Line` comes first, `Number` second and `Order` last. It takes time and memory linear in the text.
pub fn read_cert(alloc: Global, bytes: &[u8]) -> Result<Certificate, TextFault>
    ensures ok { IfOk result (λ c. bytes.now ≡ text c.version c.rows) }
    ensures err { IfErr result (λ f. (f.code ≡ FaultCode.NoMemory) × IsRefused bytes.now f.line
        ⊎ HasFault bytes.now f.code f.line) }
    // The text of a certificate is read as it, and refused only where memory runs out.
    ensures same { IfOk result (λ c. (version : ℕ) (rows : List AnyRow) → IsCertificate version rows
        → bytes.now ≡ text version rows → (c.version ≡ version) × (c.rows ≡ rows)) }
    ensures memory { IfErr result (λ f. (version : ℕ) (rows : List AnyRow) → IsCertificate version rows
        → bytes.now ≡ text version rows → f.code ≡ FaultCode.NoMemory) }
{
    let (first, lines) = match cut(bytes, b'\n') {
        Some(parts) => parts,
        None => return Err(TextFault {
            code: FaultCode::Line,
            line: 1,
        }),
    };
    let version = match head_version(first) {
        Some(version) => version,
        None => return Err(TextFault {
            code: FaultCode::Line,
            line: 1,
        }),
    };
    let mut certificate = Certificate::new(alloc, version);
    let mut rest = lines;
    while !rest.is_empty() {
        let line = certificate.rows().len() + 2;
        match cut(rest, b'\n') {
            Some((text, after)) => match take_line(alloc, &mut certificate, text) {
                Ok(()) => rest = after,
                Err(code) => return Err(TextFault { code, line }),
            },
            None => return Err(TextFault {
                code: FaultCode::Line,
                line,
            }),
        }
    }
    Ok(certificate)
}
