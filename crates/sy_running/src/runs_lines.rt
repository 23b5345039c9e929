//! Which files a relay runs, and which program runs it, in lines.
ghost use Rattle.std.specs.Prelude.{◌≡◌, ◌++◌, ℕ, List, IfOk, OnOk, codes};
ghost use Rattle.sy_log.specs.Ports.{runs_line};
ghost use Rattle.sy_running.specs.Program as spec;

use hex::encode;
use std::alloc::{AllocError, Global};
use sy_commands::built::{own_end, record_lines, value_of};
use sy_commands::identity::Identity;
use sy_log::start_lines::append_runs;
use sy_report::reading::files::Files;
use sy_report::texts::parts::{Part, append_parts};

const NOT_RECORDED: &[u8] = b"not recorded";

// Appends the line that says by which program a relay runs: its commit, the sum of its sources, and whether it is proved.
fn append_program<'a>(
    text: &mut Vec<u8>,
    name: &'a [u8],
    commit: &'a [u8],
    sources: &'a [u8],
    state: &'a [u8],
) -> Result<(), AllocError>
    ensures { OnOk result (text.new.items ≡ text.old.items ++ spec.program_line name.now commit.now sources.now state.now) }
{
    let parts = [
        Part::Text(b"syc: relay "),
        Part::Name(name),
        Part::Text(b" program: commit "),
        Part::Name(commit),
        Part::Text(b", sources "),
        Part::Name(sources),
        Part::Text(b", "),
        Part::Text(state),
        Part::Text(b"\n"),
    ];
    append_parts(text, &parts)
}

// Appends the same line of a program whose file has no record.
fn append_unknown<'a>(text: &mut Vec<u8>, name: &'a [u8]) -> Result<(), AllocError>
    ensures { OnOk result (text.new.items ≡ text.old.items ++ spec.unknown_line name.now) }
{
    let parts = [
        Part::Text(b"syc: relay "),
        Part::Name(name),
        Part::Text(b" program: not recorded"),
        Part::Text(b"\n"),
    ];
    append_parts(text, &parts)
}

// What a record says by a line of this name, or that it isn't recorded.
fn value_or_not<'a>(lines: &'a [u8], name: &[u8]) -> &'a [u8] {
    match value_of(lines, name) {
        Some(value) => value,
        None => NOT_RECORDED,
    }
}

// The line of these last bytes of a program's file.
fn program_line(alloc: Global, name: &[u8], end: &[u8]) -> Result<Vec<u8>, AllocError>
    ensures { IfOk result (λ text. spec.TellsProgram name.now text.items) }
{
    let mut text = Vec::new(alloc);
    let Some(lines) = record_lines(end) else {
        append_unknown(&mut text, name)?;
        return Ok(text);
    };
    let commit = value_or_not(lines, b"commit ");
    let sources = value_or_not(lines, b"sources ");
    let state: &[u8] = match value_of(lines, b"proved") {
        Some(_) => b"proved",
        None => b"unproved",
    };
    append_program(&mut text, name, commit, sources, state)?;
    Ok(text)
}

/// The lines that say which files a relay of this name runs, by their sum and number, and by which program.
pub fn runs_lines<F: Files>(
    alloc: Global,
    files: &F,
    name: &[u8],
    identity: Identity,
) -> Result<Vec<u8>, AllocError>
    ensures { IfOk result (λ text. (sum more : List ℕ) ×
        (text.items ≡ runs_line name.now sum identity.files ++ more) × spec.TellsProgram name.now more) }
{
    let digits = encode(alloc, identity.sum.as_slice())?;
    let end = own_end(alloc, files)?;
    let program = program_line(alloc, name, end.as_slice())?;
    let mut text = Vec::new(alloc);
    append_runs(&mut text, name, digits.as_str().as_bytes(), identity.files)?;
    text.extend_from_slice(program.as_slice())?;
    Ok(text)
}
