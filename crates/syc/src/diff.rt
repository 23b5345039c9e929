//! The command that says whether a site is worse than the one before: its words.
ghost use Rattle.std.specs.Prelude.{◌≤◌, Decides, codes, map, string_bytes};
ghost use Rattle.syc.specs.Words.{BeginWith};

use crate::taking::is_first;
use crate::usage::refusal;
use crate::wrong_words::refuse;
use std::alloc::{AllocError, Global};
use sy_diff::comparison::Rename;
use sy_diff::diff::{Form, Wanted, diff};
use sy_report::command_line::command::{is_plain, is_word};
use sy_report::command_line::options::all_words;
use sy_report::outcome::stop::out_of_memory;
use sy_report::reading::files::Files;
use sy_report::writing::outputs::Outputs;
use sy_wire::Sink;

// What the words say: the two names, and the relays that got other names.
#[derive(Drop)]
struct Words<'a> {
    names: Vec<&'a str>,
    renames: Vec<Rename<'a>>,
    form: Form,
}

/// Whether the words, those after the program's name, begin with that command.
pub fn is_diff(args: &[String]) -> bool
    ensures { Decides result (BeginWith (codes "diff") (map string_bytes args.now)) }
{
    is_first(args, "diff")
}

/// The names of a relay before and after, as `OLD=NEW`.
pub(crate) fn rename_of(word: &str) -> Option<Rename<'_>> {
    let (before, after) = word.split_once('=')?;
    if before.is_empty() || after.is_empty() {
        return None;
    }
    Some(Rename {
        before: before.as_bytes(),
        after: after.as_bytes(),
    })
}

// The form that is asked for: a document has no words on findings.
fn form_of(is_explained: bool, is_json: bool) -> Form {
    if is_json {
        return Form::Document;
    }
    if is_explained {
        return Form::Explained;
    }
    Form::Lines
}

// What the words behind that of the command say; nothing where they are faulty.
fn words_of<'a>(alloc: Global, args: &[&'a str]) -> Result<Option<Words<'a>>, AllocError> {
    let mut names = Vec::new(alloc);
    let mut renames = Vec::new(alloc);
    let mut is_rename = false;
    let mut is_explained = false;
    let mut is_json = false;
    for word in args {
        if is_rename {
            let Some(rename) = rename_of(word) else {
                return Ok(None);
            };
            renames.push(rename)?;
            is_rename = false;
        } else if is_word(word, "--rename") {
            is_rename = true;
        } else if is_word(word, "--explain") && !is_explained {
            is_explained = true;
        } else if is_word(word, "--json") && !is_json {
            is_json = true;
        } else if is_plain(word) {
            names.push(*word)?;
        } else {
            return Ok(None);
        }
    }
    if is_rename || names.len() != 2 {
        return Ok(None);
    }
    Ok(Some(Words {
        names,
        renames,
        form: form_of(is_explained, is_json),
    }))
}

/// Compares the sites of the two site files that the words name, and answers the exit status: 0 no worse, 1 worse, 2 a faulty file or
/// faulty words, 3 out of memory, 4 a read or a write failed.
pub fn diff_of_words<W: Sink, E: Sink, F: Files>(
    alloc: Global,
    args: &[String],
    files: &F,
    out: &mut Outputs<W, E>,
) -> u8
    ensures { result ≤ 4 }
{
    let Ok(all) = all_words(alloc, args) else {
        return out_of_memory(&mut out.errors);
    };
    // (the program's name and that of the command stand before them)
    let behind = all.as_slice().get(2..).unwrap_or(&[]);
    let Ok(words) = words_of(alloc, behind) else {
        return out_of_memory(&mut out.errors);
    };
    match words {
        Some(
            Words {
                names,
                renames,
                form,
            },
        ) => {
            let (Some(old), Some(new)) = (names.first(), names.get(1)) else {
                return refuse(alloc, out, &refusal(alloc, all.as_slice()));
            };
            let wanted = Wanted {
                old: *old,
                new: *new,
                renames: renames.as_slice(),
                form,
            };
            diff(alloc, files, wanted, out)
        }
        None => refuse(alloc, out, &refusal(alloc, all.as_slice())),
    }
}
