//! The option that says in which folder files are looked for.
ghost use Rattle.std.specs.Prelude.{◌≡◌, ◌<◌, ◌∷◌, [], ℕ, List, Decides, IfErr, IfNone, IfSome, OnOk, length, map, string_bytes};
ghost use Rattle.syc.specs.Words.{without_folder};
ghost use Rattle.syc.specs.internal.Folders.{BeginWithFolder};

use crate::taking::is_first;
use std::env::Env;
use sy_report::outcome::report::report_texts;
use sy_wire::Sink;

// Takes the first word out of the words.
fn take_first(words: &mut Vec<String>) -> Option<String>
    ensures some { IfSome result (λ first. words.old.items ≡ first ∷ words.new.items) }
    ensures none { IfNone result (words.old.items ≡ []) }
{
    if words.is_empty() {
        return None;
    }
    Some(words.remove(0))
}

// Whether words begin with `-C` and a folder before others.
fn has_folder(words: &[String]) -> bool
    ensures { Decides result (BeginWithFolder (map string_bytes words.now)) }
{
    if words.len() < 3 {
        return false;
    }
    is_first(words, "-C")
}

// Takes the first two words out of the words, and answers the second.
fn take_folder(words: &mut Vec<String>) -> Option<String>
    ensures some { IfSome result (λ folder. (option : List ℕ)
        × (map string_bytes words.old.items ≡ option ∷ string_bytes folder ∷ map string_bytes words.new.items)) }
    ensures none { IfNone result (length words.old.items < 2) }
{
    let Some(first) = take_first(words) else {
        return None;
    };
    drop(first);
    take_first(words)
}

/// Goes to the folder of `-C FOLDER`, where these are the first words, which it takes out. It answers the exit status where that can't
/// be done, as of a failed read.
pub fn enter_folder<R: Env, E: Sink>(
    rt: &R,
    words: &mut Vec<String>,
    errors: &mut E,
) -> Result<(), u8>
    ensures words { OnOk result (map string_bytes words.new.items ≡ without_folder (map string_bytes words.old.items)) }
    ensures err { IfErr result (λ status. status ≡ 4) }
{
    if !has_folder(words.as_slice()) {
        return Ok(());
    }
    let Some(folder) = take_folder(words) else {
        return Ok(());
    };
    match rt.set_current_dir(folder.as_str()) {
        Ok(()) => Ok(()),
        Err(_) => {
            report_texts(
                errors,
                &[b"syc: no folder ", folder.as_bytes(), b" can be entered\n"],
            );
            Err(4)
        }
    }
}
