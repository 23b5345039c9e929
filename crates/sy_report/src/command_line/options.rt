//! The options of the commands over a site, which stand anywhere among their words.
ghost use Rattle.std.specs.Prelude.{◌≡◌, ◌<◌, ◌+◌, ◌++◌, ◌∷◌, [], ℕ, List, IfNone, IfOk, IfSome, OnOk, codes, map, string_bytes};
ghost use Rattle.std.specs.Str.{bytes_eq};
ghost use Rattle.sy_report.specs.Words.{HaveOptions, bare_of, is_option as is_option_word, once_if, times};
ghost use Rattle.sy_report.specs.declared.command_line.options.Options.{Options as AnyOptions};
ghost use Rattle.sy_report.specs.Commands.{IsGiven};

use std::alloc::{AllocError, Global};

/// The options that are given.
#[derive(Clone, Copy)]
pub struct Options {
    /// `--explain`
    pub explain: bool,
    /// `--all`
    pub all: bool,
    /// `--json`
    pub json: bool,
}

/// The words of the command line, the program's name being the first of them.
#[derive(Drop)]
pub struct GivenWords<'a> {
    /// All of them.
    pub all: Vec<&'a str>,
    /// Those that are no options of a command over a site.
    pub bare: Vec<&'a str>,
    /// The options among them; nothing where one is there twice.
    pub options: Option<Options>,
}

pub(crate) fn is_same(word: &str, wanted: &str) -> bool
    ensures { result ≡ bytes_eq word.now wanted.now }
{
    word == wanted
}

// Whether a word is an option of a command over a site.
fn is_option(word: &str) -> bool
    ensures { result ≡ is_option_word word.now }
{
    is_same(word, "--explain") || is_same(word, "--all") || is_same(word, "--json")
}

/// The words with the program's name before them.
pub fn all_words<'a>(alloc: Global, args: &'a [String]) -> Result<Vec<&'a str>, AllocError>
    ensures { IfOk result (λ v. map (λ s. s.now) v.items ≡ codes "syc" ∷ map string_bytes args.now) }
{
    let mut words = Vec::new(alloc);
    words.push("syc")?;
    for arg in args {
        words.push(arg.as_str())?;
    }
    Ok(words)
}

// Puts a word behind others, where it is no option.
fn push_bare<'a>(words: &mut Vec<&'a str>, word: &'a str) -> Result<(), AllocError>
    ensures { OnOk result (map (λ s. s.now) words.new.items ≡ map (λ s. s.now) words.old.items ++ bare_of (word.now ∷ [])) }
{
    if is_option(word) {
        return Ok(());
    }
    words.push(word)?;
    Ok(())
}

// Those of the words that are no options, with the program's name before them.
fn bare_words<'a>(alloc: Global, args: &'a [String]) -> Result<Vec<&'a str>, AllocError>
    ensures { IfOk result (λ v. map (λ s. s.now) v.items ≡ codes "syc" ∷ bare_of (map string_bytes args.now)) }
{
    let mut bare = Vec::new(alloc);
    bare.push("syc")?;
    for arg in args {
        push_bare(&mut bare, arg.as_str())?;
    }
    Ok(bare)
}

// Whether something is there that was there, or comes now; nothing where both are so.
fn once(was_there: bool, comes: bool) -> Option<bool>
    ensures some { IfSome result (λ b. once_if b ≡ once_if was_there + once_if comes) }
    ensures none { IfNone result (1 < once_if was_there + once_if comes) }
{
    match (was_there, comes) {
        (false, false) => Some(false),
        (true, true) => None,
        (true, false) | (false, true) => Some(true),
    }
}

// Whether an option is among the words; nothing where it is there twice.
pub(crate) fn is_given(args: &[String], option: &str) -> Option<bool>
    ensures some { IfSome result (λ b. times option.now (map string_bytes args.now) ≡ once_if b) }
    ensures none { IfNone result (1 < times option.now (map string_bytes args.now)) }
{
    let mut is_there = false;
    for arg in args {
        is_there = once(is_there, is_same(arg.as_str(), option))?;
    }
    Some(is_there)
}

// The options among the words; nothing where one is there twice.
fn options_of(args: &[String]) -> Option<Options>
    ensures some { IfSome result (λ o. HaveOptions (map string_bytes args.now) o (bare_of (map string_bytes args.now))) }
    ensures none { IfNone result ((o : AnyOptions) (bare : List (List ℕ)) → HaveOptions (map string_bytes args.now) o bare → ⊥) }
{
    let explain = is_given(args, "--explain")?;
    let all = is_given(args, "--all")?;
    let json = is_given(args, "--json")?;
    Some(Options { explain, all, json })
}

/// The words, those of them that are no options, and the options.
pub fn given_words<'a>(alloc: Global, args: &'a [String]) -> Result<GivenWords<'a>, AllocError>
    ensures { IfOk result (IsGiven (map string_bytes args.now)) }
{
    let all = all_words(alloc, args)?;
    let bare = bare_words(alloc, args)?;
    let options = options_of(args);
    Ok(GivenWords { all, bare, options })
}
