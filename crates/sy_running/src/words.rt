//! The words of the command that runs a relay.
ghost use Rattle.std.specs.Prelude.{◌≡◌, ℕ, List, ◌∷◌, None, codes, map, option_map, true, IfSome};
ghost use Rattle.sy_running.specs.Words.{AreRunOf, IsPeriod, IsSeconds};
ghost use Rattle.sy_report.specs.Words.{is_plain as is_plain_word};
ghost use Rattle.sy_running.specs.internal.Commands.{AreArgs};
ghost use Rattle.sy_running.specs.Commands.{IsRun, options_of};

use sy_report::command_line::command::{is_plain, is_word};
use sy_wire::numbers::number_up_to;

/// The longest time that may be given, in seconds: a day.
const MOST_SECONDS: u64 = 86_400;

/// How many digits it has.
const DIGITS: usize = 5;

/// How many words may stand behind that of the command: two names, and each option with what belongs to it.
const MOST_WORDS: usize = 14;

/// What the words of that command say.
#[derive(Clone, Copy)]
pub struct RunWords<'a> {
    /// the name of the site file
    pub site: &'a str,
    /// the name of the relay
    pub relay: &'a str,
    /// whether the site isn't to be checked
    pub is_unchecked: bool,
    /// whether a fault of the start is to be explained
    pub is_explained: bool,
    /// the name of the file for what is left
    pub left: Option<&'a str>,
    /// the name of the file for frames that carry no message
    pub unread: Option<&'a str>,
    /// for how many seconds the relay may empty before it stops
    pub drain: Option<u32>,
    /// the name of the file for the metrics
    pub metrics: Option<&'a str>,
    /// after how many seconds that file is written again: 1 at least
    pub metrics_every: Option<u32>,
}

// What words say that stand behind some of them.
#[derive(Clone, Copy)]
struct Args<'a> {
    first: Option<&'a str>,
    second: Option<&'a str>,
    is_unchecked: bool,
    is_explained: bool,
    left: Option<&'a str>,
    unread: Option<&'a str>,
    drain: Option<u32>,
    metrics: Option<&'a str>,
    metrics_every: Option<u32>,
}

/// The number that digits make, as far as it is a time that may be given.
pub fn seconds(word: &[u8]) -> Option<u32>
    ensures { IfSome result (IsSeconds word.now) }
{
    if word.len() > DIGITS {
        return None;
    }
    match number_up_to(word, MOST_SECONDS) {
        Some(number) => Some(number as u32),
        None => None,
    }
}

/// The same of a time between two files, which is no less than a second.
pub fn period(word: &[u8]) -> Option<u32>
    ensures { IfSome result (IsPeriod word.now) }
{
    let number = seconds(word)?;
    if number == 0 {
        return None;
    }
    Some(number)
}

// One name more, in front of these.
fn with_name<'a>(word: &'a str, args: Args<'a>) -> Option<Args<'a>>
    requires { is_plain_word word.now ≡ true }
    ensures { IfSome result (λ found. (words : List (List ℕ)) → AreArgs words args.entry → AreArgs (word.entry.now ∷ words) found) }
{
    if args.second.is_some() {
        return None;
    }
    Some(Args {
        first: Some(word),
        second: args.first,
        ..args
    })
}

fn with_unchecked<'a>(args: Args<'a>) -> Option<Args<'a>>
    ensures { IfSome result (λ found. (words : List (List ℕ)) → AreArgs words args.entry → AreArgs (codes "--unchecked" ∷ words) found) }
{
    if args.is_unchecked {
        return None;
    }
    Some(Args {
        is_unchecked: true,
        ..args
    })
}

fn with_explained<'a>(args: Args<'a>) -> Option<Args<'a>>
    ensures { IfSome result (λ found. (words : List (List ℕ)) → AreArgs words args.entry → AreArgs (codes "--explain" ∷ words) found) }
{
    if args.is_explained {
        return None;
    }
    Some(Args {
        is_explained: true,
        ..args
    })
}

fn with_left<'a>(file: &'a str, args: Args<'a>) -> Option<Args<'a>>
    ensures { IfSome result (λ found. (words : List (List ℕ)) → AreArgs words args.entry → AreArgs (codes "--left" ∷ file.entry.now ∷ words) found) }
{
    if args.left.is_some() {
        return None;
    }
    if !is_plain(file) {
        return None;
    }
    Some(Args {
        left: Some(file),
        ..args
    })
}

fn with_unread<'a>(file: &'a str, args: Args<'a>) -> Option<Args<'a>>
    ensures { IfSome result (λ found. (words : List (List ℕ)) → AreArgs words args.entry → AreArgs (codes "--unread" ∷ file.entry.now ∷ words) found) }
{
    if args.unread.is_some() {
        return None;
    }
    if !is_plain(file) {
        return None;
    }
    Some(Args {
        unread: Some(file),
        ..args
    })
}

fn with_drain<'a>(word: &'a str, args: Args<'a>) -> Option<Args<'a>>
    ensures { IfSome result (λ found. (words : List (List ℕ)) → AreArgs words args.entry → AreArgs (codes "--drain" ∷ word.entry.now ∷ words) found) }
{
    if args.drain.is_some() {
        return None;
    }
    let seconds = seconds(word.as_bytes())?;
    Some(Args {
        drain: Some(seconds),
        ..args
    })
}

fn with_metrics<'a>(file: &'a str, args: Args<'a>) -> Option<Args<'a>>
    ensures { IfSome result (λ found. (words : List (List ℕ)) → AreArgs words args.entry → AreArgs (codes "--metrics" ∷ file.entry.now ∷ words) found) }
{
    if args.metrics.is_some() {
        return None;
    }
    if !is_plain(file) {
        return None;
    }
    Some(Args {
        metrics: Some(file),
        ..args
    })
}

fn with_metrics_every<'a>(word: &'a str, args: Args<'a>) -> Option<Args<'a>>
    ensures { IfSome result (λ found. (words : List (List ℕ)) → AreArgs words args.entry → AreArgs (codes "--metrics-every" ∷ word.entry.now ∷ words) found) }
{
    if args.metrics_every.is_some() {
        return None;
    }
    let seconds = period(word.as_bytes())?;
    Some(Args {
        metrics_every: Some(seconds),
        ..args
    })
}

// One option more, in front of these, with the word that belongs to it.
fn with_value<'a>(option: &str, value: &'a str, args: Args<'a>) -> Option<Args<'a>>
    ensures { IfSome result (λ found. (words : List (List ℕ)) → AreArgs words args.entry → AreArgs (option.now ∷ value.entry.now ∷ words) found) }
{
    if is_word(option, "--left") {
        with_left(value, args)
    } else if is_word(option, "--unread") {
        with_unread(value, args)
    } else if is_word(option, "--drain") {
        with_drain(value, args)
    } else if is_word(option, "--metrics") {
        with_metrics(value, args)
    } else if is_word(option, "--metrics-every") {
        with_metrics_every(value, args)
    } else {
        None
    }
}

// What words say behind that of the command.
fn args_of<'a>(words: &[&'a str]) -> Option<Args<'a>>
    ensures { IfSome result (AreArgs (map (λ s. s.now) words.now)) }
{
    match words {
        [] => Some(Args {
            first: None,
            second: None,
            is_unchecked: false,
            is_explained: false,
            left: None,
            unread: None,
            drain: None,
            metrics: None,
            metrics_every: None,
        }),
        [word, rest @ ..] => {
            if is_plain(word) {
                return with_name(word, args_of(rest)?);
            }
            if is_word(word, "--unchecked") {
                return with_unchecked(args_of(rest)?);
            }
            if is_word(word, "--explain") {
                return with_explained(args_of(rest)?);
            }
            match rest {
                [value, rest @ ..] => with_value(word, value, args_of(rest)?),
                [] => None,
            }
        }
    }
}

// Whether a time between two files is given with a file, if at all.
fn is_paired(metrics: Option<&str>, every: Option<u32>) -> bool
    ensures { result ≡ true → option_map (λ file. file.now) metrics.entry ≡ None → every ≡ None }
{
    match metrics {
        Some(_) => true,
        None => every.is_none(),
    }
}

// What stands behind the word of the command: two names, with options at any place.
fn behind<'a>(words: &[&'a str]) -> Option<RunWords<'a>>
    ensures { IfSome result (λ found. AreRunOf (options_of found) (codes "run" ∷ map (λ s. s.now) words.now) found.site.now found.relay.now) }
{
    if words.len() > MOST_WORDS {
        return None;
    }
    let Args {
        first,
        second,
        is_unchecked,
        is_explained,
        left,
        unread,
        drain,
        metrics,
        metrics_every,
    } = args_of(words)?;
    if !is_paired(metrics, metrics_every) {
        return None;
    }
    Some(RunWords {
        site: first?,
        relay: second?,
        is_unchecked,
        is_explained,
        left,
        unread,
        drain,
        metrics,
        metrics_every,
    })
}

/// What the words say, the program's name being the first of them, where they are those of that command.
pub fn run_words<'a>(words: &[&'a str]) -> Option<RunWords<'a>>
    ensures { IfSome result (IsRun (map (λ s. s.now) words.now)) }
{
    match words {
        [program, command, rest @ ..] => {
            if is_word(program, "syc") && is_word(command, "run") {
                behind(rest)
            } else {
                None
            }
        }
        _ => None,
    }
}

/// Whether the words, those after the program's name, begin with that command.
pub fn is_run(args: &[String]) -> bool {
    match args.first() {
        Some(word) => is_word(word.as_str(), "run"),
        None => false,
    }
}
