//! The commands over configurations of rsyslogd, which say where it may lose messages by them, and carry one over: their words.
ghost use Rattle.std.specs.Prelude.{◌≤◌, Decides, codes, map, string_bytes};
ghost use Rattle.syc.specs.Words.{BeginWith};

use crate::taking::is_first;
use crate::usage::refusal;
use crate::wrong_words::refuse;
use std::alloc::{AllocError, Global};
use sy_report::command_line::command::{is_plain, is_word};
use sy_report::command_line::options::all_words;
use sy_report::outcome::stop::out_of_memory;
use sy_report::reading::files::Files;
use sy_report::writing::outputs::Outputs;
use sy_survey::converting::convert;
use sy_survey::folders::Folders;
use sy_survey::report::Form;
use sy_survey::selected::{DEFAULT, is_selector, selector_text};
use sy_survey::survey::{Host, Wanted, survey};
use sy_survey::tree::Tree;
use sy_wire::Sink;

// A configuration as the words name it: below a folder, or by itself.
#[derive(Clone, Copy)]
struct Named<'a> {
    file: &'a str,
    root: Option<&'a str>,
}

// What the words say: the configurations, the classes as they are written, and whether assumptions count.
#[derive(Drop)]
struct Words<'a> {
    hosts: Vec<Named<'a>>,
    root: Option<&'a str>,
    classes: Option<&'a str>,
    is_strict: bool,
    form: Form,
}

// The option whose value comes next.
#[derive(Clone, Copy, PartialEq, Eq)]
enum Next {
    Word,
    Classes,
    Root,
}

/// Whether the words, those after the program's name, begin with that command.
pub fn is_survey(args: &[String]) -> bool
    ensures { Decides result (BeginWith (codes "survey") (map string_bytes args.now)) }
{
    is_first(args, "survey")
}

/// Whether they begin with the command that carries a configuration over.
pub fn is_convert(args: &[String]) -> bool
    ensures { Decides result (BeginWith (codes "convert") (map string_bytes args.now)) }
{
    is_first(args, "convert")
}

// The form of a document that a word asks for.
fn form_of(word: &str) -> Option<Form> {
    if is_word(word, "--json") {
        return Some(Form::Json);
    }
    if is_word(word, "--sarif") {
        return Some(Form::Sarif);
    }
    None
}

impl<'a> Words<'a> {
    // Takes a word that is no option's value; it answers what the next one is, and nothing where the word is faulty.
    fn take(&mut self, word: &'a str) -> Result<Option<Next>, AllocError> {
        if is_word(word, "--root") {
            return Ok(Some(Next::Root));
        }
        if is_word(word, "--protect") && self.classes.is_none() {
            return Ok(Some(Next::Classes));
        }
        if is_word(word, "--strict") && !self.is_strict {
            self.is_strict = true;
            return Ok(Some(Next::Word));
        }
        if let (Some(form), Form::Text) = (form_of(word), self.form) {
            self.form = form;
            return Ok(Some(Next::Word));
        }
        if !is_plain(word) {
            return Ok(None);
        }
        self.hosts.push(Named {
            file: word,
            root: self.root,
        })?;
        Ok(Some(Next::Word))
    }
}

// What the words behind that of the command say; nothing where they are faulty.
fn words_of<'a>(alloc: Global, args: &[&'a str]) -> Result<Option<Words<'a>>, AllocError> {
    let mut words = Words {
        hosts: Vec::new(alloc),
        root: None,
        classes: None,
        is_strict: false,
        form: Form::Text,
    };
    let mut next = Next::Word;
    for word in args {
        match next {
            Next::Root => {
                words.root = Some(*word);
                next = Next::Word;
            }
            Next::Classes => {
                words.classes = Some(*word);
                next = Next::Word;
            }
            Next::Word => match words.take(word)? {
                Some(found) => next = found,
                None => return Ok(None),
            },
        }
    }
    if next != Next::Word || words.hosts.is_empty() {
        return Ok(None);
    }
    Ok(Some(words))
}

// A folder without slashes at its end.
fn trimmed(folder: &str) -> &str {
    folder.trim_end_matches('/')
}

// The path of a configuration: below its folder, where it has one.
fn path_of(alloc: Global, named: Named<'_>) -> Result<String, AllocError> {
    let Some(root) = named.root else {
        return String::from_str(alloc, named.file);
    };
    let mut path = String::from_str(alloc, trimmed(root))?;
    if !named.file.starts_with('/') {
        path.push('/')?;
    }
    path.push_str(named.file)?;
    Ok(path)
}

// The paths of all configurations.
fn paths_of(alloc: Global, hosts: &[Named<'_>]) -> Result<Vec<String>, AllocError> {
    let mut paths = Vec::new(alloc);
    for named in hosts {
        paths.push(path_of(alloc, *named)?)?;
    }
    Ok(paths)
}

// The hosts of these configurations, each with its path.
fn hosts_of<'a>(
    alloc: Global,
    hosts: &[Named<'a>],
    paths: &'a [String],
) -> Result<Vec<Host<'a>>, AllocError> {
    let mut found = Vec::new(alloc);
    for (named, path) in hosts.iter().zip(paths) {
        found.push(Host {
            file: path.as_str(),
            root: named.root.map(trimmed),
        })?;
    }
    Ok(found)
}

// The selector of the classes that were asked for; nothing where it is none.
fn selector_of(alloc: Global, classes: Option<&str>) -> Result<Option<Vec<u8>>, AllocError> {
    let text = match classes {
        Some(words) => selector_text(alloc, words.as_bytes())?,
        None => Vec::from_slice(alloc, DEFAULT)?,
    };
    if is_selector(alloc, text.as_slice())? {
        return Ok(Some(text));
    }
    Ok(None)
}

// The command of which the words are.
#[derive(Clone, Copy, PartialEq, Eq)]
enum Command {
    Survey,
    Convert,
}

// Does it with these hosts.
fn with_hosts<W: Sink, E: Sink, F: Files, D: Folders>(
    alloc: Global,
    command: Command,
    words: &Words<'_>,
    selector: &[u8],
    tree: &Tree<'_, F, D>,
    out: &mut Outputs<W, E>,
) -> u8
    ensures { result ≤ 4 }
{
    let Ok(paths) = paths_of(alloc, words.hosts.as_slice()) else {
        return out_of_memory(&mut out.errors);
    };
    let Ok(hosts) = hosts_of(alloc, words.hosts.as_slice(), paths.as_slice()) else {
        return out_of_memory(&mut out.errors);
    };
    if let (Command::Convert, Some(host)) = (command, hosts.first()) {
        return convert(alloc, tree, *host, selector, out);
    }
    let wanted = Wanted {
        hosts: hosts.as_slice(),
        selector,
        is_strict: words.is_strict,
        form: words.form,
    };
    survey(alloc, tree, wanted, out)
}

// Does it with the configurations that the words name.
fn with_words<W: Sink, E: Sink, F: Files, D: Folders>(
    alloc: Global,
    command: Command,
    all: &[&str],
    words: &Words<'_>,
    tree: &Tree<'_, F, D>,
    out: &mut Outputs<W, E>,
) -> u8
    ensures { result ≤ 4 }
{
    match selector_of(alloc, words.classes) {
        Ok(Some(selector)) => with_hosts(alloc, command, words, selector.as_slice(), tree, out),
        Ok(None) => refuse(alloc, out, &refusal(alloc, all)),
        Err(_) => out_of_memory(&mut out.errors),
    }
}

// Whether the words may be those of the command: what is converted is one file, without a form or assumptions.
fn may_be(command: Command, words: &Words<'_>) -> bool {
    match command {
        Command::Survey => true,
        Command::Convert => {
            words.hosts.len() == 1 && !words.is_strict && words.form == Form::Text
        }
    }
}

// Does what the words say.
fn by_words<W: Sink, E: Sink, F: Files, D: Folders>(
    alloc: Global,
    command: Command,
    args: &[String],
    tree: &Tree<'_, F, D>,
    out: &mut Outputs<W, E>,
) -> u8
    ensures { result ≤ 4 }
{
    let Ok(all) = all_words(alloc, args) else {
        return out_of_memory(&mut out.errors);
    };
    // (the program's name and that of the command stand before them)
    let behind = all.as_slice().get(2..).unwrap_or(&[]);
    match words_of(alloc, behind) {
        Ok(Some(words)) if may_be(command, &words) => {
            with_words(alloc, command, all.as_slice(), &words, tree, out)
        }
        Ok(_) => refuse(alloc, out, &refusal(alloc, all.as_slice())),
        Err(_) => out_of_memory(&mut out.errors),
    }
}

/// Surveys the configurations that the words name, and answers the exit status: 0 nothing found, 1 something is, 2 a faulty text or faulty
/// words, 3 out of memory, 4 a read or a write failed.
pub fn survey_of_words<W: Sink, E: Sink, F: Files, D: Folders>(
    alloc: Global,
    args: &[String],
    tree: &Tree<'_, F, D>,
    out: &mut Outputs<W, E>,
) -> u8
    ensures { result ≤ 4 }
{
    by_words(alloc, Command::Survey, args, tree, out)
}

/// Carries the configuration that the words name over to a relay, and answers the exit status: 0 the whole of it, and it is accepted, 1
/// something is left out or found, 2 a faulty text or faulty words, 3 out of memory, 4 a read or a write failed.
pub fn convert_of_words<W: Sink, E: Sink, F: Files, D: Folders>(
    alloc: Global,
    args: &[String],
    tree: &Tree<'_, F, D>,
    out: &mut Outputs<W, E>,
) -> u8
    ensures { result ≤ 4 }
{
    by_words(alloc, Command::Convert, args, tree, out)
}
