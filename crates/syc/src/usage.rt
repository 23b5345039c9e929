//! What clap says of the program and of each command: a help, the version, and what is wrong with other words.

mod commands;
mod misread;

use clap::error::ErrorKind;
use clap::{Arg, ArgAction, Command as Parser, Error};
use commands::{CODE, COMMANDS, CONFIG};
use misread::misread_reason;
use std::alloc::{AllocError, Global};
use sy_report::command_line::command::is_word;

const FOLDER: &str = "Look for all files in this folder; before the command";

const ABOUT: &str = "A relay for syslog messages in octet-counted frames";

const CLASS: &str = "Draw what the messages of this class may reach, as auth.crit";

const LEFT: &str = "Write what the relay still holds at its end to this file, as frames";

const UNREAD: &str =
    "Write each frame that carries no message to this file, as a frame, where its input names no other";

const DRAIN: &str =
    "Wait until the relay holds nothing, before it ends, but so many seconds at most: 0 to 86400";

const METRICS: &str =
    "Write the totals and what they are of to this file again and again, as text for Prometheus";

const METRICS_EVERY: &str =
    "Write that file again after so many seconds, in place of 10: 1 to 86400; only with --metrics";

const RENAME: &str =
    "A relay that has another name after the change: the old one, = and the new one; once for each";

const ROOT: &str =
    "Look for the configurations behind it, and what they include, below this folder";

const PROTECT: &str = "The classes that are asked for, as auth,authpriv.* (which is the default)";

const ANY_FILE: &str = "Read FIFOs and devices too, not regular files alone";

// A parser with the name of a file more. Here and below a parser that couldn't be made is passed on, since a `?` where
// parsers are owned is dear to prove.
fn with_name<'a>(
    alloc: Global,
    parser: Result<Parser<'a>, AllocError>,
    name: &'a str,
    help: &'a str,
) -> Result<Parser<'a>, AllocError> {
    match parser {
        Ok(parser) if is_word(name, CONFIG) => {
            let files = Arg::new(alloc, name).help(help).required(true);
            parser.arg(files.num_args(1..))
        }
        Ok(parser) if is_word(name, CODE) => {
            let code = Arg::new(alloc, name).help(help).required(false);
            parser.arg(code.num_args(0..=2))
        }
        Ok(parser) => parser.arg(Arg::new(alloc, name).help(help).required(true)),
        Err(why) => Err(why),
    }
}

// Lets a parser go where memory ran out.
fn no_parser<'a>(_parser: Parser<'a>) -> Result<Parser<'a>, AllocError> {
    Err(AllocError)
}

// A parser with an option more.
fn with_option<'a>(
    alloc: Global,
    parser: Result<Parser<'a>, AllocError>,
    name: &'a str,
    help: &'a str,
) -> Result<Parser<'a>, AllocError> {
    match parser {
        Ok(parser) => {
            let flag = Arg::new(alloc, name).long(name).help(help);
            parser.arg(flag.action(ArgAction::SetTrue))
        }
        Err(why) => Err(why),
    }
}

// A parser with an option more that has a value.
fn with_value<'a>(
    alloc: Global,
    parser: Result<Parser<'a>, AllocError>,
    name: &'a str,
    value: &'a str,
    help: &'a str,
) -> Result<Parser<'a>, AllocError> {
    match parser {
        Ok(parser) => {
            let option = Arg::new(alloc, name).long(name).value_name(value);
            parser.arg(option.help(help).action(ArgAction::Set))
        }
        Err(why) => Err(why),
    }
}

// A parser with the options of a command that have values.
fn with_values<'a>(
    alloc: Global,
    parser: Result<Parser<'a>, AllocError>,
    word: &'a str,
) -> Result<Parser<'a>, AllocError> {
    if is_word(word, "graph") {
        return with_value(alloc, parser, "class", "CLASS", CLASS);
    }
    if is_word(word, "survey") || is_word(word, "convert") {
        let parser = with_value(alloc, parser, "protect", "SELECTOR", PROTECT);
        return with_value(alloc, parser, "root", "DIR", ROOT);
    }
    if is_word(word, "diff") {
        return with_value(alloc, parser, "rename", "OLD=NEW", RENAME);
    }
    if is_word(word, "run") {
        let parser = with_value(alloc, parser, "left", "FILE", LEFT);
        let parser = with_value(alloc, parser, "unread", "FILE", UNREAD);
        let parser = with_value(alloc, parser, "drain", "SECONDS", DRAIN);
        let parser = with_value(alloc, parser, "metrics", "FILE", METRICS);
        return with_value(alloc, parser, "metrics-every", "SECONDS", METRICS_EVERY);
    }
    parser
}

// A parser with the names behind a command's word.
fn with_names<'a>(
    alloc: Global,
    parser: Result<Parser<'a>, AllocError>,
    names: &'a [(&'a str, &'a str)],
) -> Result<Parser<'a>, AllocError> {
    let mut parser = parser;
    for (name, help) in names {
        parser = with_name(alloc, parser, name, help);
    }
    parser
}

// A parser with the options of a command.
fn with_options<'a>(
    alloc: Global,
    parser: Result<Parser<'a>, AllocError>,
    options: &'a [(&'a str, &'a str)],
) -> Result<Parser<'a>, AllocError> {
    let mut parser = parser;
    for (name, help) in options {
        parser = with_option(alloc, parser, name, help);
    }
    parser
}

// What clap knows of a command.
fn parser_of<'a>(
    alloc: Global,
    word: &'a str,
    about: &'a str,
    behind: &'a str,
    names: &'a [(&'a str, &'a str)],
    options: &'a [(&'a str, &'a str)],
) -> Result<Parser<'a>, AllocError> {
    let parser = Ok(Parser::new(alloc, word).about(about).after_help(behind));
    let parser = with_names(alloc, parser, names);
    let parser = with_options(alloc, parser, options);
    let parser = with_values(alloc, parser, word);
    if is_word(word, "pass")
        || is_word(word, "unread")
        || is_word(word, "lines")
        || is_word(word, "explain")
    {
        return parser;
    }
    with_option(alloc, parser, "any-file", ANY_FILE)
}

// A parser with one command more.
fn with_command<'a>(
    parser: Result<Parser<'a>, AllocError>,
    command: Result<Parser<'a>, AllocError>,
) -> Result<Parser<'a>, AllocError> {
    match parser {
        Ok(parser) => match command {
            Ok(command) => parser.subcommand(command),
            Err(_) => no_parser(parser),
        },
        Err(why) => Err(why),
    }
}

// What clap knows of the program, but for its commands.
fn bare_parser<'a>(alloc: Global) -> Parser<'a> {
    Parser::new(alloc, "syc")
        .version("0.1.0")
        .about(ABOUT)
        .subcommand_required(true)
}

// What clap knows of the program.
fn whole_parser<'a>(alloc: Global) -> Result<Parser<'a>, AllocError> {
    let folder = Arg::new(alloc, "folder").short('C').value_name("FOLDER");
    let mut parser = bare_parser(alloc).arg(folder.help(FOLDER).action(ArgAction::Set));
    for (word, about, names, options, behind) in &COMMANDS {
        let command = parser_of(alloc, word, about, behind, names, options);
        parser = with_command(parser, command);
    }
    parser
}

// What clap answers for words that are no command: a call for help or the version, or what is wrong with them.
fn ask_clap<'a>(alloc: Global, parser: &mut Parser<'a>, words: &'a [&'a str]) -> Error {
    if let Err(error) = parser.try_get_matches_from_mut(words) {
        return error;
    }
    match parser.error(ErrorKind::UnknownArgument, misread_reason(alloc, words)) {
        Ok(error) => error,
        Err(why) => Error::from(why),
    }
}

/// What clap answers for words that are no command.
pub fn refusal(alloc: Global, words: &[&str]) -> Error {
    match whole_parser(alloc) {
        Ok(parser) => {
            let mut parser = parser;
            ask_clap(alloc, &mut parser, words)
        }
        Err(why) => Error::from(why),
    }
}
