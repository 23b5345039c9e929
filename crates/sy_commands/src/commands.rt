//! The commands over a site: the words that call for them, and how they are run.
ghost use Rattle.std.specs.Prelude.{◌≡◌, ◌≢◌, ◌≤◌, ◌∷◌, ℕ, List, IfNone, IfSome, codes, map, true};
ghost use Rattle.std.specs.Io.KnownBytes.{Keeps};
ghost use Rattle.sy_commands.specs.CommandReports.{SaysReport};
ghost use Rattle.sy_commands.specs.Optioned.{EndsAs, FailsAs, KeepsAs};
ghost use Rattle.sy_commands.specs.Replays.{PiecesMayFail};
ghost use Rattle.sy_commands.specs.Words as spec;
ghost use Rattle.sy_report.specs.Words as report;
ghost use Rattle.sy_commands.specs.Words.{AreOver, AreWithOptions, OverSite as AnyOver};
ghost use Rattle.sy_commands.specs.declared.commands.Request.TheVariants as request;
ghost use Rattle.sy_report.specs.declared.command_line.options.Options.{Options as AnyOptions};
ghost use Rattle.sy_commands.specs.internal.Commands.{AreNoGraph, IsNamed, IsNotTaken, IsTaken};
ghost use Rattle.sy_commands.specs.Requests.{IsRequest, options_of, over, over_of};
ghost use Rattle.sy_report.specs.Commands.{IsGiven};

use crate::check::question::ask;
use crate::graph::{Extent, graph};
use crate::replay::replay;
use crate::verify::verify;
use std::alloc::Global;
use sy_report::command_line::command::{Asked, SiteCommand, is_plain, is_word, site_command};
use sy_report::command_line::options::{GivenWords, Options};
use sy_report::reading::files::Files;
use sy_report::writing::outputs::Outputs;
use sy_wire::Sink;

/// What is wanted of a site.
#[derive(Clone, Copy)]
pub enum Request<'a> {
    /// What a command says of it, with these options.
    OfSite(Options, SiteCommand<'a>),
    /// The site as a graph: the name of the site file.
    Graph(&'a str),
    /// The same of one class: the names of the site file and of the class.
    GraphOfClass(&'a str, &'a str),
}

// Whether a command takes these options: `--all` is one of a check.
fn allows(options: Options, command: SiteCommand<'_>) -> bool
    ensures { result ≡ spec.allows options (over command.entry) }
{
    match command {
        SiteCommand::Ask(Asked::Check, _) => true,
        SiteCommand::Ask(Asked::Certify, _)
        | SiteCommand::Replay(_, _)
        | SiteCommand::Verify(_, _) => !options.all,
    }
}

/// Whether one of the options is given.
pub fn is_any(options: Options) -> bool
    ensures { result ≡ spec.is_any options }
{
    options.explain || options.all || options.json
}

// The command over a site of bare words, where it takes these options.
fn with_these<'a>(options: Options, bare: &[&'a str]) -> Option<Request<'a>>
    ensures some { IfSome result (IsTaken options (map (λ s. s.now) bare.now)) }
    ensures none { IfNone result (IsNotTaken options (map (λ s. s.now) bare.now)) }
{
    match site_command(bare) {
        Some(command) => {
            if allows(options, command) {
                Some(Request::OfSite(options, command))
            } else {
                None
            }
        }
        None => None,
    }
}

// The command over a site that the words call for, with the options among them.
fn of_site<'a>(given: &GivenWords<'a>) -> Option<Request<'a>>
    ensures some { IfSome result (λ found. (words : List (List ℕ)) → IsGiven words given.now → IsRequest words found) }
    ensures none { IfNone result ((words : List (List ℕ)) → IsGiven words given.now →
        (options : AnyOptions) (command : AnyOver) → AreWithOptions words options command → ⊥) }
{
    match given.options {
        Some(options) => with_these(options, given.bare.as_slice()),
        None => None,
    }
}

// A graph of a class, where both names are no options.
fn of_class<'a>(site: &'a str, class: &'a str) -> Option<Request<'a>>
    ensures some { IfSome result (λ found. (found ≡ request.GraphOfClass site.entry class.entry)
        × (report.is_plain site.now ≡ true) × (report.is_plain class.now ≡ true)) }
    ensures none { IfNone result (report.is_plain site.now ≡ true → report.is_plain class.now ≡ true → ⊥) }
{
    if is_plain(site) && is_plain(class) {
        Some(Request::GraphOfClass(site, class))
    } else {
        None
    }
}

// What stands behind `graph`: the name of the site file, and a class before or behind it.
fn drawn<'a>(words: &[&'a str]) -> Option<Request<'a>>
    ensures some { IfSome result (IsRequest (codes "graph" ∷ map (λ s. s.now) words.now)) }
    ensures none { IfNone result (AreNoGraph (codes "graph" ∷ map (λ s. s.now) words.now)) }
{
    match words {
        [site] => {
            if is_plain(site) {
                Some(Request::Graph(site))
            } else {
                None
            }
        }
        [first, second, third] => {
            if is_word(first, "--class") {
                of_class(third, second)
            } else if is_word(second, "--class") {
                of_class(first, third)
            } else {
                None
            }
        }
        _ => None,
    }
}

// The graph that the words want, the program's name being the first of them.
fn graphed<'a>(words: &[&'a str]) -> Option<Request<'a>>
    ensures some { IfSome result (IsNamed (map (λ s. s.now) words.now)) }
    ensures none { IfNone result ((args : List (List ℕ)) → map (λ s. s.now) words.now ≡ codes "syc" ∷ args → AreNoGraph args) }
{
    match words {
        [program, command, rest @ ..] => {
            if is_word(program, "syc") && is_word(command, "graph") {
                drawn(rest)
            } else {
                None
            }
        }
        _ => None,
    }
}

/// What the words want of a site.
pub fn request_of<'a>(given: &GivenWords<'a>) -> Option<Request<'a>>
    ensures some { IfSome result (λ found. (words : List (List ℕ)) → IsGiven words given.now → IsRequest words found) }
    ensures none { IfNone result ((words : List (List ℕ)) → IsGiven words given.now →
        (options : AnyOptions) (command : AnyOver) → AreOver words options command → ⊥) }
{
    match of_site(given) {
        Some(found) => Some(found),
        None => graphed(given.all.as_slice()),
    }
}

// Runs a command over a site, and answers the exit status.
fn over_site<W: Sink, E: Sink, F: Files>(
    alloc: Global,
    options: Options,
    command: SiteCommand<'_>,
    files: &F,
    out: &mut Outputs<W, E>,
) -> u8
    ensures ends { EndsAs (F.bytes_of files.now) (over command.entry) result }
    ensures says { SaysReport (F.bytes_of files.now) options (over command.entry) result out.old out.new }
    ensures keeps { KeepsAs (F.bytes_of files.now) (over command.entry) result }
    ensures fails { FailsAs (F.bytes_of files.now) (F.may_fail files.now) (PiecesMayFail F.Opened.faults)
        (over command.entry) result out.old out.new }
    ensures status { result ≤ 4 }
    ensures none_failed { result ≢ 4 → out.new.output.faults ≡ out.old.output.faults }
    ensures quiet { result ≡ 0 → Keeps out.old.errors.contents out.new.errors.contents }
{
    match command {
        SiteCommand::Ask(asked, site) => ask(alloc, files, options, asked, site, out),
        SiteCommand::Replay(site, events) => replay(alloc, files, options, site, events, out),
        SiteCommand::Verify(site, certificate) => {
            verify(alloc, files, options, site, certificate, out)
        }
    }
}

/// Does what is wanted of a site, and answers the exit status.
pub fn report<W: Sink, E: Sink, F: Files>(
    alloc: Global,
    request: Request<'_>,
    files: &F,
    out: &mut Outputs<W, E>,
) -> u8
    ensures ends { EndsAs (F.bytes_of files.now) (over_of request.entry) result }
    ensures says { SaysReport (F.bytes_of files.now) (options_of request.entry) (over_of request.entry) result out.old out.new }
    ensures keeps { KeepsAs (F.bytes_of files.now) (over_of request.entry) result }
    ensures fails { FailsAs (F.bytes_of files.now) (F.may_fail files.now) (PiecesMayFail F.Opened.faults)
        (over_of request.entry) result out.old out.new }
    ensures status { result ≤ 4 }
    ensures none_failed { result ≢ 4 → out.new.output.faults ≡ out.old.output.faults }
    ensures quiet { result ≡ 0 → Keeps out.old.errors.contents out.new.errors.contents }
{
    match request {
        Request::OfSite(options, command) => over_site(alloc, options, command, files, out),
        Request::Graph(site) => graph(alloc, files, site, None, Extent::Fitting, out),
        Request::GraphOfClass(site, class) => {
            graph(alloc, files, site, Some(class), Extent::Fitting, out)
        }
    }
}
