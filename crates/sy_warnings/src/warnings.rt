//! Warnings: what is lawful in a site and unwise. They change no verdict.
ghost use Rattle.std.specs.Prelude.{◌≡◌, ◌++◌, ℕ, List, IfErr, IfOk};

use crate::audit::warn_of_audit;
use crate::cautions::unreached_relay;
use crate::circles::warn_of_circles;
use crate::endpoints::{warn_of_endpoint, warn_of_item_by_outlet};
use crate::holders::{Holder, holders_of};
use crate::tunnels::warn_of_tunnels;
use crate::unwise::warn_of_item;
use std::alloc::{AllocError, Global};
use sy_host_parameters::{RelayHost, host_of};
use sy_places::relay_file::contents::{Item, items_of};
use sy_places::relay_file::places::relay_line;
use sy_places::site_file::texts::{RelayFile, SiteTexts, relay_file};
use sy_places::ways::executed::{
    Executed, all_classes, executed_from, executed_of, protected_classes, reached_inputs,
};
use sy_report::outcome::answer::Answer;
use sy_report::outcome::halt::Halt;
use sy_report::texts::note::{Note, append_line, append_place};
use sy_report::texts::words::Words;
use sy_rules::Plan;
use sy_script::tree::Script;
use sy_site::{Site, SiteInput};

/// What is warned of.
#[derive(Clone, Copy)]
pub enum Caution {
    /// A parameter is given that has no effect.
    NoEffect,
    /// No input and no call names a ruleset.
    UncalledRuleset,
    /// No message reaches an action.
    UnreachedAction,
    /// No message of an entry reaches a relay.
    UnreachedRelay,
    /// An input that no message of an entry reaches feeds a queue that protected ones wait in.
    OutsideInput,
    /// A mark of a queue is above its size.
    MarkAboveSize,
    /// An action or a call stands behind a stop.
    AfterStop,
    /// Two archives of one relay are one file, or an archive and what keeps the unread frames of an input.
    SameFile,
    /// The file of an archive has no name, or one that nobody looks for, or that of a folder.
    OddFile,
    /// The file of an archive stands where nothing is kept.
    NotKept,
    /// An input can be reached where one of an earlier relay can.
    SameEndpoint,
    /// A forward leads to an input of its own relay, though the site has it lead elsewhere.
    OwnEndpoint,
    /// A forward connects to an address that is no host's.
    NoEndpoint,
    /// Nobody is where a forward leads.
    NobodyThere,
    /// A link goes through a tunnel, which may take messages that nobody behind it gets.
    BlindTunnel,
    /// Facility 4 is protected, and facility 13, log audit, isn't.
    AuditFacility,
    /// An action that may wait without end shares a worker with what protected messages need, and they don't need it.
    SharedWorker,
    /// A spare action without a queue of its own stands before what protected messages need.
    Bottleneck,
    /// Queues may wait for each other in a circle.
    Jam,
    /// Messages of a class may go round without end.
    Round,
}

impl Caution {
    /// Its name.
    pub fn name(self) -> &'static str {
        match self {
            Caution::NoEffect => "NoEffect",
            Caution::UncalledRuleset => "UncalledRuleset",
            Caution::UnreachedAction => "UnreachedAction",
            Caution::UnreachedRelay => "UnreachedRelay",
            Caution::OutsideInput => "OutsideInput",
            Caution::MarkAboveSize => "MarkAboveSize",
            Caution::AfterStop => "AfterStop",
            Caution::SameFile => "SameFile",
            Caution::OddFile => "OddFile",
            Caution::NotKept => "NotKept",
            Caution::SameEndpoint => "SameEndpoint",
            Caution::OwnEndpoint => "OwnEndpoint",
            Caution::NoEndpoint => "NoEndpoint",
            Caution::NobodyThere => "NobodyThere",
            Caution::BlindTunnel => "BlindTunnel",
            Caution::AuditFacility => "AuditFacility",
            Caution::SharedWorker => "SharedWorker",
            Caution::Bottleneck => "Bottleneck",
            Caution::Jam => "Jam",
            Caution::Round => "Round",
        }
    }
}

/// A warning: what is warned of, where it stands, why, and what to write.
#[derive(Drop)]
pub struct Warning {
    pub caution: Caution,
    pub note: Note,
}

/// A relay with the text of its file, and what its messages may execute.
#[derive(Clone, Copy)]
pub struct Looked<'a> {
    pub site: &'a Site,
    pub relay: u32,
    pub plan: &'a Plan,
    pub file: &'a str,
    pub text: &'a [u8],
    pub items: &'a [Item<'a>],
    /// What its host does.
    pub host: &'a RelayHost,
    pub executed: &'a Executed,
    /// What messages of protected classes may execute that come to one of `protected`.
    pub kept: &'a Executed,
    /// The inputs that messages of entries come to.
    pub reached: &'a [SiteInput],
    /// Those that messages of protected classes come to.
    pub protected: &'a [SiteInput],
    /// The actions that hold up protected messages.
    pub holders: &'a [Holder],
}

/// The most warnings of a site; what is unwise beyond them isn't told.
const MOST: usize = 256;

/// The warnings so far. Where memory runs out some are left out, which the end tells.
#[derive(Drop)]
pub struct Warnings {
    pub alloc: Global,
    list: Vec<Warning>,
    is_cut: bool,
}

impl Warnings {
    /// Whether no more are told.
    pub fn is_full(&self) -> bool {
        self.list.len() >= MOST
    }

    /// Puts a warning behind the others.
    pub fn push(&mut self, caution: Caution, note: Note) {
        self.is_cut = self.is_cut || note.is_cut();
        match self.list.push(Warning { caution, note }) {
            Ok(()) => {}
            Err(_) => self.is_cut = true,
        }
    }

    fn finish(self) -> Result<Vec<Warning>, AllocError> {
        let Warnings { list, is_cut, .. } = self;
        if is_cut {
            return Err(AllocError);
        }
        Ok(list)
    }
}

// The inputs that messages of entries come to, and the actions that hold up those of protected classes.
#[derive(Drop)]
struct Reached {
    of_any_class: Vec<SiteInput>,
    of_protected: Vec<SiteInput>,
    holders: Vec<Holder>,
}

fn reached_of(alloc: Global, site: &Site) -> Result<Reached, AllocError> {
    let classes = all_classes(alloc)?;
    let protected = protected_classes(alloc, site)?;
    let of_any_class = reached_inputs(alloc, site, classes.as_slice())?;
    let of_protected = reached_inputs(alloc, site, protected.as_slice())?;
    let holders = holders_of(alloc, site)?;
    Ok(Reached {
        of_any_class,
        of_protected,
        holders,
    })
}

/// What messages of protected classes may execute of a relay.
pub fn kept_of(
    alloc: Global,
    site: &Site,
    relay: u32,
    plan: &Plan,
    inputs: &[SiteInput],
) -> Result<Executed, AllocError> {
    let mut lists = Vec::new(alloc);
    for at in inputs {
        match plan.inputs().get(at.input as usize) {
            Some(input) if at.relay == relay => lists.push(input.list)?,
            _ => {}
        }
    }
    let classes = protected_classes(alloc, site)?;
    executed_from(alloc, plan, lists.as_slice(), classes.as_slice())
}

// Warns of what stands in a relay's file.
fn warn_of_script(
    warnings: &mut Warnings,
    site: &Site,
    relay: u32,
    reached: &Reached,
    texts: &SiteTexts<'_>,
    file: &RelayFile<'_>,
    script: &Script,
) -> Result<(), AllocError> {
    if relay >= site.relays() {
        return Ok(());
    }
    let plan = site.plan(relay);
    let classes = all_classes(warnings.alloc)?;
    let executed = executed_of(warnings.alloc, plan, classes.as_slice())?;
    let protected = reached.of_protected.as_slice();
    let kept = kept_of(warnings.alloc, site, relay, plan, protected)?;
    let items = items_of(warnings.alloc, script)?;
    let host = host_of(warnings.alloc, file.text)?;
    let looked = Looked {
        site,
        relay,
        plan,
        file: file.name,
        text: file.text,
        items: items.as_slice(),
        host: &host,
        executed: &executed,
        kept: &kept,
        reached: reached.of_any_class.as_slice(),
        protected,
        holders: reached.holders.as_slice(),
    };
    for item in items.as_slice() {
        warn_of_item(warnings, looked, *item);
        warn_of_item_by_outlet(warnings, texts, looked, *item)?;
    }
    Ok(())
}

// Warns of a relay that no message of an entry comes to.
fn warn_of_relay(
    warnings: &mut Warnings,
    site: &Site,
    relay: u32,
    reached: &Reached,
    site_name: &str,
    text: &[u8],
) {
    if reached.of_any_class.iter().any(|at| at.relay == relay) {
        return;
    }
    if let Some((line, _)) = relay_line(text, relay) {
        let note = unreached_relay(warnings.alloc, site, relay, site_name, line);
        warnings.push(Caution::UnreachedRelay, note);
    }
}

// Warns of what stands in the file of a relay, where that was read.
fn warn_of_file(
    warnings: &mut Warnings,
    texts: &SiteTexts<'_>,
    site: &Site,
    relay: u32,
    reached: &Reached,
) -> Result<(), AllocError> {
    match relay_file(warnings.alloc, texts.relay_text(relay))? {
        Some(file) => match &file.script {
            Some(script) => warn_of_script(warnings, site, relay, reached, texts, &file, script),
            None => Ok(()),
        },
        None => Ok(()),
    }
}

fn warn_of_site(
    warnings: &mut Warnings,
    texts: &SiteTexts<'_>,
    site: &Site,
    text: &[u8],
) -> Result<(), AllocError> {
    let reached = reached_of(warnings.alloc, site)?;
    warn_of_audit(warnings, site, texts.name, text);
    warn_of_tunnels(warnings, site, texts.name, text)?;
    warn_of_circles(warnings, texts, site, reached.of_protected.as_slice())?;
    for relay in 0..site.relays() {
        if warnings.is_full() {
            return Ok(());
        }
        warn_of_relay(warnings, site, relay, &reached, texts.name, text);
        warn_of_endpoint(warnings, texts, site, relay)?;
        warn_of_file(warnings, texts, site, relay, &reached)?;
    }
    Ok(())
}

/// What is unwise in a site, relay by relay, and for each in the order of its file.
pub fn warnings_of(
    alloc: Global,
    texts: &SiteTexts<'_>,
    site: &Site,
) -> Result<Vec<Warning>, AllocError> {
    let mut warnings = Warnings {
        alloc,
        list: Vec::new(alloc),
        is_cut: false,
    };
    if let Some(text) = texts.text() {
        warn_of_site(&mut warnings, texts, site, text)?;
    }
    warnings.finish()
}

// Puts the lines of a warning.
fn push_warning(words: &mut Words, warning: &Warning) {
    let note = &warning.note;
    words.say("warning: ");
    if let Some(place) = &note.place {
        append_place(words, place);
        words.say(": ");
    }
    words.append_in_line(note.what.as_slice());
    words.say("\n");
    append_line(words, "why", note.why.as_slice());
    append_line(words, "change", note.change.as_slice());
}

// Puts warnings as lines, each with its place, why it is unwise, and what to write.
fn append_warnings(words: &mut Words, warnings: &[Warning]) {
    for warning in warnings {
        push_warning(words, warning);
    }
}

/// The lines of the warnings of a site with these texts: none where it has none.
pub fn warning_lines(
    alloc: Global,
    texts: &SiteTexts<'_>,
    site: &Site,
) -> Result<Vec<u8>, AllocError> {
    let warnings = warnings_of(alloc, texts, site)?;
    let mut words = Words::new(alloc);
    append_warnings(&mut words, warnings.as_slice());
    words.finish()
}

// An answer with these lines behind its text.
fn with_lines(answer: Answer, lines: &[u8]) -> Result<Answer, AllocError>
    ensures text { IfOk result (λ a. a.text.items ≡ answer.text.items ++ lines.now) }
    ensures same { IfOk result (λ a. a.is_accepted ≡ answer.is_accepted) }
{
    let Answer {
        mut text,
        is_accepted,
    } = answer;
    text.extend_from_slice(lines)?;
    Ok(Answer { text, is_accepted })
}

// The same with the lines of the warnings of a site.
fn with_lines_of(
    alloc: Global,
    texts: &SiteTexts<'_>,
    site: &Site,
    answer: Answer,
) -> Result<Answer, AllocError>
    ensures same { IfOk result (λ a. a.is_accepted ≡ answer.is_accepted) }
    ensures more { IfOk result (λ a. (more : List ℕ) × (a.text.items ≡ answer.text.items ++ more)) }
{
    let lines = warning_lines(alloc, texts, site)?;
    with_lines(answer, lines.as_slice())
}

/// An answer with the warnings of its site behind its text. They change no verdict.
pub fn with_warnings(
    alloc: Global,
    texts: &SiteTexts<'_>,
    site: &Site,
    answer: Answer,
) -> Result<Answer, Halt>
    ensures same { IfOk result (λ a. a.is_accepted ≡ answer.is_accepted) }
    ensures more { IfOk result (λ a. (more : List ℕ) × (a.text.items ≡ answer.text.items ++ more)) }
    ensures err { IfErr result (λ halt. halt ≡ Halt.NoMemory) }
{
    match with_lines_of(alloc, texts, site, answer) {
        Ok(answer) => Ok(answer),
        Err(_) => Err(Halt::NoMemory),
    }
}
