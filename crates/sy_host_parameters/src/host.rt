//! What the host of a relay is to do, by the relay's file.

ghost use Rattle.std.specs.Prelude.{◌≡◌, ◌++◌, IfOk, OnOk, flat_map, map};
ghost use Rattle.std.specs.Option.{option_copied};
ghost use Rattle.sy_rules.specs.items.ItemViews.{item as view};
ghost use Rattle.sy_rules.specs.items.Outline.{items as items_of};
ghost use Rattle.sy_host_parameters.specs.Hosts as spec;

use crate::given::{Given, given_in};
use crate::machine::script_of;
use crate::names::{ArchiveNames, names_of};
use crate::rows::HostParameter;
use std::alloc::{AllocError, Global};
use sy_rules::{Item, outline};
use sy_script::tree::{ObjectKind, Script};

/// What is done for an action; for a forward the usual.
#[derive(Clone, Copy)]
pub struct ArchiveHost {
    /// Whether what is written is on the disk before it counts as taken.
    pub is_synced: bool,
    /// The mode of the file, where it is made.
    pub create_mode: u64,
    /// The numbers of its owner and its group, where it is made; none where they aren't given so.
    pub owner: Option<u64>,
    pub group: Option<u64>,
    /// Whether folders of the file are made that aren't there.
    pub makes_folders: bool,
    /// Whether what isn't a regular file is written to.
    pub may_be_any: bool,
    /// Whether each message is one line, with escapes in the place of its control characters.
    pub escapes: bool,
}

/// What is done for an input. Times are seconds.
#[derive(Clone, Copy)]
pub struct ReceiverHost {
    /// The most connections at a time.
    pub max_sessions: u64,
    /// Whether a silent peer is asked whether it is still there: after so long, then again after so long, and so often.
    pub is_kept_alive: bool,
    pub time: u64,
    pub interval: u64,
    pub probes: u64,
}

/// What is done for a relay's actions, and for its inputs, each in the order of the text.
#[derive(Drop)]
pub struct RelayHost {
    archives: Vec<ArchiveHost>,
    names: Vec<ArchiveNames>,
    receivers: Vec<ReceiverHost>,
}

// What holds where nothing is given.
const USUAL_MODE: u64 = 0o640;

const USUAL: ReceiverHost = ReceiverHost {
    max_sessions: 10_000,
    is_kept_alive: true,
    time: 60,
    interval: 10,
    probes: 6,
};

// What a parameter says, where it is given.
fn value_in(found: &[Given], parameter: HostParameter) -> Option<u64>
    ensures { result ≡ spec.value_in parameter found.now }
{
    let mut rest = found;
    while let [given, after @ ..] = rest {
        if given.parameter.number() == parameter.number() {
            return Some(given.value);
        }
        rest = after;
    }
    None
}

// The number that is given, else the usual one.
fn number_in(found: &[Given], parameter: HostParameter, usual: u64) -> u64
    ensures { result ≡ spec.number_in parameter usual found.now }
{
    match value_in(found, parameter) {
        Some(value) => value,
        None => usual,
    }
}

fn archive_by(found: &[Given]) -> ArchiveHost
    ensures { result ≡ spec.archive_by found.now }
{
    ArchiveHost {
        is_synced: number_in(found, HostParameter::Sync, 0) == 1,
        create_mode: number_in(found, HostParameter::FileCreateMode, USUAL_MODE),
        owner: value_in(found, HostParameter::FileOwnerNum),
        group: value_in(found, HostParameter::FileGroupNum),
        makes_folders: number_in(found, HostParameter::CreateDirs, 0) == 1,
        may_be_any: number_in(found, HostParameter::FileType, 0) == 1,
        escapes: number_in(found, HostParameter::EscapeControlCharacters, 0) == 1,
    }
}

fn receiver_by(found: &[Given], usual: ReceiverHost) -> ReceiverHost
    ensures { result ≡ spec.receiver_by usual found.now }
{
    let is_kept = if usual.is_kept_alive { 1 } else { 0 };
    ReceiverHost {
        max_sessions: number_in(found, HostParameter::MaxSessions, usual.max_sessions),
        is_kept_alive: number_in(found, HostParameter::KeepAlive, is_kept) == 1,
        time: number_in(found, HostParameter::KeepAliveTime, usual.time),
        interval: number_in(found, HostParameter::KeepAliveInterval, usual.interval),
        probes: number_in(found, HostParameter::KeepAliveProbes, usual.probes),
    }
}

impl RelayHost {
    /// What is done for the action of this number; the usual where there is none.
    pub fn archive(&self, action: usize) -> ArchiveHost
        ensures { result ≡ spec.archive_at self.now.archives.items action }
    {
        match self.archives.get(action) {
            Some(does) => *does,
            None => archive_by(&[]),
        }
    }

    /// The name of the owner of the file of the action of this number; none where none is given.
    pub fn owner(&self, action: usize) -> Option<&[u8]>
        ensures { option_copied result ≡ spec.owner_at self.now.names.items action }
    {
        match self.names.get(action) {
            Some(names) => names.owner(),
            None => None,
        }
    }

    /// The name of its group.
    pub fn group(&self, action: usize) -> Option<&[u8]>
        ensures { option_copied result ≡ spec.group_at self.now.names.items action }
    {
        match self.names.get(action) {
            Some(names) => names.group(),
            None => None,
        }
    }

    /// What is done for the input of this number; the usual where there is none.
    pub fn receiver(&self, input: usize) -> ReceiverHost
        ensures { result ≡ spec.receiver_at self.now.receivers.items input }
    {
        match self.receivers.get(input) {
            Some(does) => *does,
            None => USUAL,
        }
    }
}

// Appends what is done for the action that an item is, where it is one.
fn append_archive(
    alloc: Global,
    archives: &mut Vec<ArchiveHost>,
    item: Item<'_>,
) -> Result<(), AllocError>
    ensures { OnOk result (archives.new.items ≡ archives.old.items ++ spec.archives_in (view item.entry)) }
{
    match item {
        Item::Action(_, _) => {
            let found = given_in(alloc, item)?;
            archives.push(archive_by(found.as_slice()))?;
            Ok(())
        }
        Item::Object(_, _, _) | Item::Ruleset(_, _) | Item::Call(_, _) | Item::Test(_) => Ok(()),
    }
}

fn archives_of(alloc: Global, items: &[Item<'_>]) -> Result<Vec<ArchiveHost>, AllocError>
    ensures { IfOk result (λ archives. archives.items ≡ flat_map spec.archives_in (map view items.now)) }
{
    let mut archives = Vec::new(alloc);
    let mut rest = items;
    while let [item, after @ ..] = rest {
        append_archive(alloc, &mut archives, *item)?;
        rest = after;
    }
    Ok(archives)
}

// Appends what a module gives for the inputs.
fn append_module(alloc: Global, found: &mut Vec<Given>, item: Item<'_>) -> Result<(), AllocError>
    ensures { OnOk result (found.new.items ≡ found.old.items ++ spec.given_in_module (view item.entry)) }
{
    match item {
        Item::Object(_, ObjectKind::Module, _) => {
            let given = given_in(alloc, item)?;
            found.extend_from_slice(given.as_slice())
        }
        Item::Object(_, _, _) | Item::Action(_, _) | Item::Ruleset(_, _) => Ok(()),
        Item::Call(_, _) | Item::Test(_) => Ok(()),
    }
}

// What holds for inputs that give nothing.
fn usual_of(alloc: Global, items: &[Item<'_>]) -> Result<ReceiverHost, AllocError>
    ensures { IfOk result (λ usual. usual ≡ spec.usual_of (map view items.now)) }
{
    let mut found = Vec::new(alloc);
    let mut rest = items;
    while let [item, after @ ..] = rest {
        append_module(alloc, &mut found, *item)?;
        rest = after;
    }
    Ok(receiver_by(found.as_slice(), USUAL))
}

// Appends what is done for the input that an item is, where it is one.
fn append_receiver(
    alloc: Global,
    receivers: &mut Vec<ReceiverHost>,
    usual: ReceiverHost,
    item: Item<'_>,
) -> Result<(), AllocError>
    ensures { OnOk result (receivers.new.items ≡ receivers.old.items ++ spec.receivers_in usual (view item.entry)) }
{
    match item {
        Item::Object(_, ObjectKind::Input, _) => {
            let found = given_in(alloc, item)?;
            receivers.push(receiver_by(found.as_slice(), usual))?;
            Ok(())
        }
        Item::Object(_, _, _) | Item::Action(_, _) | Item::Ruleset(_, _) => Ok(()),
        Item::Call(_, _) | Item::Test(_) => Ok(()),
    }
}

fn receivers_of(
    alloc: Global,
    usual: ReceiverHost,
    items: &[Item<'_>],
) -> Result<Vec<ReceiverHost>, AllocError>
    ensures { IfOk result (λ receivers. receivers.items ≡ flat_map (spec.receivers_in usual) (map view items.now)) }
{
    let mut receivers = Vec::new(alloc);
    let mut rest = items;
    while let [item, after @ ..] = rest {
        append_receiver(alloc, &mut receivers, usual, *item)?;
        rest = after;
    }
    Ok(receivers)
}

fn host_by(alloc: Global, script: &Script) -> Result<RelayHost, AllocError>
    ensures { IfOk result (λ host. spec.IsHostBy (items_of script.now) host) }
{
    let items = outline(alloc, script)?;
    let archives = archives_of(alloc, items.as_slice())?;
    let names = names_of(alloc, items.as_slice())?;
    let usual = usual_of(alloc, items.as_slice())?;
    let receivers = receivers_of(alloc, usual, items.as_slice())?;
    Ok(RelayHost {
        archives,
        names,
        receivers,
    })
}

/// What the host of a relay is to do, by the text of its file: nothing where that is no script.
pub fn host_of(alloc: Global, text: &[u8]) -> Result<RelayHost, AllocError>
    ensures { IfOk result (λ host. spec.IsHostOf text.now host) }
{
    match script_of(alloc, text)? {
        Some(script) => host_by(alloc, &script),
        None => Ok(RelayHost {
            archives: Vec::new(alloc),
            names: Vec::new(alloc),
            receivers: Vec::new(alloc),
        }),
    }
}
