//! What a relay notes to and writes to, made as it starts.
ghost use Rattle.std.specs.Prelude.{◌≡◌, ◌<◌, IfOk, length};

use crate::accounts::with_owners;
use crate::explaining::{NoDevice, explain_no_device};
use crate::own_files::OwnFiles;
use crate::unread_file::{Noting, UnreadWanted, unread_files};
use std::alloc::{AllocError, Global};
use std::sync::Arc;
use sy_endpoints::outlets::Outlet;
use sy_host::watching::noted::watch_of;
use sy_host_parameters::{ArchiveHost, RelayHost};
use sy_log::log::{ActionLog, Log};
use sy_log::unread_names::{UnreadNames, unread_names};
use sy_outlets::devices::host_device::HostDevice;
use sy_outlets::devices::opening::{OpenFault, Signals, taker};
use sy_outlets::unread_file::UnreadFile;
use sy_report::outcome::report::report_texts;
use sy_report::outcome::stop;
use sy_rules::Plan;
use sy_site::Site;
use sy_watched::file::MetricsFile;
use sy_watched::watch::Watch;
use sy_wire::Sink;

/// What the options of a relay that runs ask for of its files.
#[derive(Clone, Copy)]
pub struct Wanted<'a> {
    /// the name of the file for frames that carry no message, of inputs that name none
    pub unread: Option<&'a str>,
    /// the name of the file of the metrics, and after how many seconds it is written again
    pub metrics: Option<&'a str>,
    pub metrics_every: u32,
    /// what the host is to do for each action
    pub does: &'a RelayHost,
    /// the names of the site's files
    pub names: &'a [String],
    /// the name of the site file, where a fault of the start is explained
    pub explained: Option<&'a str>,
}

/// What a relay notes to, and what it writes to.
#[derive(Drop)]
pub struct Opened {
    pub log: Arc<Log>,
    pub watch: Watch,
    pub devices: Vec<HostDevice>,
    pub unread: Vec<UnreadFile>,
}

// Tells why there are no devices, and answers the exit status.
fn no_devices<E: Sink>(errors: &mut E, fault: OpenFault) -> u8 {
    let line: &[u8] = match fault {
        OpenFault::Write => return stop::write_failed(errors),
        OpenFault::NoMemory => return stop::out_of_memory(errors),
        OpenFault::NotRegular => b"syc: an archive is no regular file\n",
        OpenFault::Locked => b"syc: another process writes to an archive\n",
        OpenFault::NoUser => b"syc: an archive is for a user that this host doesn't have\n",
        OpenFault::NoGroup => b"syc: an archive is for a group that this host doesn't have\n",
    };
    report_texts(errors, &[line]);
    4
}

// Tells that an archive's file is somebody's already, and answers the exit status.
fn no_own_file<E: Sink>(errors: &mut E) -> u8 {
    report_texts(errors, &[b"syc: an archive has no file of its own\n"]);
    4
}

// The same for an action of a relay, with an explanation, where that is asked for.
fn no_device<E: Sink>(
    host: HostRuntime,
    site: &Site,
    relay: u32,
    wanted: Wanted<'_>,
    why: NoDevice,
    errors: &mut E,
) -> u8 {
    let status = match why.owner {
        Some(_) => no_own_file(errors),
        None => no_devices(errors, why.fault),
    };
    if let Some(name) = wanted.explained {
        explain_no_device(&host, name, site, relay, why, errors);
    }
    status
}

// The device of an action of this number, which notes in the log whether it fails.
fn device_of(
    host: HostRuntime,
    alloc: Global,
    outlet: (Outlet<'_>, ArchiveHost),
    signals: &Signals,
    log: &Arc<Log>,
    action: usize,
) -> Result<HostDevice, NoDevice> {
    let Ok(noted) = ActionLog::new(alloc, log, action) else {
        return Err(NoDevice::without_memory(action));
    };
    let Ok(theirs) = noted.try_clone() else {
        return Err(NoDevice::without_memory(action));
    };
    match taker(host, alloc, outlet, signals, theirs) {
        Ok(taker) => Ok(HostDevice::new(taker, noted)),
        Err(fault) => Err(NoDevice {
            action,
            fault,
            owner: None,
            reason: noted.take_reason(),
        }),
    }
}

// The same, whose file, where it has one, is nobody's else.
fn own_device(
    host: HostRuntime,
    alloc: Global,
    (outlet, does): (Outlet<'_>, ArchiveHost),
    files: &mut OwnFiles,
    signals: &Signals,
    log: &Arc<Log>,
    action: usize,
) -> Result<HostDevice, NoDevice> {
    if let Some(owner) = files.owner(&host, outlet, does) {
        return Err(NoDevice::owned(action, owner));
    }
    let device = device_of(host, alloc, (outlet, does), signals, log, action)?;
    match files.push(&host, outlet, does, action) {
        Ok(()) => Ok(device),
        Err(_) => Err(NoDevice::without_memory(action)),
    }
}

// What is watched of a relay, with its file, if there is to be one.
fn watch_with(
    host: HostRuntime,
    alloc: Global,
    site: &Site,
    relay: u32,
    log: &Log,
    wanted: Wanted<'_>,
) -> Result<Watch, AllocError>
    requires { relay < length site.now.relays }
{
    let file = match wanted.metrics {
        Some(name) => Some(MetricsFile::new(host, alloc, name, wanted.metrics_every)?),
        None => None,
    };
    watch_of(alloc, site.name(relay), site.plan(relay), log, file)
}

// A device for each of a relay's actions, in their order.
fn devices_of(
    host: HostRuntime,
    alloc: Global,
    outlets: &[Outlet<'_>],
    wanted: Wanted<'_>,
    signals: &Signals,
    log: &Arc<Log>,
) -> Result<Vec<HostDevice>, NoDevice>
    ensures { IfOk result (λ devices. length devices.items ≡ length outlets.now) }
{
    let mut devices = Vec::new(alloc);
    let Ok(mut files) = OwnFiles::of_site(&host, alloc, wanted.names) else {
        return Err(NoDevice::without_memory(0));
    };
    for outlet in outlets {
        let action = devices.len();
        let outlet = (*outlet, with_owners(host, wanted.does, action)?);
        let device = own_device(host, alloc, outlet, &mut files, signals, log, action)?;
        let Ok(()) = devices.push(device) else {
            return Err(NoDevice::without_memory(action));
        };
    }
    Ok(devices)
}

// The unread files of a relay of this plan, where that one is given for all inputs that name none.
fn names_of<'a>(
    alloc: Global,
    plan: &'a Plan,
    given: Option<&'a str>,
) -> Result<UnreadNames<'a>, AllocError> {
    let given = match given {
        Some(file) => Some(file.as_bytes()),
        None => None,
    };
    unread_names(alloc, plan.inputs(), given)
}

/// The log of a relay, what is watched of it, and its files, which are opened; or the exit status.
pub fn open_all<'a, E: Sink>(
    host: HostRuntime,
    site: &'a Site,
    relay: u32,
    outlets: &[Outlet<'_>],
    wanted: Wanted<'a>,
    signals: &Signals,
    errors: &mut E,
) -> Result<Opened, u8>
    requires exists { relay < length site.now.relays }
    ensures { IfOk result (λ opened. length opened.devices.items ≡ length outlets.now) }
{
    let alloc = host.alloc();
    let plan = site.plan(relay);
    let Ok(files) = names_of(alloc, plan, wanted.unread) else {
        return Err(stop::out_of_memory(errors));
    };
    let Ok(log) = Log::new(alloc, plan, &files) else {
        return Err(stop::out_of_memory(errors));
    };
    let Ok(watch) = watch_with(host, alloc, site, relay, &log, wanted) else {
        return Err(stop::out_of_memory(errors));
    };
    let devices = match devices_of(host, alloc, outlets, wanted, signals, &log) {
        Ok(devices) => devices,
        Err(why) => return Err(no_device(host, site, relay, wanted, why, errors)),
    };
    let unread = UnreadWanted {
        site,
        relay,
        name: site.name(relay),
        files: &files,
        is_given: wanted.unread.is_some(),
        explained: wanted.explained,
    };
    let noting = Noting { log: &log, signals };
    let unread = unread_files(&host, unread, noting, errors)?;
    Ok(Opened {
        log,
        watch,
        devices,
        unread,
    })
}
