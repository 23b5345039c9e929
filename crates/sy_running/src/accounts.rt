//! Whose files are that a relay makes, where its file names users and groups.

ghost use Rattle.std.specs.Prelude.{◌≡◌, List, Some, IfOk, ℕ};
ghost use Rattle.std.specs.Option.{option_copied};
ghost use Rattle.sy_running.specs.internal.Owners as spec;

use crate::explaining::NoDevice;
use std::fs;
use std::io::{Error, ErrorKind};
use sy_host_parameters::{ArchiveHost, RelayHost, account_number};
use sy_outlets::devices::opening::OpenFault;
use sy_report::texts::reason::Reason;

/// The host's tables of users and of groups (passwd(5), group(5)). Accounts that stand elsewhere have numbers alone here.
pub const USERS: &str = "/etc/passwd";

pub const GROUPS: &str = "/etc/group";

// Nothing is known of the account of a name: by the number of its action, the fault, and the reason why a table can't be read.
fn unknown(action: usize, fault: OpenFault, error: &Error) -> NoDevice {
    if error.kind() == ErrorKind::OutOfMemory {
        return NoDevice::without_memory(action);
    }
    NoDevice::without_account(action, fault, Some(Reason::of(error)))
}

// The number of the account of a name, by this table of the host; otherwise that fault.
fn number_in(
    host: HostRuntime,
    table: &str,
    name: &[u8],
    action: usize,
    fault: OpenFault,
) -> Result<u64, NoDevice>
    ensures { IfOk result (λ n. (text : List ℕ) × (spec.account_number text name.now ≡ Some n)) }
{
    match fs::read(&host, table) {
        Ok(text) => match account_number(text.as_slice(), name) {
            Some(number) => Ok(number),
            None => Err(NoDevice::without_account(action, fault, None)),
        },
        Err(error) => Err(unknown(action, fault, &error)),
    }
}

// The number that is given, else that of the account that is named.
fn number_by(
    host: HostRuntime,
    table: &str,
    number: Option<u64>,
    name: Option<&[u8]>,
    action: usize,
    fault: OpenFault,
) -> Result<Option<u64>, NoDevice>
    ensures { IfOk result (λ found. spec.IsAccount number (option_copied name.entry) found) }
{
    match (number, name) {
        (Some(number), _) => Ok(Some(number)),
        (None, None) => Ok(None),
        (None, Some(name)) => Ok(Some(number_in(host, table, name, action, fault)?)),
    }
}

/// What the host is to do for an action, with the numbers of the user and the group that are named.
pub fn with_owners(
    host: HostRuntime,
    does: &RelayHost,
    action: usize,
) -> Result<ArchiveHost, NoDevice>
    ensures { IfOk result (λ it. spec.HasOwners does.now action it) }
{
    let archive = does.archive(action);
    let (user, group) = (does.owner(action), does.group(action));
    let owner = number_by(host, USERS, archive.owner, user, action, OpenFault::NoUser)?;
    let group = number_by(
        host,
        GROUPS,
        archive.group,
        group,
        action,
        OpenFault::NoGroup,
    )?;
    Ok(ArchiveHost {
        is_synced: archive.is_synced,
        create_mode: archive.create_mode,
        owner,
        group,
        makes_folders: archive.makes_folders,
        may_be_any: archive.may_be_any,
        escapes: archive.escapes,
    })
}
