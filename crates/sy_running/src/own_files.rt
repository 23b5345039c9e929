//! Whether each archive has a file of its own: none of the site's, and none of another action.

use std::alloc::{AllocError, Global};
use std::os::unix::fs::MetadataExt;
use std::{fs, str};
use sy_endpoints::outlets::Outlet;
use sy_host_parameters::ArchiveHost;

/// Whose a file is already.
#[derive(Clone, Copy)]
pub enum Owner {
    /// The site: it is its site file, or the file of a relay.
    Site,
    /// An action, by its number.
    Action(usize),
}

/// A file of the host: its file system's number and its own there, and whose it is.
#[derive(Clone, Copy)]
struct Owned {
    device: u64,
    number: u64,
    owner: Owner,
}

/// The files that are somebody's.
#[derive(Drop)]
pub struct OwnFiles {
    owned: Vec<Owned>,
}

// The file of a name as it is somebody's, where it is there.
fn owned_by(rt: &HostRuntime, name: &str, owner: Owner) -> Option<Owned> {
    match fs::metadata(rt, name) {
        Ok(about) => Some(Owned {
            device: about.dev(),
            number: about.ino(),
            owner,
        }),
        Err(_) => None,
    }
}

// The name of the file that an action has for itself; none where it has none, or may share it.
fn name_of<'a>(outlet: Outlet<'a>, does: ArchiveHost) -> Option<&'a str> {
    match outlet {
        Outlet::File(name) if !does.may_be_any => str::from_utf8(name).ok(),
        _ => None,
    }
}

impl OwnFiles {
    /// Those of a site, by their names.
    pub fn of_site(
        rt: &HostRuntime,
        alloc: Global,
        names: &[String],
    ) -> Result<OwnFiles, AllocError> {
        let mut owned = Vec::new(alloc);
        for name in names {
            if let Some(file) = owned_by(rt, name.as_str(), Owner::Site) {
                owned.push(file)?;
            }
        }
        Ok(OwnFiles { owned })
    }

    /// Whose the file of an action is already.
    pub fn owner(&self, rt: &HostRuntime, outlet: Outlet<'_>, does: ArchiveHost) -> Option<Owner> {
        let name = name_of(outlet, does)?;
        let file = owned_by(rt, name, Owner::Site)?;
        self.owned
            .iter()
            .find(|owned| owned.device == file.device && owned.number == file.number)
            .map(|owned| owned.owner)
    }

    /// Notes that the file of an action, which is open, is its own.
    pub fn push(
        &mut self,
        rt: &HostRuntime,
        outlet: Outlet<'_>,
        does: ArchiveHost,
        action: usize,
    ) -> Result<(), AllocError> {
        let Some(name) = name_of(outlet, does) else {
            return Ok(());
        };
        if let Some(file) = owned_by(rt, name, Owner::Action(action)) {
            self.owned.push(file)?;
        }
        Ok(())
    }
}
