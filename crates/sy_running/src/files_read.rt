//! What the files of a site say beside the site: which they are, and what the relay's host is to do.

use std::alloc::{AllocError, Global};
use sy_commands::identity::{Identity, identity_of};
use sy_host_parameters::{RelayHost, host_of};
use sy_places::relay_file::places::{file_name_in, is_relay_line};
use sy_places::site_file::texts::{RelayText, SiteTexts};
use sy_site::{file_names, without_return};

/// Which files a relay runs by, their names, and what its host is to do by them.
#[derive(Drop)]
pub struct FilesRead {
    pub identity: Identity,
    pub names: Vec<String>,
    pub does: RelayHost,
}

// The file of a relay by its number, which is that of its line among the relay lines.
fn file_of<'t>(texts: &'t SiteTexts<'_>, relay: u32) -> Option<&'t RelayText> {
    let mut number: u32 = 0;
    for line in texts.text()?.split(|b| *b == b'\n') {
        let line = without_return(line);
        if is_relay_line(line) {
            if number == relay {
                return texts.file(file_name_in(line)?);
            }
            number = number.saturating_add(1);
        }
    }
    None
}

// What a relay's host is to do.
fn host_in(alloc: Global, texts: &SiteTexts<'_>, relay: u32) -> Result<RelayHost, AllocError> {
    match file_of(texts, relay) {
        Some(file) => host_of(alloc, file.text.as_slice()),
        None => host_of(alloc, b""),
    }
}

// The names of a site's files, its own last.
fn names_of(alloc: Global, texts: &SiteTexts<'_>) -> Option<Vec<String>> {
    let mut names = file_names(alloc, texts.text()?).ok()?;
    let own = String::from_str(alloc, texts.name).ok()?;
    names.push(own).ok()?;
    Some(names)
}

/// These, by the texts of a site that was read, and a relay's number; none where memory runs out.
pub fn files_read(alloc: Global, texts: &SiteTexts<'_>, relay: u32) -> Option<FilesRead> {
    let identity = identity_of(alloc, texts)?;
    let names = names_of(alloc, texts)?;
    let does = host_in(alloc, texts, relay).ok()?;
    Some(FilesRead {
        identity,
        names,
        does,
    })
}
