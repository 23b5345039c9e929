//! Which files a site has, by the sum over them.

use sha2::{Digest, Sha256};
use std::alloc::Global;
use sy_places::site_file::texts::SiteTexts;
use sy_site::file_names;

/// The SHA-256 over a site file and the files that it names, as they were read, in the order in which they were read; and how
/// many they are.
#[derive(Clone, Copy)]
pub struct Identity {
    pub sum: [u8; 32],
    pub files: u64,
}

/// The same of the files of a site that was read; none where there is no memory.
pub fn identity_of(alloc: Global, texts: &SiteTexts<'_>) -> Option<Identity> {
    let site = texts.text()?;
    let names = file_names(alloc, site).ok()?;
    let mut hasher = Sha256::new();
    hasher.update(site);
    let mut files: u64 = 1;
    for name in names.as_slice() {
        let file = texts.file(name.as_str())?;
        hasher.update(file.text.as_slice());
        files = files.saturating_add(1);
    }
    Some(Identity {
        sum: hasher.finalize(),
        files,
    })
}
