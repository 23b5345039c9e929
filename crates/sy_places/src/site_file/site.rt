//! A site, from the files that name it.
ghost use Rattle.std.specs.Prelude.{◌≡◌, ◌⊎◌, ◌∷◌, [], ℕ, List, Some, IfErr, IfOk, IfSome, OnOk, map, string_bytes};
ghost use Rattle.sy_site.specs.texts.Describes.{Describes, file};
ghost use Rattle.sy_site.specs.texts.Files as texts;
ghost use Rattle.sy_site.specs.texts.HasFault.{HasFault};
ghost use Rattle.sy_tunnels.specs.Tunnels.{NameLinks, machine_text};
ghost use Rattle.sy_host_parameters.specs.HostParameters.{IsMachineText, machine_or};
ghost use Rattle.sy_places.specs.SiteFiles.{AreFilesOf, AreGiven, AreMachineFiles, IsFaultWith, IsSiteOf};
ghost use Rattle.sy_places.specs.internal.Halts.{HasSiteHalt, IsHaltOf, file_of, machine_file_of};
ghost use Rattle.sy_places.specs.Halts.{IsNoSite, IsReadHalt, IsUnread};

use crate::site_file::texts::{RelayText, SiteText, SiteTexts};
use std::alloc::{AllocError, Global};
use sy_host_parameters::machine as host_parameters;
use sy_report::outcome::halt::Halt;
use sy_report::reading::files::{FileFault, Files};
use sy_site::{Site, SiteFault, file_names};
use sy_tunnels::{machine_text, tunnels_of};

/// A site as it was read, or why there is none, and the texts that were read for it.
#[derive(Drop)]
pub struct ReadSite<'a> {
    pub texts: SiteTexts<'a>,
    pub site: Result<Site, Halt>,
}

fn read_file<F: Files>(files: &F, name: &str) -> Result<Vec<u8>, Halt>
    ensures ok { IfOk result (λ v. IfSome (F.bytes_of files.now name.now) (λ bytes. v.items ≡ bytes)) }
    ensures err { IfErr result (λ halt. (halt ≡ Halt.NoMemory) ⊎ (halt ≡ Halt.ReadFailed)) }
    ensures unread { IfErr result (IsUnread (F.may_fail files.now) (name.now ∷ [])) }
{
    match files.read(name) {
        Ok(bytes) => Ok(bytes),
        Err(FileFault::Read) => Err(Halt::ReadFailed),
        Err(FileFault::NoMemory) => Err(Halt::NoMemory),
    }
}

// A relay's file of that name and text.
fn relay_text(alloc: Global, name: String, text: Vec<u8>) -> Result<RelayText, AllocError>
    ensures same { IfOk result (λ read. (read.name ≡ name) × (read.text ≡ text)) }
    ensures machine { IfOk result (λ read. IsMachineText read.text.items (machine_or read.text.items read.machine)) }
{
    let machine = host_parameters::machine_text(alloc, text.as_slice())?;
    Ok(RelayText {
        name,
        text,
        machine,
    })
}

// The files of these names, in their order.
fn read_files<F: Files>(
    alloc: Global,
    files: &F,
    names: Vec<String>,
) -> Result<Vec<RelayText>, Halt>
    ensures ok { IfOk result (λ found. AreGiven (F.bytes_of files.now) (map file_of found.items)) }
    ensures machines { IfOk result (λ found. AreMachineFiles (map file_of found.items) (map machine_file_of found.items)) }
    ensures names { IfOk result (λ found. map (λ f. string_bytes f.name) found.items ≡ map string_bytes names.items) }
    ensures err { IfErr result (λ halt. (halt ≡ Halt.NoMemory) ⊎ (halt ≡ Halt.ReadFailed)) }
    ensures unread { IfErr result (IsUnread (F.may_fail files.now) (map string_bytes names.items)) }
{
    let mut found = Vec::new(alloc);
    for name in names {
        let text = read_file(files, name.as_str())?;
        let Ok(read) = relay_text(alloc, name, text) else {
            return Err(Halt::NoMemory);
        };
        let Ok(()) = found.push(read) else {
            return Err(Halt::NoMemory);
        };
    }
    Ok(found)
}

fn lend(alloc: Global, files: &[RelayText]) -> Result<Vec<(&str, &[u8])>, AllocError>
    ensures { IfOk result (λ lent. map (λ f. file f.0.now f.1.now) lent.items ≡ map machine_file_of files.now) }
{
    let mut lent = Vec::new(alloc);
    for file in files {
        lent.push((file.name.as_str(), file.machine_text()))?;
    }
    Ok(lent)
}

// The files that a site file of this text names.
fn files_of<F: Files>(alloc: Global, files: &F, text: &[u8]) -> Result<Vec<RelayText>, Halt>
    ensures ok { IfOk result (λ found. AreFilesOf (F.bytes_of files.now) text.now (map file_of found.items)) }
    ensures machines { IfOk result (λ found. AreMachineFiles (map file_of found.items) (map machine_file_of found.items)) }
    ensures err { IfErr result (IsNoSite (F.bytes_of files.now) text.now) }
    ensures kind { IfErr result IsReadHalt }
    ensures unread { IfErr result (IsUnread (F.may_fail files.now) (texts.file_names text.now)) }
{
    match file_names(alloc, text) {
        Ok(names) => read_files(alloc, files, names),
        Err(SiteFault::NoMemory) => Err(Halt::NoMemory),
        Err(fault) => Err(Halt::Site(fault)),
    }
}

fn halt_of(fault: SiteFault) -> Halt
    ensures { IsHaltOf fault result }
{
    match fault {
        SiteFault::NoMemory => Halt::NoMemory,
        fault => Halt::Site(fault),
    }
}

// The site of a text, without its tunnel lines, and of the files that it names, without their parameters for the host.
fn site_in(alloc: Global, machine: &[u8], files: &[RelayText]) -> Result<Site, SiteFault>
    ensures ok { IfOk result (λ site. Describes machine.now (map machine_file_of files.now) site) }
    ensures err { IfErr result (λ fault. (fault ≡ SiteFault.NoMemory) ⊎ HasFault machine.now (map machine_file_of files.now) fault) }
{
    let Ok(lent) = lend(alloc, files) else {
        return Err(SiteFault::NoMemory);
    };
    Site::read(alloc, machine, lent.as_slice())
}

// The site of a text and the files that it names, whose tunnel lines name links of it.
fn site_of_files(
    alloc: Global,
    text: &[u8],
    machine: &[u8],
    files: &[RelayText],
) -> Result<Site, SiteFault>
    requires machine { machine.now ≡ machine_text text.now }
    ensures ok { IfOk result (λ site. Describes (machine_text text.now) (map machine_file_of files.now) site) }
    ensures links { IfOk result (λ site. NameLinks site text.now) }
    ensures err { IfErr result (λ fault. (fault ≡ SiteFault.NoMemory) ⊎ IsFaultWith text.now (map machine_file_of files.now) fault) }
{
    let site = site_in(alloc, machine, files)?;
    tunnels_of(alloc, &site, text)?;
    Ok(site)
}

// The texts of a site file, of that text for its machine, and of the files that it names, and the site that they describe.
fn site_with<'a>(
    alloc: Global,
    name: &'a str,
    text: Vec<u8>,
    machine: Vec<u8>,
    found: Vec<RelayText>,
) -> ReadSite<'a>
    requires machine { machine.items ≡ machine_text text.items }
    ensures ok { IfOk result.site (λ site. Describes (machine_text text.items) (map machine_file_of found.items) site) }
    ensures links { IfOk result.site (λ site. NameLinks site text.items) }
    ensures err { IfErr result.site (HasSiteHalt text.items (map machine_file_of found.items)) }
{
    let site = match site_of_files(alloc, text.as_slice(), machine.as_slice(), found.as_slice()) {
        Ok(site) => Ok(site),
        Err(fault) => Err(halt_of(fault)),
    };
    ReadSite {
        texts: SiteTexts::new(alloc, name, Some(SiteText { text, machine }), found),
        site,
    }
}

// The site that a file of this text describes with the files that it names, and the texts of all of them.
fn site_of<'a, F: Files>(alloc: Global, files: &F, name: &'a str, text: Vec<u8>) -> ReadSite<'a>
    ensures ok { IfOk result.site (IsSiteOf (F.bytes_of files.now) text.items) }
    ensures err { IfErr result.site (IsNoSite (F.bytes_of files.now) text.items) }
    ensures kind { IfErr result.site IsReadHalt }
    ensures unread { IfErr result.site (IsUnread (F.may_fail files.now) (texts.file_names text.items)) }
{
    let Ok(machine) = machine_text(alloc, text.as_slice()) else {
        return ReadSite {
            texts: SiteTexts::empty(alloc, name),
            site: Err(Halt::NoMemory),
        };
    };
    match files_of(alloc, files, text.as_slice()) {
        Ok(found) => site_with(alloc, name, text, machine, found),
        Err(halt) => ReadSite {
            texts: SiteTexts::new(
                alloc,
                name,
                Some(SiteText { text, machine }),
                Vec::new(alloc),
            ),
            site: Err(halt),
        },
    }
}

/// The site that the site file of this name, with the files that it names, describes, and the texts that were read.
pub fn read_site<'a, F: Files>(alloc: Global, files: &F, name: &'a str) -> ReadSite<'a>
    ensures ok { IfOk result.site (λ site. (text : List ℕ) → F.bytes_of files.now name.now ≡ Some text →
        IsSiteOf (F.bytes_of files.now) text site) }
    ensures err { IfErr result.site (λ halt. (text : List ℕ) → F.bytes_of files.now name.now ≡ Some text →
        IsNoSite (F.bytes_of files.now) text halt) }
    ensures kind { IfErr result.site IsReadHalt }
    ensures unread { IfErr result.site (λ halt. (text : List ℕ) → F.bytes_of files.now name.now ≡ Some text →
        IsUnread (F.may_fail files.now) (name.now ∷ texts.file_names text) halt) }
{
    match read_file(files, name) {
        Ok(text) => site_of(alloc, files, name, text),
        Err(halt) => ReadSite {
            texts: SiteTexts::empty(alloc, name),
            site: Err(halt),
        },
    }
}
