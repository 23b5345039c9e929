//! A site as a command reads it.
ghost use Rattle.std.specs.Prelude.{◌≡◌, ◌∷◌, ℕ, List, ◌⊎◌, Err, Some, IfErr, IfOk};
ghost use Rattle.sy_site.specs.texts.Files.{file_names};
ghost use Rattle.sy_places.specs.SiteFiles.{IsSiteOf};
ghost use Rattle.sy_places.specs.Halts.{IsNoSite, IsReadHalt, IsUnread};

use crate::commands::is_any;
use std::alloc::Global;
use sy_places::site_file::site::{ReadSite, read_site};
use sy_places::site_file::texts::{SiteTexts, read_rest};
use sy_report::command_line::options::Options;
use sy_report::outcome::halt::Halt;
use sy_report::reading::files::Files;
use sy_site::Site;

// A site whose words find no memory: why there is none stands, where there is none.
fn without_memory(site: Result<Site, Halt>) -> Result<Site, Halt>
    ensures ok { IfOk result (λ _. ⊥) }
    ensures err { IfErr result (λ halt. (halt ≡ Halt.NoMemory) ⊎ (site ≡ Err halt)) }
{
    match site {
        Ok(_) => Err(Halt::NoMemory),
        Err(halt) => Err(halt),
    }
}

/// Reads the site that the site file of this name, with the files that it names, describes and, where an option is given,
/// what words on it ask for. The texts are those that were read.
pub fn read_for<'a, F: Files>(
    alloc: Global,
    files: &F,
    texts: &mut SiteTexts<'a>,
    options: Options,
    name: &'a str,
) -> Result<Site, Halt>
    ensures ok { IfOk result (λ site. (text : List ℕ) → F.bytes_of files.now name.now ≡ Some text →
        IsSiteOf (F.bytes_of files.now) text site) }
    ensures err { IfErr result (λ halt. (text : List ℕ) → F.bytes_of files.now name.now ≡ Some text →
        IsNoSite (F.bytes_of files.now) text halt) }
    ensures kind { IfErr result IsReadHalt }
    ensures unread { IfErr result (λ halt. (text : List ℕ) → F.bytes_of files.now name.now ≡ Some text →
        IsUnread (F.may_fail files.now) (name.now ∷ file_names text) halt) }
{
    let ReadSite { texts: read, site } = read_site(alloc, files, name);
    *texts = read;
    if !is_any(options) {
        return site;
    }
    match read_rest(alloc, files, texts) {
        Ok(()) => site,
        Err(_) => without_memory(site),
    }
}
