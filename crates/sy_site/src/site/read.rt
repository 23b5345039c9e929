//! The site that texts describe.

ghost use Rattle.std.specs.Prelude.{◌≡◌, ◌⊎◌, map, IfOk, IfErr};
ghost use Rattle.sy_site.specs.texts.Describes.{file, Describes};
ghost use Rattle.sy_site.specs.Sites as spec;
ghost use Rattle.sy_site.specs.texts.HasFault.{HasFault};

use super::Site;
use super::protected::protects;
use super::targets::targets_of;
use crate::fault::SiteFault;
use crate::texts::outsides::outsides;
use crate::texts::reading::{policy, read_lines};
use crate::texts::references::{entries, protections, spares, whole_entries};
use crate::texts::relays::relays;
use std::alloc::Global;

impl Site {
    // The site of these texts, or a fault that is there.
    fn of_texts(alloc: Global, text: &[u8], files: &[(&str, &[u8])]) -> Result<Site, SiteFault>
        ensures site { IfOk result (λ site. Describes text.now (map (λ f. file f.0.now f.1.now) files.now) site) }
        ensures err { IfErr result (λ fault. (fault ≡ SiteFault.NoMemory)
            ⊎ HasFault text.now (map (λ f. file f.0.now f.1.now) files.now) fault) }
    {
        let found = read_lines(alloc, text)?;
        let relays = relays(alloc, found.as_slice(), files)?;
        let entries = entries(alloc, found.as_slice(), relays.as_slice())?;
        let whole_entries = whole_entries(alloc, found.as_slice(), relays.as_slice())?;
        let policy = policy(found.as_slice());
        // Their faults are told behind those of the protect lines, which use up what was read.
        let named = spares(alloc, found.as_slice(), relays.as_slice());
        let outsides = outsides(alloc, found.as_slice())?;
        let protections = protections(alloc, found, relays.as_slice())?;
        let spares = named?;
        if entries.is_empty() || !protects(protections.as_slice()) {
            return Err(SiteFault::NothingProtected);
        }
        let Ok(targets) = targets_of(alloc, relays.as_slice()) else {
            return Err(SiteFault::NoMemory);
        };
        Ok(Site {
            policy,
            relays,
            entries,
            whole_entries,
            protections,
            spares,
            outsides,
            targets,
        })
    }

    /// The site that a site file and the files of its relays describe. Of two files of one name the first counts.
    ///
    /// Refuses texts with a fault, for the first of these: of the lines by themselves (51, 52), of the relays' files
    /// (53, 57), of the entry lines (51, 54), of the protect lines (51, 55), of the spare lines (51, 59, 60), and where
    /// nothing is protected (56); of those of one kind, for the first in the text.
    ///
    /// Its time is linear in the text and in the files, where a file counts as often as relay lines name it: it is
    /// loaded for each of them. Beside that, each line is compared with the earlier ones of its kind, 255 at most, up
    /// to the first word that differs, so that many long lines that begin alike may take 255 times the text; and what
    /// a line names is looked up one by one: its file among all files, a relay among at most 64, a port or an
    /// action among those of its plan, and a spare action among those of at most 256 protect lines.
    pub fn read(alloc: Global, text: &[u8], files: &[(&str, &[u8])]) -> Result<Site, SiteFault>
        ensures site { IfOk result (λ site. Describes text.now (map (λ f. file f.0.now f.1.now) files.now) site) }
        // What is refused is there, or memory ran out.
        ensures err { IfErr result (λ fault. (fault ≡ SiteFault.NoMemory)
            ⊎ HasFault text.now (map (λ f. file f.0.now f.1.now) files.now) fault) }
        // Texts that describe a site are refused for memory alone.
        ensures only { (site : spec.Site) → Describes text.now (map (λ f. file f.0.now f.1.now) files.now) site
            → IfErr result (λ fault. fault ≡ SiteFault.NoMemory) }
    {
        match Site::of_texts(alloc, text, files) {
            Ok(site) => Ok(site),
            Err(fault) => Err(fault),
        }
    }
}
