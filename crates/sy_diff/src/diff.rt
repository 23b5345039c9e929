//! The command that says whether a site is worse than the one before.
ghost use Rattle.std.specs.Prelude.{◌≡◌, ◌≢◌, ◌≤◌, ◌⊎◌, IfErr, IfOk, true, false};
ghost use Rattle.std.specs.Io.KnownBytes.{Keeps};
ghost use Rattle.sy_diff.specs.Diffs as spec;

use crate::comparison::{Change, Comparison, Rename, compare, empty_comparisons_are_no_worse};
use crate::document::documented;
use crate::folder::{FilesIn, Place, place_of};
use crate::telling::{Texts, told};
use std::alloc::{AllocError, Global};
use sy_places::site_file::site::{ReadSite, read_site};
use sy_places::site_file::texts::{SiteTexts, read_rest};
use sy_report::outcome::answer::{Answer, print, stop};
use sy_report::outcome::halt::Halt;
use sy_report::outcome::report::report_texts;
use sy_report::reading::files::Files;
use sy_report::writing::outputs::Outputs;
use sy_site::Site;
use sy_site::machine::sound_sites_are_safe;
use sy_wire::Sink;

/// In which form a comparison is printed.
#[derive(Clone, Copy)]
pub enum Form {
    /// A line for each difference.
    Lines,
    /// The same, each finding with where it is, why, and what to change.
    Explained,
    /// A JSON document.
    Document,
}

/// The site files before and after a change, and the relays that got other names.
#[derive(Clone, Copy)]
pub struct Wanted<'a> {
    pub old: &'a str,
    pub new: &'a str,
    pub renames: &'a [Rename<'a>],
    pub form: Form,
}

// Why there is no comparison: the site file whose site isn't one, where it is of a file, and why.
#[derive(Drop)]
struct Stop<'a> {
    file: Option<&'a str>,
    halt: Halt,
}

// A site, and the texts that it was read from.
#[derive(Drop)]
struct Known<'a> {
    site: Site,
    texts: SiteTexts<'a>,
}

// The site of a site file; the files that it names are looked for in its folder.
fn site_of<'a, F: Files>(alloc: Global, files: &F, path: &'a str) -> Result<Known<'a>, Stop<'a>>
    ensures ok { IfOk result (λ known. spec.IsSiteAt F.bytes_of files.now path.now known.site) }
    ensures err { IfErr result (λ stop. spec.IsNoSiteAt F.bytes_of files.now path.now stop.halt) }
{
    let Place { folder, name } = place_of(path);
    let files = FilesIn {
        alloc,
        files,
        folder,
    };
    let ReadSite { mut texts, site } = read_site(alloc, &files, name);
    match site {
        Ok(site) => match read_rest(alloc, &files, &mut texts) {
            Ok(()) => Ok(Known { site, texts }),
            Err(_) => Err(Stop {
                file: None,
                halt: Halt::NoMemory,
            }),
        },
        Err(halt) => Err(Stop {
            file: Some(path),
            halt,
        }),
    }
}

// What is said of a change.
fn text_of(
    alloc: Global,
    change: Change<'_>,
    comparison: &Comparison,
    texts: Texts<'_>,
    form: Form,
) -> Result<Vec<u8>, AllocError> {
    match form {
        Form::Lines => told(alloc, change, comparison, None),
        Form::Explained => told(alloc, change, comparison, Some(texts)),
        Form::Document => documented(alloc, change, comparison),
    }
}

// The same, and whether the change is accepted.
fn said(alloc: Global, change: Change<'_>, texts: Texts<'_>, form: Form) -> Result<Answer, Halt>
    ensures ok { IfOk result (λ a. spec.IsJudged change.entry a.is_accepted) }
    ensures err { IfErr result (λ halt. halt ≡ Halt.NoMemory) }
{
    empty_comparisons_are_no_worse();
    sound_sites_are_safe();
    change.new.is_lawful();
    let Ok(comparison) = compare(alloc, change) else {
        return Err(Halt::NoMemory);
    };
    match text_of(alloc, change, &comparison, texts, form) {
        Ok(text) => Ok(Answer {
            text,
            is_accepted: comparison.is_empty(),
        }),
        Err(_) => Err(Halt::NoMemory),
    }
}

// The same of two site files.
fn answer_of<'a, F: Files>(alloc: Global, files: &F, wanted: Wanted<'a>) -> Result<Answer, Stop<'a>>
    ensures ok { IfOk result (λ a. spec.IsJudgedAt F.bytes_of files.now wanted.entry a.is_accepted) }
    ensures err { IfErr result (λ stop. (stop.halt ≡ Halt.NoMemory) ⊎ spec.LackASite F.bytes_of files.now wanted.entry stop.halt) }
{
    let old = site_of(alloc, files, wanted.old)?;
    let new = site_of(alloc, files, wanted.new)?;
    let change = Change {
        old: &old.site,
        new: &new.site,
        renames: wanted.renames,
    };
    let texts = Texts {
        old: &old.texts,
        new: &new.texts,
    };
    match said(alloc, change, texts, wanted.form) {
        Ok(answer) => Ok(answer),
        Err(halt) => Err(Stop { file: None, halt }),
    }
}

/// Compares the sites of two site files and prints what was lost. It answers the exit status: 0 where the new one is no worse, 1 where it
/// is, 2 at a faulty site, 3 where memory runs out, and 4 where a read or write failed.
pub fn diff<F: Files, W: Sink, E: Sink>(
    alloc: Global,
    files: &F,
    wanted: Wanted<'_>,
    out: &mut Outputs<W, E>,
) -> u8
    ensures no_worse { result ≡ 0 → spec.IsJudgedAt F.bytes_of files.now wanted.entry true }
    ensures worse { result ≡ 1 → spec.IsJudgedAt F.bytes_of files.now wanted.entry false }
    ensures faulty { result ≡ 2 → spec.AreFaulty F.bytes_of files.now wanted.entry }
    ensures status { result ≤ 4 }
    ensures none_failed { result ≢ 4 → out.new.output.faults ≡ out.old.output.faults }
{
    match answer_of(alloc, files, wanted) {
        Ok(answer) => print(Ok(answer), out),
        Err(Stop { file, halt }) => {
            if let Some(file) = file {
                report_texts(&mut out.errors, &[b"syc: of ", file.as_bytes(), b":\n"]);
            }
            stop(out, &halt)
        }
    }
}
