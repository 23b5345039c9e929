//! A site drawn, as a text that Graphviz reads.
ghost use Rattle.std.specs.Prelude.{◌≡◌, ◌≢◌, ◌≤◌, ◌∷◌, ◌⊎◌, ℕ, List, Some, IfErr, IfOk, codes, option_map, true};
ghost use Rattle.std.specs.Io.KnownBytes.{Keeps};
ghost use Rattle.std.specs.List.{Any};
ghost use Rattle.sy_site.specs.Sites.{Site as AnySite};
ghost use Rattle.sy_site.specs.texts.Files.{file_names};
ghost use Rattle.sy_commands.specs.Graphs.{GraphIs, no_class_report};
ghost use Rattle.sy_commands.specs.Outcomes.{AnswersOf, FailsBy};
ghost use Rattle.sy_report.specs.Reports.{HasReported, said};
ghost use Rattle.sy_places.specs.SiteFiles.{IsSiteOf};
ghost use Rattle.sy_places.specs.Halts.{IsNoSite, IsUnread};

use crate::identity::{Identity, identity_of};
use hex::encode;
use std::alloc::{AllocError, Global};
use sy_checker::check_site;
use sy_drawing::arrow::push_outside;
use sy_drawing::class::{class_named, one_of};
use sy_drawing::foot::append_foot;
use sy_drawing::node::{Drawing, marks_of};
use sy_drawing::overview::{MOST_IN_FULL, push_box, push_links};
use sy_drawing::reach::reach_of;
use sy_drawing::relay::push_relay;
use sy_drawing::text::{
    AROUND, BELOW, BOXED, BOXES, HEAD, LEGEND, LEGEND_OF_ONE, MARKS, push_name,
};
use sy_places::site_file::site::{ReadSite, read_site};
use sy_places::ways::executed::protected_classes;
use sy_report::outcome::answer::{Answer, print};
use sy_report::outcome::halt::Halt;
use sy_report::outcome::report::report_texts;
use sy_report::outcome::stop::out_of_memory;
use sy_report::reading::files::Files;
use sy_report::texts::parts::{Part, action_name, input_part, relay_name};
use sy_report::texts::words::Words;
use sy_report::writing::outputs::Outputs;
use sy_site::Site;
use sy_site::finding::{Finding, Kind, Refusal};
use sy_wire::{Class, Sink};

/// How much of a site is drawn.
#[derive(Clone, Copy)]
pub enum Extent {
    /// Each relay in full, where the site has at most 12 of them; else an overview.
    Fitting,
    /// Each relay in full, and below them the name of the site file, the date by the days since the first of 1970, where
    /// that is known, and the SHA-256 over the site's files.
    Full(Option<u64>),
}

impl Extent {
    fn is_full(self, site: &Site) -> bool {
        match self {
            Extent::Fitting => site.relays() <= MOST_IN_FULL,
            Extent::Full(_) => true,
        }
    }
}

// ---- the title

fn append_finding(words: &mut Words, site: &Site, finding: &Finding) {
    words.append(&[
        Part::Text(b"refused: "),
        Part::Class(finding.class),
        Part::Text(b" at "),
        input_part(site, finding.input),
        Part::Text(b": "),
        Part::Text(finding.kind.words().as_bytes()),
    ]);
    if let Kind::Unmet(archive) = finding.kind {
        words.append(&[
            Part::Text(b" "),
            Part::Name(relay_name(site, archive.relay)),
            Part::Text(b" "),
        ]);
        push_name(words, action_name(site, archive));
    }
}

// What is found first in a site; none where it is accepted.
fn found(alloc: Global, site: &Site) -> Result<Option<Finding>, AllocError> {
    match check_site(alloc, site) {
        Ok(_) => Ok(None),
        Err(Refusal::Finding(finding)) => Ok(Some(finding)),
        Err(Refusal::NoMemory) => Err(AllocError),
    }
}

// The verdict, and the class where one was asked for.
fn append_title(
    words: &mut Words,
    site: &Site,
    found: &Option<Finding>,
    classes: usize,
    class: Option<Class>,
) {
    words.say("  label=\"");
    match found {
        Some(finding) => append_finding(words, site, finding),
        None => words.append(&[
            Part::Text(b"accepted: "),
            Part::Number(classes as u64),
            Part::Text(b" protected classes"),
        ]),
    }
    if let Some(class) = class {
        words.append(&[Part::Text(b"\\nmessages of "), Part::Class(class)]);
    }
    words.say(if found.is_some() {
        "\";\n  fontcolor=\"#d93025\";\n"
    } else {
        "\";\n"
    });
}

// What is said below a drawing: what the lines and the colours mean, and what is given.
fn append_below(words: &mut Words, drawing: Drawing<'_>, is_full: bool, foot: &[u8]) {
    words.say(AROUND);
    words.say(if drawing.is_one {
        LEGEND_OF_ONE
    } else {
        LEGEND
    });
    words.say(if is_full { MARKS } else { BOXES });
    words.append(&[Part::Text(foot)]);
    words.say(BELOW);
}

// ---- the drawing

fn append_overview(words: &mut Words, drawing: Drawing<'_>) {
    words.say(BOXED);
    for relay in 0..drawing.site.relays() {
        push_box(words, drawing, relay, drawing.site.plan(relay));
    }
    for relay in 0..drawing.site.relays() {
        push_links(words, drawing, relay, drawing.site.plan(relay));
    }
}

fn append_all(words: &mut Words, drawing: Drawing<'_>) -> Result<(), AllocError> {
    for relay in 0..drawing.site.relays() {
        push_relay(words, drawing, relay, drawing.site.plan(relay))?;
    }
    for relay in 0..drawing.site.relays() {
        push_outside(words, drawing, relay, drawing.site.plan(relay))?;
    }
    Ok(())
}

// Puts the relays and their arrows.
fn append_relays(words: &mut Words, drawing: Drawing<'_>, is_full: bool) -> Result<(), AllocError> {
    if is_full {
        return append_all(words, drawing);
    }
    append_overview(words, drawing);
    Ok(())
}

fn draw(
    alloc: Global,
    site: &Site,
    class: Option<Class>,
    extent: Extent,
    foot: &[u8],
) -> Result<Vec<u8>, AllocError> {
    let found = found(alloc, site)?;
    let protected = protected_classes(alloc, site)?;
    let one = one_of(alloc, class)?;
    let classes = match class {
        Some(_) => one.as_slice(),
        None => protected.as_slice(),
    };
    let reach = reach_of(alloc, site, classes)?;
    let marks = marks_of(alloc, site, &found)?;
    let drawing = Drawing {
        alloc,
        site,
        reach: &reach,
        classes: classes.len(),
        is_one: class.is_some(),
        marks: marks.as_slice(),
    };
    let is_full = extent.is_full(site);
    let mut words = Words::new(alloc);
    words.say(HEAD);
    append_title(&mut words, site, &found, protected.len(), class);
    append_below(&mut words, drawing, is_full, foot);
    append_relays(&mut words, drawing, is_full)?;
    words.say("  }\n}\n");
    words.finish()
}

// The site that the site file of this name describes, with the files that it names.
fn site_for<F: Files>(
    alloc: Global,
    files: &F,
    name: &str,
) -> Result<(Site, Option<Identity>), Halt>
    ensures ok { IfOk result (λ read. (text : List ℕ) → F.bytes_of files.now name.now ≡ Some text →
        IsSiteOf (F.bytes_of files.now) text read.0) }
    ensures err { IfErr result (λ halt. (text : List ℕ) → F.bytes_of files.now name.now ≡ Some text →
        IsNoSite (F.bytes_of files.now) text halt) }
    ensures unread { IfErr result (λ halt. (text : List ℕ) → F.bytes_of files.now name.now ≡ Some text →
        IsUnread (F.may_fail files.now) (name.now ∷ file_names text) halt) }
{
    let ReadSite { site, texts } = read_site(alloc, files, name);
    match site {
        Ok(site) => Ok((site, identity_of(alloc, &texts))),
        Err(halt) => Err(halt),
    }
}

// What is below a drawing of this extent.
fn foot_of(
    alloc: Global,
    name: &str,
    extent: Extent,
    identity: Option<Identity>,
) -> Result<Vec<u8>, AllocError> {
    let mut words = Words::new(alloc);
    if let (Extent::Full(days), Some(identity)) = (extent, identity) {
        let digits = encode(alloc, identity.sum.as_slice())?;
        append_foot(&mut words, name, days, digits.as_str());
    }
    words.finish()
}

// The drawing with what is below it.
fn drawn(
    alloc: Global,
    name: &str,
    read: &(Site, Option<Identity>),
    class: Option<Class>,
    extent: Extent,
) -> Result<Vec<u8>, AllocError> {
    let foot = foot_of(alloc, name, extent, read.1)?;
    draw(alloc, &read.0, class, extent, foot.as_slice())
}

// A drawing of the site that the file of this name describes.
fn drawing_of<F: Files>(
    alloc: Global,
    files: &F,
    name: &str,
    class: Option<Class>,
    extent: Extent,
) -> Result<Answer, Halt>
    ensures ok { IfOk result (λ a. (text : List ℕ) → F.bytes_of files.now name.now ≡ Some text →
        (site : AnySite) × IsSiteOf (F.bytes_of files.now) text site × (a.is_accepted ≡ true)) }
    ensures unread { IfErr result (λ halt. (text : List ℕ) → F.bytes_of files.now name.now ≡ Some text →
        IsUnread (F.may_fail files.now) (name.now ∷ file_names text) halt) }
    ensures err { IfErr result (λ halt. (text : List ℕ) → F.bytes_of files.now name.now ≡ Some text →
        IsNoSite (F.bytes_of files.now) text halt) }
{
    let read = site_for(alloc, files, name)?;
    match drawn(alloc, name, &read, class, extent) {
        Ok(text) => Ok(Answer {
            text,
            is_accepted: true,
        }),
        Err(_) => Err(Halt::NoMemory),
    }
}

// Prints a drawing, and answers the exit status.
fn print_drawing<F: Files, W: Sink, E: Sink>(
    alloc: Global,
    files: &F,
    site: &str,
    class: Option<Class>,
    extent: Extent,
    out: &mut Outputs<W, E>,
) -> u8
    ensures draws { (text : List ℕ) → F.bytes_of files.now site.now ≡ Some text →
        AnswersOf (λ site text is_accepted. is_accepted ≡ true) (F.bytes_of files.now) text result out.old out.new }
    ensures fails { (text : List ℕ) → F.bytes_of files.now site.now ≡ Some text →
        FailsBy (Any (F.may_fail files.now) (site.now ∷ file_names text)) result out.old out.new }
    ensures status { result ≤ 4 }
    ensures none_failed { result ≢ 4 → out.new.output.faults ≡ out.old.output.faults }
    ensures quiet { result ≡ 0 → Keeps out.old.errors.contents out.new.errors.contents }
{
    print(drawing_of(alloc, files, site, class, extent), out)
}

// A word as it is told, without control characters.
fn shown(alloc: Global, word: &str) -> Result<Vec<u8>, AllocError> {
    let mut words = Words::new(alloc);
    words.append_in_line(word.as_bytes());
    words.finish()
}

// Tells that a word is no class, and answers the exit status.
fn no_class<W: Sink, E: Sink>(alloc: Global, out: &mut Outputs<W, E>, word: &str) -> u8
    ensures reported { ((result ≡ 2) × (shown : List ℕ) × HasReported out.old out.new (no_class_report shown))
        ⊎ ((result ≡ 3) × HasReported out.old out.new (said (codes "no memory"))) }
    ensures same { out.new.output ≡ out.old.output }
{
    match shown(alloc, word) {
        Ok(shown) => {
            report_texts(
                &mut out.errors,
                &[
                    b"syc: no class ",
                    shown.as_slice(),
                    b": a class is FACILITY.SEVERITY, as auth.crit\n",
                ],
            );
            2
        }
        Err(_) => out_of_memory(&mut out.errors),
    }
}

/// Prints a site as a graph for Graphviz: of all its protected classes, or of one class. It answers the exit status: 0
/// where it was printed, be the site accepted or refused, 2 at a faulty site or a word that is no class, 3 where memory
/// runs out, and 4 where a read or write failed.
pub fn graph<F: Files, W: Sink, E: Sink>(
    alloc: Global,
    files: &F,
    site: &str,
    class: Option<&str>,
    extent: Extent,
    out: &mut Outputs<W, E>,
) -> u8
    ensures draws { (text : List ℕ) → F.bytes_of files.now site.now ≡ Some text →
        GraphIs (option_map (λ word. word.now) class.entry) (F.bytes_of files.now) text result out.old out.new }
    ensures fails { (text : List ℕ) → F.bytes_of files.now site.now ≡ Some text →
        FailsBy (Any (F.may_fail files.now) (site.now ∷ file_names text)) result out.old out.new }
    ensures status { result ≤ 4 }
    ensures none_failed { result ≢ 4 → out.new.output.faults ≡ out.old.output.faults }
    ensures quiet { result ≡ 0 → Keeps out.old.errors.contents out.new.errors.contents }
{
    let Some(word) = class else {
        return print_drawing(alloc, files, site, None, extent, out);
    };
    match class_named(alloc, word) {
        Ok(Some(class)) => print_drawing(alloc, files, site, Some(class), extent, out),
        Ok(None) => no_class(alloc, out, word),
        Err(_) => out_of_memory(&mut out.errors),
    }
}
