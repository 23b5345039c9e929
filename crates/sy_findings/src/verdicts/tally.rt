//! All that is found in a site, as a text: how much it is, and a line for each instance.
ghost use Rattle.std.specs.Prelude.{◌≡◌, ◌++◌, IfOk, OnOk};
ghost use Rattle.sy_findings.specs.Checks as spec;

use crate::verdicts::findings::{push_kind, push_occurrence};
use crate::verdicts::instances::{Instance, instances_of};
use std::alloc::{AllocError, Global};
use sy_checker::Group;
use sy_report::texts::parts::{Part, append_parts, input_part};
use sy_report::texts::words::Words;
use sy_select::{facility_text, severity_text};
use sy_site::Site;
use sy_wire::Class;

/// How many facilities there are.
const FACILITIES: u8 = 24;

/// How many severities each of them has.
const SEVERITIES: u8 = 8;

/// All severities as a set.
const ALL: u8 = 255;

// Whether a class is one of these.
fn is_among(classes: &[Class], facility: u8, severity: u8) -> bool {
    classes
        .iter()
        .any(|c| c.facility == facility && c.severity == severity)
}

// Which severities of a facility are those of some classes, as a set.
fn severities_of(classes: &[Class], facility: u8) -> u8 {
    let mut set = 0;
    for severity in 0..SEVERITIES {
        if is_among(classes, facility, severity) {
            set |= 1 << severity;
        }
    }
    set
}

// The same of each facility.
fn sets_of(alloc: Global, classes: &[Class]) -> Result<Vec<u8>, AllocError> {
    let mut sets = Vec::new(alloc);
    for facility in 0..FACILITIES {
        let set = severities_of(classes, facility);
        sets.push(set)?;
    }
    Ok(sets)
}

fn push_facility(words: &mut Words, facility: usize) {
    if facility < FACILITIES as usize {
        let class = Class::of_number(facility as u8 * SEVERITIES);
        words.append(&[Part::Text(facility_text(class))]);
    }
}

// Puts the facilities with a set: `*` for all of them.
fn append_facilities(words: &mut Words, sets: &[u8], set: u8) {
    if sets.iter().all(|s| *s == set) {
        words.say("*");
        return;
    }
    let mut separator = "";
    for facility in 0..sets.len() {
        if sets[facility] == set {
            words.say(separator);
            push_facility(words, facility);
            separator = ",";
        }
    }
}

fn push_severity(words: &mut Words, severity: u8) {
    if severity < SEVERITIES {
        words.append(&[Part::Text(severity_text(Class::of_number(severity)))]);
    }
}

// Whether a set has a severity.
fn has(set: u8, severity: u8) -> bool {
    severity < SEVERITIES && (set >> severity) & 1 == 1
}

// Puts the severities of a set: `*` for all of them, and each run by its first and its last.
fn append_severities(words: &mut Words, set: u8) {
    if set == ALL {
        words.say("*");
        return;
    }
    let mut separator = "";
    for severity in 0..SEVERITIES {
        let follows = severity > 0 && has(set, severity - 1);
        if has(set, severity) && !follows {
            words.say(separator);
            push_severity(words, severity);
            separator = ",";
        }
        if has(set, severity) && follows && !has(set, severity + 1) {
            words.say("-");
            push_severity(words, severity);
        }
    }
}

// Whether a set stands at an earlier place.
fn is_earlier(sets: &[u8], place: usize, set: u8) -> bool {
    for earlier in 0..sets.len() {
        if earlier < place && sets[earlier] == set {
            return true;
        }
    }
    false
}

// Puts the facilities and severities of classes, those with the same severities together.
fn append_sets(words: &mut Words, sets: &[u8]) {
    let mut separator = "";
    for place in 0..sets.len() {
        let set = sets[place];
        if set != 0 && !is_earlier(sets, place, set) {
            words.say(separator);
            append_facilities(words, sets, set);
            words.say(".");
            append_severities(words, set);
            separator = ";";
        }
    }
}

// Which of two words stands behind a count.
fn word_for(count: u64, one: &'static [u8], more: &'static [u8]) -> Part<'static> {
    Part::Text(if count == 1 { one } else { more })
}

/// Puts the names of classes.
pub fn append_classes(
    alloc: Global,
    words: &mut Words,
    classes: &[Class],
) -> Result<(), AllocError> {
    let sets = sets_of(alloc, classes)?;
    append_sets(words, sets.as_slice());
    Ok(())
}

/// The names of classes, and how many there are where they are more than one.
pub fn names_of(alloc: Global, classes: &[Class]) -> Result<Vec<u8>, AllocError> {
    let mut words = Words::new(alloc);
    append_classes(alloc, &mut words, classes)?;
    if classes.len() > 1 {
        words.append(&[
            Part::Text(b" ("),
            Part::Number(classes.len() as u64),
            Part::Text(b" classes)"),
        ]);
    }
    words.finish()
}

// Puts the line of an instance behind a text, which begins with these names.
fn push_line(
    text: &mut Vec<u8>,
    site: &Site,
    instance: &Instance,
    names: &[u8],
) -> Result<(), AllocError>
    ensures { OnOk result (text.new.items ≡ text.old.items ++ names.now ++ spec.instance_text site.now instance.now) }
{
    text.extend_from_slice(names)?;
    let parts = [
        Part::Text(b" at "),
        input_part(site, instance.input),
        Part::Text(b": "),
    ];
    append_parts(text, &parts)?;
    push_kind(text, site, instance.kind)?;
    push_occurrence(text, site, instance.input.relay, instance.occurrence)?;
    text.extend_from_slice(b"\n")
}

/// Puts the line of an instance with the names of its classes behind a text.
pub fn push_instance(
    alloc: Global,
    text: &mut Vec<u8>,
    site: &Site,
    instance: &Instance,
) -> Result<(), AllocError>
    ensures { OnOk result (spec.AppendsLine site.now instance.now text.old.items text.new.items) }
{
    let names = names_of(alloc, instance.classes.as_slice())?;
    push_line(text, site, instance, names.as_slice())?;
    Ok(())
}

// A line for each instance.
fn lines_of(alloc: Global, site: &Site, instances: &[Instance]) -> Result<Vec<u8>, AllocError>
    ensures { IfOk result (λ text. spec.AreLines site.now instances.now text.items) }
{
    let mut text = Vec::new(alloc);
    for instance in instances {
        push_instance(alloc, &mut text, site, instance)?;
    }
    Ok(text)
}

// Whether some instance names a class.
fn is_named(instances: &[Instance], facility: u8, severity: u8) -> bool {
    instances
        .iter()
        .any(|i| is_among(i.classes.as_slice(), facility, severity))
}

// How many classes of a facility are named by instances.
fn named_of(instances: &[Instance], facility: u8) -> u32 {
    let mut set: u8 = 0;
    for severity in 0..SEVERITIES {
        if is_named(instances, facility, severity) {
            set |= 1 << severity;
        }
    }
    set.count_ones()
}

// How many classes are named by instances.
fn named(instances: &[Instance]) -> u32 {
    let mut count: u32 = 0;
    for facility in 0..FACILITIES {
        count = count.saturating_add(named_of(instances, facility));
    }
    count
}

/// How much is found.
pub fn head_of(alloc: Global, instances: &[Instance]) -> Result<Vec<u8>, AllocError> {
    let mut words = Words::new(alloc);
    let findings = instances.len() as u64;
    let classes = u64::from(named(instances));
    words.append(&[
        Part::Text(b"refused: "),
        Part::Number(findings),
        word_for(findings, b" finding", b" findings"),
        Part::Text(b" for "),
        Part::Number(classes),
        word_for(classes, b" class\n", b" classes\n"),
    ]);
    words.finish()
}

// How much is found, and a line for each instance.
fn tally_of(alloc: Global, site: &Site, instances: &[Instance]) -> Result<Vec<u8>, AllocError>
    ensures { IfOk result (λ text. spec.AreTold site.now instances.now text.items) }
{
    let mut text = head_of(alloc, instances)?;
    let lines = lines_of(alloc, site, instances)?;
    text.extend_from_slice(lines.as_slice())?;
    Ok(text)
}

/// How much is found, and a line for each instance of each group: its classes, with the input, the kind and the occurrence.
pub fn tally(alloc: Global, site: &Site, groups: &[Group]) -> Result<Vec<u8>, AllocError>
    ensures { IfOk result (λ text. spec.IsTally site.now groups.now text.items) }
{
    match instances_of(alloc, site, groups) {
        Ok(instances) => tally_of(alloc, site, instances.as_slice()),
        Err(why) => Err(why),
    }
}
