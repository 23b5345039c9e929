//! What is found in a site, occurrence by occurrence: an instance of a kind at an input is of one faulty occurrence there,
//! or of none where the kind is of the input.
ghost use Rattle.std.specs.Prelude.{◌≡◌, ◌++◌, ◌∷◌, [], Contains, Decides, IfOk, IfSome, OnOk};
ghost use Rattle.sy_findings.specs.Instances as spec;
ghost use Rattle.sy_findings.specs.internal.Instances as inside;

use std::alloc::{AllocError, Global};
use sy_checker::Group;
use sy_places::ways::faulty_occurrences::occurrences_meant;
use sy_rules::Occurrence;
use sy_script::Items;
use sy_site::finding::{Finding, Kind};
use sy_site::{Site, SiteInput};
use sy_wire::Class;

/// A kind that is found at an input by an occurrence, with the protected classes of which it is, by rising number.
#[derive(Drop)]
pub struct Instance {
    pub input: SiteInput,
    pub kind: Kind,
    /// The faulty occurrence, of the kinds 5 to 7.
    pub occurrence: Option<Occurrence>,
    pub classes: Vec<Class>,
}

/// The instances so far: where those of a group begin, and which of them is likely next.
#[derive(Drop)]
struct Gathered {
    instances: Vec<Instance>,
    begin: usize,
    next: usize,
}

// Whether an instance is of this kind at this input.
fn is_at(instance: &Instance, input: SiteInput, kind: Kind) -> bool
    ensures { Decides result (spec.subject instance.now ≡ (input, kind)) }
{
    instance.input == input && instance.kind == kind
}

// Whether the instance at a place is of this kind at this input, by this occurrence.
fn is_of(
    instances: &[Instance],
    place: usize,
    input: SiteInput,
    kind: Kind,
    occurrence: Option<Occurrence>,
) -> Option<usize>
    ensures { IfSome result (λ at. inside.IsAt instances.now at input kind) }
{
    if place >= instances.len() {
        return None;
    }
    if !is_at(&instances[place], input, kind) {
        return None;
    }
    if instances[place].occurrence != occurrence {
        return None;
    }
    Some(place)
}

// The place of such an instance, from a place on.
fn first_of(
    instances: &[Instance],
    from: usize,
    input: SiteInput,
    kind: Kind,
    occurrence: Option<Occurrence>,
) -> Option<usize>
    ensures { IfSome result (λ at. inside.IsAt instances.now at input kind) }
{
    for place in from..instances.len() {
        match is_of(instances, place, input, kind, occurrence) {
            Some(at) => return Some(at),
            None => {}
        }
    }
    None
}

// The place of such an instance of the group that is gathered, which is likely the next one.
fn place_of(
    found: &Gathered,
    input: SiteInput,
    kind: Kind,
    occurrence: Option<Occurrence>,
) -> Option<usize>
    ensures { IfSome result (λ at. inside.IsAt found.now.instances.items at input kind) }
{
    let instances = found.instances.as_slice();
    match is_of(instances, found.next, input, kind, occurrence) {
        Some(at) => Some(at),
        None => first_of(instances, found.begin, input, kind, occurrence),
    }
}

// Puts a class behind the others of an instance.
fn push_class(instance: &mut Instance, class: Class) -> Result<(), AllocError>
    ensures subject { OnOk result (spec.subject instance.new ≡ spec.subject instance.old) }
    ensures classes { OnOk result (instance.new.classes.items ≡ instance.old.classes.items ++ class ∷ []) }
{
    instance.classes.push(class)?;
    Ok(())
}

// Puts a class to the instance at a place.
fn join(
    instances: &mut Vec<Instance>,
    place: usize,
    class: Class,
    input: SiteInput,
    kind: Kind,
) -> Result<(), AllocError>
    requires at { inside.IsAt instances.old.items place input kind }
    ensures { OnOk result (inside.Adds (λ c. c ≡ class) input kind instances.old.items instances.new.items) }
{
    let _ = input;
    let _ = kind;
    push_class(&mut instances[place], class)?;
    Ok(())
}

// Puts an instance of a class alone behind the others.
fn begin(
    alloc: Global,
    instances: &mut Vec<Instance>,
    class: Class,
    input: SiteInput,
    kind: Kind,
    occurrence: Option<Occurrence>,
) -> Result<(), AllocError>
    ensures { OnOk result (inside.Adds (λ c. c ≡ class) input kind instances.old.items instances.new.items) }
{
    let mut classes = Vec::new(alloc);
    classes.push(class)?;
    instances.push(Instance {
        input,
        kind,
        occurrence,
        classes,
    })?;
    Ok(())
}

// Puts a class to the instance of an occurrence, or begins that instance.
fn push_at(
    alloc: Global,
    found: &mut Gathered,
    class: Class,
    input: SiteInput,
    kind: Kind,
    occurrence: Option<Occurrence>,
) -> Result<(), AllocError>
    ensures { OnOk result (inside.Adds (λ c. c ≡ class) input kind found.old.instances.items found.new.instances.items) }
{
    match place_of(found, input, kind, occurrence) {
        Some(place) => {
            found.next = place + 1;
            join(&mut found.instances, place, class, input, kind)
        }
        None => begin(alloc, &mut found.instances, class, input, kind, occurrence),
    }
}

// Puts a class to the instance of each of some occurrences, or to the one of none where there are none.
fn push_each(
    alloc: Global,
    found: &mut Gathered,
    class: Class,
    input: SiteInput,
    kind: Kind,
    occurrences: &[Occurrence],
) -> Result<(), AllocError>
    ensures { OnOk result (inside.Adds (λ c. c ≡ class) input kind found.old.instances.items found.new.instances.items) }
{
    let first = occurrences.first().copied();
    push_at(alloc, found, class, input, kind, first)?;
    for place in 1..occurrences.len() {
        push_at(alloc, found, class, input, kind, Some(occurrences[place]))?;
    }
    Ok(())
}

// The faulty occurrences of a kind at an input, for a class; none of a kind that isn't of an occurrence.
fn occurrences_for(
    alloc: Global,
    site: &Site,
    class: Class,
    input: SiteInput,
    kind: Kind,
) -> Result<Vec<Occurrence>, AllocError> {
    match kind {
        Kind::InnerQueue | Kind::GivesUp | Kind::NoTarget => {
            let finding = Finding {
                class,
                input,
                way: Items::new(alloc),
                kind,
            };
            occurrences_meant(alloc, site, &finding)
        }
        _ => Ok(Vec::new(alloc)),
    }
}

// Puts the instances of a group.
fn push_group(
    alloc: Global,
    site: &Site,
    found: &mut Gathered,
    group: &Group,
) -> Result<(), AllocError>
    ensures { OnOk result (inside.Adds (λ c. Contains group.now.classes.items c) group.now.input group.now.kind
        found.old.instances.items found.new.instances.items) }
{
    for class in group.classes.as_slice() {
        let occurrences = occurrences_for(alloc, site, *class, group.input, group.kind)?;
        push_each(
            alloc,
            found,
            *class,
            group.input,
            group.kind,
            occurrences.as_slice(),
        )?;
    }
    Ok(())
}

/// The instances of all that is found: of a kind 5 to 7 one for each faulty occurrence of an input, by which all its classes
/// are told, and of any other kind one for each group.
pub fn instances_of(
    alloc: Global,
    site: &Site,
    groups: &[Group],
) -> Result<Vec<Instance>, AllocError>
    ensures { IfOk result (λ instances. spec.AreInstances groups.now instances.items) }
{
    let mut found = Gathered {
        instances: Vec::new(alloc),
        begin: 0,
        next: 0,
    };
    for group in groups {
        found.begin = found.instances.len();
        push_group(alloc, site, &mut found, group)?;
    }
    Ok(found.instances)
}
