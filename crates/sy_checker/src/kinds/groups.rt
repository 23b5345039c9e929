//! What is found in a site, in groups: the classes of which the same kind is found at the same input.

ghost use Rattle.std.specs.Prelude.{[], ◌≡◌, ◌++◌, ◌∷◌, Contains, Decides, IfNone, IfSome, OnOk, Some};
ghost use Rattle.sy_checker.specs.Survey as spec;
ghost use Rattle.sy_checker.specs.internal.Survey as inside;
ghost use Rattle.sy_checker.specs.declared.kinds.groups.Group.{Group as AnyGroup};

use std::alloc::{AllocError, Global};
use sy_site::SiteInput;
use sy_site::finding::Kind;
use sy_wire::Class;

/// A kind that is found at an input, with the protected classes of which it is, by rising number.
#[derive(Drop)]
pub struct Group {
    pub input: SiteInput,
    pub kind: Kind,
    pub classes: Vec<Class>,
}

/// The groups so far. The next that is looked for is likely the one at a place: most classes have the same found.
#[derive(Drop)]
pub struct Gathered {
    pub groups: Vec<Group>,
    next: usize,
}

// Whether a group is of this kind at this input.
fn is_of(group: &Group, input: SiteInput, kind: Kind) -> bool
    ensures { Decides result (spec.subject group.now ≡ (input, kind)) }
{
    group.input == input && group.kind == kind
}

// The place of the first such group.
fn first_of(groups: &[Group], input: SiteInput, kind: Kind) -> Option<usize>
    ensures some { IfSome result (λ place. inside.IsAt groups.now place input kind) }
    ensures none { IfNone result ((g : AnyGroup) → Contains groups.now g → spec.subject g ≡ (input, kind) → ⊥) }
{
    for place in 0..groups.len() {
        if is_of(&groups[place], input, kind) {
            return Some(place);
        }
    }
    None
}

// The place of such a group, which is likely this one.
fn place_of(groups: &[Group], likely: usize, input: SiteInput, kind: Kind) -> Option<usize>
    ensures some { IfSome result (λ place. inside.IsAt groups.now place input kind) }
    ensures none { IfNone result ((g : AnyGroup) → Contains groups.now g → spec.subject g ≡ (input, kind) → ⊥) }
{
    if likely >= groups.len() {
        return first_of(groups, input, kind);
    }
    if is_of(&groups[likely], input, kind) {
        return Some(likely);
    }
    first_of(groups, input, kind)
}

// Puts a class behind the others of a group.
fn push_class(group: &mut Group, class: Class) -> Result<(), AllocError>
    ensures subject { OnOk result (spec.subject group.new ≡ spec.subject group.old) }
    ensures classes { OnOk result (group.new.classes.items ≡ group.old.classes.items ++ class ∷ []) }
{
    group.classes.push(class)?;
    Ok(())
}

// Puts a class to the group at a place.
fn join(
    groups: &mut Vec<Group>,
    place: usize,
    class: Class,
    input: SiteInput,
    kind: Kind,
) -> Result<(), AllocError>
    requires at { inside.IsAt groups.old.items place input kind }
    ensures { OnOk result (inside.Pushes class input kind groups.old.items groups.new.items) }
{
    let _ = input;
    let _ = kind;
    push_class(&mut groups[place], class)?;
    Ok(())
}

// Puts a group of a class alone behind the others.
fn begin(
    alloc: Global,
    groups: &mut Vec<Group>,
    class: Class,
    input: SiteInput,
    kind: Kind,
) -> Result<(), AllocError>
    requires new { (g : AnyGroup) → Contains groups.old.items g → spec.subject g ≡ (input, kind) → ⊥ }
    ensures { OnOk result (inside.Pushes class input kind groups.old.items groups.new.items) }
{
    let mut classes = Vec::new(alloc);
    classes.push(class)?;
    groups.push(Group {
        input,
        kind,
        classes,
    })?;
    Ok(())
}

/// Nothing yet.
pub fn nothing_gathered(alloc: Global) -> Gathered
    ensures { result.groups.items ≡ [] }
{
    Gathered {
        groups: Vec::new(alloc),
        next: 0,
    }
}

/// Puts a class to the group of a kind at an input, or begins that group.
pub fn push_found(
    alloc: Global,
    found: &mut Gathered,
    class: Class,
    input: SiteInput,
    kind: Kind,
) -> Result<(), AllocError>
    ensures { OnOk result (inside.Pushes class input kind found.old.groups.items found.new.groups.items) }
{
    match place_of(found.groups.as_slice(), found.next, input, kind) {
        Some(place) => {
            found.next = place + 1;
            join(&mut found.groups, place, class, input, kind)
        }
        None => begin(alloc, &mut found.groups, class, input, kind),
    }
}
