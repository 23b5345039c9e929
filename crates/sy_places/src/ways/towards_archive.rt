//! How near messages come to an archive that an entry doesn't lead to.

use crate::ways::relay_parts::{is_spare, occurrences_of, spot_at};
use std::alloc::{AllocError, Global};
use sy_rules::{Occurrence, Plan};
use sy_site::{Site, SiteAction, SiteInput};
use sy_wire::Class;

/// The most lists of a relay: the default ruleset's, those of 256 rulesets and those of 256 actions.
const LISTS: usize = 513;

/// The most lists that are gone over: those of each of 64 relays.
const MOST: usize = 32_832;

/// A list that messages may come to, by a forward or a post of another.
#[derive(Clone, Copy)]
pub struct Step {
    /// the input by which they came to the list's relay
    pub input: SiteInput,
    pub list: u32,
    /// the step from which it comes, by its number, and what leads on there; none of the entry
    pub from: Option<(usize, Occurrence)>,
}

/// Where the way to an archive breaks off.
#[derive(Drop)]
pub struct Approach {
    /// The first step is the entry; those that every message of the class makes, and that aren't spare, come first.
    pub steps: Vec<Step>,
    /// The step at which it breaks off, by its number.
    pub last: usize,
    /// What leads on there, and is spare or not executed by every message; none where nothing there leads on.
    pub occurrence: Option<Occurrence>,
}

/// Which occurrences are followed.
#[derive(Clone, Copy)]
enum Choice {
    /// Those that every message of a class executes and that aren't spare.
    Sure(Class),
    /// All but spare ones.
    Asked,
    All,
}

/// Steps, each to another list.
#[derive(Drop)]
struct Steps {
    all: Vec<Step>,
    // whether a list is among theirs, relay by relay
    met: Vec<bool>,
}

impl Steps {
    fn new(alloc: Global) -> Result<Steps, AllocError> {
        Ok(Steps {
            all: Vec::new(alloc),
            met: vec![in alloc; false; MOST]?,
        })
    }

    // Puts a step behind the others, where its list isn't among theirs.
    fn insert(&mut self, step: Step) -> Result<(), AllocError> {
        let place = (step.input.relay as usize)
            .saturating_mul(LISTS)
            .saturating_add(step.list as usize);
        let Some(is_met) = self.met.get_mut(place) else {
            return Ok(());
        };
        if *is_met {
            return Ok(());
        }
        *is_met = true;
        self.all.push(step)?;
        Ok(())
    }
}

// Puts the list to which an occurrence leads behind the others.
fn insert_led_to(
    steps: &mut Steps,
    site: &Site,
    at: usize,
    step: Step,
    occurrence: Occurrence,
) -> Result<(), AllocError> {
    let from = Some((at, occurrence));
    let (input, list) = match occurrence {
        Occurrence::Post(list) => (step.input, list),
        Occurrence::Run(action) => {
            let Some(input) = site.target(step.input.relay, action) else {
                return Ok(());
            };
            let Some(spot) = spot_at(site, input) else {
                return Ok(());
            };
            (input, spot.input.list)
        }
    };
    steps.insert(Step { input, list, from })
}

fn plan_of(site: &Site, step: Step) -> Option<&Plan> {
    match spot_at(site, step.input) {
        Some(spot) => Some(spot.plan),
        None => None,
    }
}

// What every message of the class executes of a list, as bits.
fn must_of(plan: &Plan, list: u32, class: Class) -> u64 {
    if (list as usize) >= plan.list_names().len() {
        return 0;
    }
    let (_, must) = plan.flows(list, class);
    must
}

// Which occurrences of a list are followed, as bits, spare ones among them.
fn bits_of(plan: &Plan, list: u32, choice: Choice) -> u64 {
    match choice {
        Choice::Sure(class) => must_of(plan, list, class),
        Choice::Asked | Choice::All => u64::MAX,
    }
}

// Puts the lists to which a step leads behind the others.
fn follow(
    steps: &mut Steps,
    site: &Site,
    at: usize,
    step: Step,
    choice: Choice,
) -> Result<(), AllocError> {
    let Some(plan) = plan_of(site, step) else {
        return Ok(());
    };
    let mut left = bits_of(plan, step.list, choice);
    for occurrence in occurrences_of(plan, step.list) {
        let is_followed = matches!(choice, Choice::All)
            || !is_spare(site, step.input.relay, plan, *occurrence);
        if left % 2 == 1 && is_followed {
            insert_led_to(steps, site, at, step, *occurrence)?;
        }
        left /= 2;
    }
    Ok(())
}

// Puts all lists to which such occurrences lead, from the steps that are there on.
fn follow_all(steps: &mut Steps, site: &Site, choice: Choice) -> Result<(), AllocError> {
    for at in 0..MOST {
        match steps.all.get(at).copied() {
            Some(step) => follow(steps, site, at, step, choice)?,
            None => return Ok(()),
        }
    }
    Ok(())
}

fn has_archive(site: &Site, step: Step, archive: SiteAction) -> bool {
    let Some(plan) = plan_of(site, step) else {
        return false;
    };
    step.input.relay == archive.relay
        && occurrences_of(plan, step.list).contains(&Occurrence::Run(archive.action))
}

// The first step at which the archive is in the list, by its number.
fn goal(site: &Site, steps: &[Step], archive: SiteAction) -> Option<usize> {
    for at in 0..steps.len() {
        match steps.get(at) {
            Some(step) if has_archive(site, *step, archive) => return Some(at),
            _ => {}
        }
    }
    None
}

// Where the way to a step leaves the first steps, so many, and by which occurrence.
fn breaks_off(
    steps: &[Step],
    goal: usize,
    sure: usize,
    archive: u32,
) -> (usize, Option<Occurrence>) {
    let mut at = goal;
    let mut occurrence = Occurrence::Run(archive);
    for _ in 0..MOST {
        if at < sure {
            return (at, Some(occurrence));
        }
        match steps.get(at) {
            Some(
                Step {
                    from: Some((from, by)),
                    ..
                },
            ) => {
                at = *from;
                occurrence = *by;
            }
            _ => return (0, None),
        }
    }
    (0, None)
}

// The first of the first steps, so many, that is on the archive's relay, or the last of them.
fn nearest_step(steps: &[Step], sure: usize, archive: SiteAction) -> usize {
    let mut found: usize = 0;
    for at in 0..sure {
        if let Some(step) = steps.get(at) {
            if step.input.relay == archive.relay {
                return at;
            }
            found = at;
        }
    }
    found
}

// The step of an entry.
fn first_step(site: &Site, entry: SiteInput) -> Option<Step> {
    match spot_at(site, entry) {
        Some(spot) => Some(Step {
            input: entry,
            list: spot.input.list,
            from: None,
        }),
        None => None,
    }
}

/// Where the way of messages of a class from an entry to an archive breaks off.
pub fn approach_to(
    alloc: Global,
    site: &Site,
    class: Class,
    entry: SiteInput,
    archive: SiteAction,
) -> Result<Approach, AllocError> {
    let mut steps = Steps::new(alloc)?;
    if let Some(step) = first_step(site, entry) {
        steps.insert(step)?;
    }
    follow_all(&mut steps, site, Choice::Sure(class))?;
    let sure = steps.all.len();
    follow_all(&mut steps, site, Choice::Asked)?;
    follow_all(&mut steps, site, Choice::All)?;
    let Steps { all: steps, .. } = steps;
    let (last, occurrence) = match goal(site, steps.as_slice(), archive) {
        Some(goal) => breaks_off(steps.as_slice(), goal, sure, archive.action),
        None => (nearest_step(steps.as_slice(), sure, archive), None),
    };
    Ok(Approach {
        steps,
        last,
        occurrence,
    })
}

/// The steps from the entry to the one at which the way breaks off, the last one first.
pub fn steps_back(alloc: Global, approach: &Approach) -> Result<Vec<Step>, AllocError> {
    let mut back = Vec::new(alloc);
    let mut at = approach.last;
    for _ in 0..MOST {
        let Some(step) = approach.steps.as_slice().get(at) else {
            return Ok(back);
        };
        back.push(*step)?;
        match step.from {
            Some((from, _)) => at = from,
            None => return Ok(back),
        }
    }
    Ok(back)
}
