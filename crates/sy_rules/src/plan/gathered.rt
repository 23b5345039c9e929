//! Loads the plan of a script, part by part.

ghost use Rattle.std.specs.Prelude.{◌≡◌, ◌≤◌, ◌+◌, ◌∷◌, [], drop, filter_map, length, map, option_map, IfOk, IfErr, List, OnOk};
ghost use Rattle.sy_select.specs.Truth.{Formula};
ghost use Rattle.sy_select.specs.declared.condition.Test.{Test};
ghost use Rattle.sy_rules.specs.Faults.{IsAnswered, no_memory};
ghost use Rattle.sy_rules.specs.items.ItemViews.{item, placed};
ghost use Rattle.sy_rules.specs.internal.Loading.{AreLists, IsGathered, faults_of_its_lists};
ghost use Rattle.sy_rules.specs.internal.Numbering.{AreSingles};
ghost use Rattle.sy_rules.specs.internal.TableSizes.{head};
ghost use Rattle.sy_rules.specs.items.Outline.{items, placed_items};
ghost use Rattle.sy_rules.specs.PlanValue.{AreExprs, lines_of, listed_from, test_of_item};
ghost use Rattle.sy_rules.specs.check.ScriptFaults as spec;
ghost use Rattle.sy_rules.specs.internal.Checking.{faults_after};
ghost use Rattle.sy_rules.specs.lists.Body as body;
ghost use Rattle.sy_rules.specs.internal.Tables.{lines_of_tables};

use crate::check::among::DEFAULT_RULESET;
use crate::fault::{NOWHERE, PlanFault};
use crate::items::borrowed::name_of_ruleset;
use crate::items::outline::Item;
use crate::lists::build::build;
use crate::lists::condition::Condition;
use crate::lists::numbering::{list_occurrences, occurrences};
use crate::lists::occurrence::Occurrence;
use crate::lists::plan_tables::plan_tables;
use crate::lists::sizes::Head;
use crate::lists::statement::Statement;
use crate::parameters::objects::{ActionParameters, RulesetParameters};
use crate::parameters::settings::QueueParameters;
use crate::parts::Input;
use crate::parts::expressions::read_tests;
use crate::parts::of_items::{actions, inputs, queues, rulesets, workers};
use crate::parts::of_lists::list_queues;
use std::alloc::{AllocError, Global};
use sy_script::Items;
use sy_script::tree::Script;

/// What the items of a script give to its plan.
#[derive(Drop)]
pub struct Gathered {
    pub rulesets: Vec<RulesetParameters>,
    pub actions: Vec<ActionParameters>,
    pub inputs: Vec<Input>,
    pub queues: Vec<QueueParameters>,
    pub workers: Vec<u32>,
    pub list_queues: Vec<Option<u32>>,
    pub tests: Vec<Condition>,
}

// Of items without faults, so that only memory may be missing.
fn tests(alloc: Global, items: &[Item<'_>]) -> Result<Vec<Condition>, PlanFault>
    ensures ok { IfOk result (λ tests. AreExprs (filter_map test_of_item (map item items.now)) tests.items) }
    ensures err { IfErr result (λ f. f ≡ no_memory) }
{
    match read_tests(alloc, items) {
        Ok(tests) => Ok(tests),
        Err(_) => Err(PlanFault::no_memory(alloc)),
    }
}

/// Gathers what the items of a script give to its plan.
pub fn gather(alloc: Global, items: &[Item<'_>]) -> Result<Gathered, PlanFault>
    requires clean { faults_after (map item items.now) [] (map item items.now) ≡ [] }
    ensures ok { IfOk result (λ gathered. IsGathered (map item items.now) gathered) }
    ensures err { IfErr result (λ f. f ≡ no_memory) }
{
    let rulesets = rulesets(alloc, items)?;
    let actions = actions(alloc, items)?;
    let queues = queues(alloc, items)?;
    let workers = workers(alloc, queues.as_slice())?;
    let list_queues = list_queues(alloc, items)?;
    let inputs = inputs(alloc, items, rulesets.as_slice(), list_queues.as_slice())?;
    let tests = tests(alloc, items)?;
    Ok(Gathered {
        rulesets,
        actions,
        inputs,
        queues,
        workers,
        list_queues,
        tests,
    })
}

/// The lists of a plan.
#[derive(Drop)]
pub struct Lists {
    pub tables: Vec<Items<Statement>>,
    pub occurrences: Vec<Items<Occurrence>>,
}

fn head_of<'s>(next: &Item<'s>) -> Option<Head<'s>>
    ensures { option_map head result ≡ spec.head_of (placed next.now) }
{
    match *next {
        Item::Ruleset(span, params) => Some(Head {
            name: name_of_ruleset(params),
            span,
        }),
        _ => None,
    }
}

// The heads of the lists that have one.
fn heads_of_lists<'s>(alloc: Global, items: &[Item<'s>]) -> Result<Vec<Head<'s>>, AllocError>
    ensures { IfOk result (λ heads. map head heads.items ≡ spec.heads_of (map placed items.now)) }
{
    let mut heads = Vec::new(alloc);
    heads.push(Head {
        name: DEFAULT_RULESET,
        span: NOWHERE,
    })?;
    let mut rest = items;
    while let [next, after @ ..] = rest {
        if let Some(found) = head_of(next) {
            heads.push(found)?;
        }
        rest = after;
    }
    Ok(heads)
}

// What each list executes, where so many have or don't have a queue.
fn occurrences_of_lists(
    alloc: Global,
    tables: &[Items<Statement>],
    queues: &[Option<u32>],
) -> Result<Vec<Items<Occurrence>>, AllocError>
    requires few { length queues.now ≤ 513 }
    ensures { IfOk result (λ found. (tests : List (Formula Test)) → found.items
        ≡ map (λ l. body.occurrences l.body) (listed_from (lines_of_tables tests tables.now) 0 queues.now)) }
{
    let all = list_occurrences(alloc, tables)?;
    let mut found = Vec::new(alloc);
    let mut list = 0;
    let mut rest = queues;
    while let [_, after @ ..] = rest {
        found.push(occurrences(alloc, all.as_slice(), list)?)?;
        list += 1;
        rest = after;
    }
    Ok(found)
}

// The tables of a script's lists, whose occurrences aren't numbered yet.
fn tables(
    alloc: Global,
    script: &Script,
    gathered: &Gathered,
) -> Result<Vec<Vec<Statement>>, AllocError>
    requires gathered { IsGathered (items script.now) gathered.now }
    ensures lines { IfOk result (λ found. (tests : List (Formula Test))
        → lines_of_tables tests (map (λ t. t.items) found.items)
        ≡ lines_of script.now tests) }
    ensures singles { IfOk result (λ found. AreSingles (drop (length gathered.now.rulesets.items + 1)
        (map (λ t. t.items) found.items))) }
{
    let found = build(
        alloc,
        script,
        gathered.rulesets.as_slice(),
        gathered.actions.as_slice(),
    )?;
    Ok(found)
}

/// The lists of a script that has these items, without other faults.
pub fn expand_lists(
    alloc: Global,
    script: &Script,
    found: &[Item<'_>],
    gathered: &Gathered,
) -> Result<Lists, PlanFault>
    requires placed { map placed found.now ≡ placed_items script.now }
    requires gathered { IsGathered (items script.now) gathered.now }
    requires few { length gathered.now.list_queues.items ≤ 513 }
    ensures found { IfOk result (λ lists. AreLists script.now gathered.now.tests.items
        gathered.now.list_queues.items lists) }
    ensures ok { OnOk result (faults_of_its_lists script.now ≡ []) }
    ensures err { IfErr result (λ f. IsAnswered (faults_of_its_lists script.now) f) }
{
    let Ok(tables) = tables(alloc, script, gathered) else {
        return Err(PlanFault::no_memory(alloc));
    };
    let Ok(heads) = heads_of_lists(alloc, found) else {
        return Err(PlanFault::no_memory(alloc));
    };
    let tables = plan_tables(alloc, tables.as_slice(), heads.as_slice())?;
    match occurrences_of_lists(alloc, tables.as_slice(), gathered.list_queues.as_slice()) {
        Ok(occurrences) => Ok(Lists {
            tables,
            occurrences,
        }),
        Err(_) => Err(PlanFault::no_memory(alloc)),
    }
}
