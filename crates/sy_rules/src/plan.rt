//! What a relay does.
ghost use Rattle.std.specs.Prelude.{◌≡◌, ◌<◌, ◌⊎◌, ◌∷◌, [], length, map, IfErr, IfNone, IfOk, IfSome, OnOk, ℕ};
ghost use Rattle.sy_rules.specs.Faults.{IsAnswered, no_memory};
ghost use Rattle.sy_rules.specs.check.FaultsThere.{HasFault, HasNoFault};
ghost use Rattle.sy_rules.specs.internal.ClassFlows.{AreFlows};
ghost use Rattle.sy_rules.specs.items.ItemViews.{item, placed};
ghost use Rattle.sy_rules.specs.internal.Loading.{faults_of_its_lists};
ghost use Rattle.sy_rules.specs.items.Outline.{items, placed_items};
ghost use Rattle.sy_rules.specs.PassPlan as pass;
ghost use Rattle.sy_rules.specs.PlanValue.{HasParts, IsPlan};
ghost use Rattle.sy_rules.specs.check.ScriptFaults.{faults_of, too_many_workers};
ghost use Rattle.sy_rules.specs.internal.Checking.{faults_after};
ghost use Rattle.sy_rules.specs.lists.Body as body;
ghost use Rattle.sy_rules.specs.Whole.{IsWhole, body_at, name_at, owner_at, queue_at};
ghost use Rattle.sy_rules.specs.lists.Sets.{Bits};
ghost use Rattle.sy_rules.specs.lists.Work.{Due, May, Must, work};
ghost use Rattle.sy_wire.specs.Messages.{Said};

mod gathered;

use crate::check::among::DEFAULT_RULESET;
use crate::check::script::check_script;
use crate::fault::PlanFault;
use crate::items::outline::{Item, outline};
use crate::lists::class_flows::{ClassFlows, Parts, class_flows};
use crate::lists::condition::Condition;
use crate::lists::list_names::list_names;
use crate::lists::lookup::{due_of_list, flows_of_list};
use crate::lists::occurrence::Occurrence;
use crate::lists::statement::Statement;
use crate::parameters::kind::Kind;
use crate::parameters::objects::Destination;
use crate::parameters::settings::{FlowControl, QueueParameters, queue_parameters};
use crate::parts::action_names::name_by_number;
use crate::parts::of_items::action_parts;
use crate::parts::{Action, Input};
use gathered::{expand_lists, gather};
use std::alloc::{AllocError, Global};
use std::marker::Model;
use sy_script::Items;
use sy_script::tree::Script;
use sy_wire::{Class, Message};

/// What a relay does: its inputs, queues, workers and actions, and for each list what it executes.
///
/// Each number that it gives exists: the list and the queue of an input, the queue of a worker, the action of a run. The list of a post
/// has a queue. No two inputs have the same port, and no two actions the same name. An input's queue is the one of its list, or queue 0
/// where that list has none. The workers are those that the queues have, in the order of the queues. List 0 has no queue of its own; queue
/// 0 is that of no list, and each other queue that of one list and no other. Behind the lists of the rulesets stand those of the actions
/// that have a queue, each of which runs its action alone. There is a queue and a list at least; there are at most 64
/// inputs, 256 actions and 256 workers, and a list has at most 64 occurrences and 65,536 statements, where what replaces a call counts.
#[derive(Drop)]
pub struct Plan {
    inputs: Vec<Input>,
    queues: Vec<QueueParameters>,
    workers: Vec<u32>,
    actions: Vec<Action>,
    tests: Vec<Condition>,
    // of each list: its table, its occurrences and its queue
    tables: Vec<Items<Statement>>,
    occurrences: Vec<Items<Occurrence>>,
    list_queues: Vec<Option<u32>>,
    // and its name
    names: Vec<Items<u8>>,
    // how many of the lists behind list 0 are those of rulesets
    rulesets: u32,
    class_flows: ClassFlows,
}

impl Model for Plan {
    ghost use Rattle.sy_rules.specs.PlanValue as value;
    ghost use Rattle.sy_rules.specs.internal.PlanCodes.{plan_code};

    ghost Value = { value.Plan };

    ghost coded = { plan_code };

    ghost use Rattle.sy_rules.specs.internal.PlanInside.{plan_of, IsKept};

    ghost view = { plan_of };

    ghost invariant = { IsKept };
}

// The tables and occurrences of the one list of the plan that takes messages in and writes them all.
fn pass_list(alloc: Global) -> Result<(Vec<Items<Statement>>, Vec<Items<Occurrence>>), AllocError>
    ensures tables { IfOk result (λ found. found.0.items ≡ (Statement.Run 0 0 ∷ []) ∷ []) }
    ensures occurrences { IfOk result (λ found. found.1.items ≡ (Occurrence.Run 0 ∷ []) ∷ []) }
{
    let mut tables = Vec::new(alloc);
    tables.push(Items::from_slice(alloc, &[Statement::Run(0, 0)])?)?;
    let mut occurrences = Vec::new(alloc);
    occurrences.push(Items::from_slice(alloc, &[Occurrence::Run(0)])?)?;
    Ok((tables, occurrences))
}

fn pass_action(alloc: Global) -> Result<Action, AllocError>
    ensures { IfOk result (λ action. action ≡ pass.action) }
{
    Ok(Action {
        name: name_by_number(alloc, 0)?,
        destination: Destination::Archive(Items::new(alloc)),
        retry: Some(0),
        resume_interval: 30,
    })
}

// One of each.
fn one<T: Drop>(alloc: Global, item: T) -> Result<Vec<T>, AllocError>
    ensures { IfOk result (λ found. found.items ≡ item ∷ []) }
{
    let mut found = Vec::new(alloc);
    found.push(item)?;
    Ok(found)
}

// What each class executes of that list.
fn pass_flows(
    alloc: Global,
    tables: &[Items<Statement>],
    inputs: &[Input],
    queues: &[Option<u32>],
) -> Result<ClassFlows, AllocError>
    requires { tables.now ≡ (Statement.Run 0 0 ∷ []) ∷ [] }
    ensures { IfOk result (λ flows. AreFlows [] tables.now flows) }
{
    let parts = Parts {
        tables,
        tests: &[],
        inputs,
        queues,
    };
    class_flows(alloc, parts)
}

fn pass(alloc: Global) -> Result<Plan, AllocError>
    ensures { IfOk result (λ plan. plan ≡ pass.plan) }
{
    let (tables, occurrences) = pass_list(alloc)?;
    let input = Input {
        port: 1,
        flow: FlowControl::Off,
        list: 0,
        queue: 0,
        unread_file: None,
    };
    let inputs = one(alloc, input)?;
    let list_queues = one(alloc, None)?;
    let class_flows = pass_flows(alloc, &tables, &inputs, &list_queues)?;
    Ok(Plan {
        inputs,
        queues: one(alloc, queue_parameters(Kind::MainQueue, &[]))?,
        workers: one(alloc, 0)?,
        actions: one(alloc, pass_action(alloc)?)?,
        tests: Vec::new(alloc),
        tables,
        occurrences,
        list_queues,
        names: one(alloc, Items::from_slice(alloc, DEFAULT_RULESET)?)?,
        rulesets: 0,
        class_flows,
    })
}

// The plan of a script that has these items, with which nothing is wrong but for its lists.
fn assemble(alloc: Global, script: &Script, found: &[Item<'_>]) -> Result<Plan, PlanFault>
    requires placed { map placed found.now ≡ placed_items script.now }
    requires items { map item found.now ≡ items script.now }
    requires clean { faults_after (items script.now) [] (items script.now) ≡ [] }
    requires workers { too_many_workers (items script.now) ≡ [] }
    ensures plan { IfOk result (λ plan. HasParts script.now plan) }
    ensures ok { OnOk result (faults_of_its_lists script.now ≡ []) }
    ensures err { IfErr result (λ f. IsAnswered (faults_of_its_lists script.now) f) }
{
    let gathered = gather(alloc, found)?;
    let lists = expand_lists(alloc, script, found, &gathered)?;
    let names = list_names(
        alloc,
        gathered.rulesets.as_slice(),
        gathered.actions.as_slice(),
    )?;
    let rulesets = gathered.rulesets.len() as u32;
    let actions = action_parts(alloc, gathered.actions)?;
    let Ok(class_flows) = class_flows(
        alloc,
        Parts {
            tables: lists.tables.as_slice(),
            tests: gathered.tests.as_slice(),
            inputs: gathered.inputs.as_slice(),
            queues: gathered.list_queues.as_slice(),
        },
    ) else {
        return Err(PlanFault::no_memory(alloc));
    };
    Ok(Plan {
        inputs: gathered.inputs,
        queues: gathered.queues,
        workers: gathered.workers,
        actions,
        tests: gathered.tests,
        tables: lists.tables,
        occurrences: lists.occurrences,
        list_queues: gathered.list_queues,
        names,
        rulesets,
        class_flows,
    })
}

// The plan of a script that has these items.
fn load_items(alloc: Global, script: &Script, found: &[Item<'_>]) -> Result<Plan, PlanFault>
    requires placed { map placed found.now ≡ placed_items script.now }
    requires items { map item found.now ≡ items script.now }
    ensures plan { IfOk result (λ plan. HasParts script.now plan) }
    ensures ok { OnOk result (faults_of script.now ≡ []) }
    ensures err { IfErr result (λ f. IsAnswered (faults_of script.now) f) }
{
    check_script(alloc, found)?;
    assemble(alloc, script, found)
}

// The action that these occurrences run, where they are one run.
fn run_alone(occurrences: &[Occurrence]) -> Option<u32>
    ensures some { IfSome result (λ action. occurrences.now ≡ Occurrence.Run action ∷ []) }
    ensures none { IfNone result ((action : ℕ) → occurrences.now ≡ Occurrence.Run action ∷ [] → ⊥) }
{
    match occurrences {
        [Occurrence::Run(action)] => Some(*action),
        _ => None,
    }
}

impl Plan {
    /// The plan of a script. Refuses it for its first fault: those of its items in the order of the text, then too many workers, then those of
    /// its lists in the order of their numbers. Without a fault only memory may be missing. It goes as deep as the script nests, and takes
    /// time and memory linear in the text, but for what it works out for classes: each test is judged for all 192, and each list that an
    /// input or a queue has is walked once for all classes to which every test is the same.
    pub fn load(alloc: Global, script: &Script) -> Result<Plan, PlanFault>
        ensures plan { IfOk result (λ plan. IsPlan script.now plan) }
        ensures ok { OnOk result (faults_of script.now ≡ []) }
        ensures err { IfErr result (λ f. IsAnswered (faults_of script.now) f) }
        // What is refused is there,
        ensures there { IfErr result (λ f. (f ≡ no_memory) ⊎ HasFault script.now f) }
        // and a script without a fault is refused for memory alone.
        ensures only { IfErr result (λ f. HasNoFault script.now → f ≡ no_memory) }
    {
        match outline(alloc, script) {
            Ok(found) => load_items(alloc, script, found.as_slice()),
            Err(_) => Err(PlanFault::no_memory(alloc)),
        }
    }

    /// The plan that takes messages in and writes them all: one input that does not wait, of port 1; the main queue by its defaults, with
    /// its one worker; one archive, whose file has no name; and the list that runs it. Its only refusal is where memory runs out.
    pub fn pass(alloc: Global) -> Result<Plan, PlanFault>
        ensures value { IfOk result (λ plan. plan ≡ pass.plan) }
        // Of each message the one occurrence is executed.
        ensures work { IfOk result (λ plan. (m : Said) → work (body_at plan 0) m ≡ 0 ∷ []) }
        ensures err { IfErr result (λ f. f ≡ no_memory) }
    {
        match pass(alloc) {
            Ok(plan) => Ok(plan),
            Err(_) => Err(PlanFault::no_memory(alloc)),
        }
    }

    /// The inputs, in the order of the text.
    pub fn inputs(&self) -> &[Input]
        ensures { result.now ≡ self.now.inputs }
    {
        self.inputs.as_slice()
    }

    /// The parameters of the queues. The main queue is queue 0.
    pub fn queues(&self) -> &[QueueParameters]
        ensures { result.now ≡ self.now.queues }
    {
        self.queues.as_slice()
    }

    /// The queue of each worker.
    pub fn workers(&self) -> &[u32]
        ensures { result.now ≡ self.now.workers }
    {
        self.workers.as_slice()
    }

    /// The actions, in the order of the text.
    pub fn actions(&self) -> &[Action]
        ensures { result.now ≡ self.now.actions }
    {
        self.actions.as_slice()
    }

    /// The names of the lists, in the order of their numbers: list 0 has that of the default ruleset, those of rulesets and of actions have
    /// theirs.
    pub fn list_names(&self) -> &[Items<u8>]
        ensures names { result.now ≡ self.now.names }
        ensures lists { length result.now ≡ length self.now.lists }
    {
        self.names.as_slice()
    }

    /// The name of a list: its ruleset's, or that of the action that it runs.
    pub fn list_name(&self, list: u32) -> &[u8]
        requires exists { list < length self.now.lists }
        ensures { result.now ≡ name_at self.now list }
    {
        self.names[list as usize].as_slice()
    }

    /// What a list executes: its occurrences, numbered from 0.
    pub fn occurrences(&self, list: u32) -> &[Occurrence]
        requires exists { list < length self.now.lists }
        ensures { result.now ≡ body.occurrences (body_at self.now list) }
    {
        self.occurrences[list as usize].as_slice()
    }

    /// The queue of a list, where it has one of its own.
    pub fn list_queue(&self, list: u32) -> Option<u32>
        requires exists { list < length self.now.lists }
        ensures { result ≡ queue_at self.now list }
    {
        self.list_queues[list as usize]
    }

    /// The action whose own list this is: it has a queue, and its queue leads to this list, which runs the action alone. `None` for the list
    /// of a ruleset, also where that runs one action and nothing else, and for a list that isn't there.
    pub fn own_action(&self, list: u32) -> Option<u32>
        ensures { result ≡ owner_at self.now list }
    {
        if list <= self.rulesets {
            return None;
        }
        match self.occurrences.get(list as usize) {
            Some(occurrences) => run_alone(occurrences.as_slice()),
            None => None,
        }
    }

    /// Which occurrences of a list a message executes: bit k stands for occurrence k. It takes no memory. Where its class decides them, they
    /// are looked up, for a list that an input or a queue has. Else it visits the statements that the message reaches, from the first one
    /// that its class leaves open, and evaluates only the tests that its class leaves open.
    pub fn due(&self, list: u32, message: &Message) -> u64
        requires exists { list < length self.now.lists }
        ensures { Bits (Due (body_at self.now list) message.now) result }
    {
        due_of_list(&self.class_flows, &self.tables, &self.tests, list, message)
    }

    /// May and must of a list for a class: the occurrences that some valuation which the class admits executes, and those that every such
    /// valuation executes. Bit k stands for occurrence k. A valuation gives each test occurrence of the list's expanded text a truth value:
    /// where the class decides the test it is as the class says, every other is free by itself, also where one test occurs twice. So each
    /// message of the class executes all of must and nothing outside may. It takes no memory. They are looked up, for a list that an input
    /// or a queue has; for any other each statement of the expanded text is visited once at most.
    pub fn flows(&self, list: u32, class: Class) -> (u64, u64)
        requires exists { list < length self.now.lists }
        ensures may { Bits (May (body_at self.now list) class) result.0 }
        ensures must { Bits (Must (body_at self.now list) class) result.1 }
    {
        flows_of_list(&self.class_flows, &self.tables, &self.tests, list, class)
    }

    /// What the type keeps, for the law.
    pub(crate) fn is_whole(&self)
        ensures { IsWhole self.now }
    {
        let _ = &self.queues;
    }
}
