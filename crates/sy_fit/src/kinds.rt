//! What may be wrong at one input, for a class: the kinds 1 to 7.

ghost use Rattle.std.specs.Prelude.{◌≡◌, ◌<◌, Decides, is_some, length, slice_get, true};
ghost use Rattle.std.specs.List.{list_any};
ghost use Rattle.sy_board.specs.relay.Kinds.{MayDiscard};
ghost use Rattle.sy_board.specs.relay.Plans as plans;
ghost use Rattle.sy_rules.specs.Whole as whole;
ghost use Rattle.sy_site.specs.Sites.{plan_at};
ghost use Rattle.sy_site.specs.machine.Findings.{HoldsAt, Kind};
ghost use Rattle.sy_site.specs.internal.Findings.{IsFedFreely, queue_of};
ghost use Rattle.sy_site.specs.machine.Lawful.{IsInput};
ghost use Rattle.sy_fit.specs.Fit.{IsClean};
ghost use Rattle.sy_fit.specs.internal.Risks as spec;
ghost use Rattle.sy_fit.specs.Risks.{kind_of};
ghost use Rattle.sy_flows.specs.Flows.{AreSiteFlows, is_used};
ghost use Rattle.sy_flows.specs.Hops.{AreFlows};

use sy_board::retry_of;
use sy_flows::{
    ClassFlows, Executed, SiteFlows, input_at, list_at, lists_at, next_in, occurrence_at, set_at,
};
use sy_rules::laws::plans_are_whole;
use sy_rules::{Destination, FlowControl, Input, Occurrence, Plan, QueueParameters};
use sy_site::{Site, SiteInput};
use sy_wire::Class;

fn is_full_delay(flow: FlowControl) -> bool
    ensures { result ≡ spec.is_full_delay flow }
{
    matches!(flow, FlowControl::Full)
}

/// 1 NotFull: the input doesn't wait at the full-delay mark.
pub fn is_not_full(site: &Site, class: Class, input: SiteInput) -> bool
    requires there { IsInput site.now input }
    ensures { Decides result (HoldsAt site.now class input Kind.NotFull) }
{
    !is_full_delay(input_at(site, input).flow)
}

// The parameters of a queue.
fn parameters_at(site: &Site, relay: u32, queue: u32) -> QueueParameters
    requires relay { relay < length site.now.relays }
    requires there { queue < length (plan_at site.now relay).queues }
    ensures { result ≡ plans.parameters_at (plan_at site.now relay) queue }
{
    site.plan(relay).queues()[queue as usize]
}

// The queue of an input.
fn queue_of_input(site: &Site, input: SiteInput) -> u32
    requires there { IsInput site.now input }
    ensures queue { result ≡ plans.queue_of_input (plan_at site.now input.relay) input.input }
    ensures there { result < length (plan_at site.now input.relay).queues }
{
    plans_are_whole(site.plan(input.relay));
    input_at(site, input).queue
}

fn queue_at(site: &Site, input: SiteInput) -> QueueParameters
    requires there { IsInput site.now input }
    ensures { result ≡ queue_of site.now input }
{
    parameters_at(site, input.relay, queue_of_input(site, input))
}

/// 2 MarkOff: its queue has no full-delay mark.
pub fn is_mark_off(site: &Site, class: Class, input: SiteInput) -> bool
    requires there { IsInput site.now input }
    ensures { Decides result (HoldsAt site.now class input Kind.MarkOff) }
{
    queue_at(site, input).full_delay_mark == 0
}

/// 3 MarkAboveSize: that mark is above the queue's size.
pub fn is_mark_above_size(site: &Site, class: Class, input: SiteInput) -> bool
    requires there { IsInput site.now input }
    ensures { Decides result (HoldsAt site.now class input Kind.MarkAboveSize) }
{
    let queue = queue_at(site, input);
    queue.size < queue.full_delay_mark
}

// The queue that a message for a list is put into.
fn queue_for(plan: &Plan, list: u32) -> u32
    ensures queue { result ≡ whole.queue_for plan.now list }
    ensures there { result < length plan.now.queues }
{
    plans_are_whole(plan);
    if list as usize >= plan.list_names().len() {
        return 0;
    }
    match plan.list_queue(list) {
        Some(queue) => queue,
        None => 0,
    }
}

// Whether an occurrence puts messages into a queue.
fn posts_into(plan: &Plan, occurrence: Occurrence, queue: u32) -> bool
    ensures { result ≡ spec.posts_into plan.now queue occurrence }
{
    match occurrence {
        Occurrence::Run(_) => false,
        Occurrence::Post(list) => queue_for(plan, list) == queue,
    }
}

// Whether a list does.
fn list_posts(plan: &Plan, list: u32, queue: u32) -> bool
    requires exists { list < length plan.now.lists }
    ensures { result ≡ list_any (spec.posts_into plan.now queue) (plans.occurrences_at plan.now list) }
{
    plan.occurrences(list)
        .iter()
        .any(|o| posts_into(plan, *o, queue))
}

// Whether some list does.
fn has_post(plan: &Plan, queue: u32) -> bool
    ensures { Decides result (spec.HasPost plan.now queue) }
{
    plans_are_whole(plan);
    let lists = plan.list_names().len() as u32;
    for list in 0..lists {
        if list_posts(plan, list, queue) {
            return true;
        }
    }
    false
}

// Whether an input that isn't a full-delay one puts into a queue.
fn has_free_input(inputs: &[Input], queue: u32) -> bool
    ensures { result ≡ list_any (spec.is_free queue) inputs.now }
{
    inputs
        .iter()
        .any(|i| i.queue == queue && !is_full_delay(i.flow))
}

// Whether some feeder of a queue, of any class, isn't a full-delay one: where posts into it wait, they are.
fn is_fed_freely(site: &Site, relay: u32, queue: u32) -> bool
    requires relay { relay < length site.now.relays }
    requires there { queue < length (plan_at site.now relay).queues }
    ensures { Decides result (IsFedFreely site.now relay queue) }
{
    let plan = site.plan(relay);
    if has_free_input(plan.inputs(), queue) {
        return true;
    }
    if parameters_at(site, relay, queue).waits {
        return false;
    }
    has_post(plan, queue)
}

// Whether a message of the class can be discarded at a queue.
fn may_discard_at(site: &Site, class: Class, relay: u32, queue: u32) -> bool
    requires relay { relay < length site.now.relays }
    requires there { queue < length (plan_at site.now relay).queues }
    ensures { Decides result (MayDiscard (plan_at site.now relay) class queue) }
{
    let parameters = parameters_at(site, relay, queue);
    if parameters.discard_severity > class.severity {
        return false;
    }
    if parameters.discard_mark == 0 {
        return false;
    }
    if parameters.discard_mark <= parameters.full_delay_mark {
        return true;
    }
    is_fed_freely(site, relay, queue)
}

/// 4 Discards: a message of the class can be discarded at the input.
pub fn may_discard(site: &Site, class: Class, input: SiteInput) -> bool
    requires there { IsInput site.now input }
    ensures { Decides result (HoldsAt site.now class input Kind.Discards) }
{
    may_discard_at(site, class, input.relay, queue_of_input(site, input))
}

// Whether a message that a post puts into a queue can be lost on the way.
fn may_lose(site: &Site, class: Class, relay: u32, queue: u32) -> bool
    requires relay { relay < length site.now.relays }
    requires there { queue < length (plan_at site.now relay).queues }
    ensures { Decides result (spec.MayLoseByPost (plan_at site.now relay) class queue) }
{
    let parameters = parameters_at(site, relay, queue);
    if !parameters.waits {
        return true;
    }
    if parameters.full_delay_mark == 0 {
        return true;
    }
    if parameters.size < parameters.full_delay_mark {
        return true;
    }
    may_discard_at(site, class, relay, queue)
}

/// What may be wrong with an occurrence: a post that can lose messages on the way, a run that is given up at some time, and
/// a forward that leads nowhere.
#[derive(Clone, Copy)]
pub enum Risk {
    Post,
    GivesUp,
    NoTarget,
}

fn gives_up(plan: &Plan, action: u32) -> bool
    ensures { result ≡ is_some (plans.retry_at plan.now action) }
{
    retry_of(plan, action).is_some()
}

fn is_forward(plan: &Plan, action: u32) -> bool
    ensures { result ≡ spec.is_forward (slice_get plan.now.actions action) }
{
    match plan.actions().get(action as usize) {
        Some(action) => match &action.destination {
            Destination::Archive(_) => false,
            Destination::Forward(_, _) => true,
        },
        None => false,
    }
}

// Whether a run of an action has the risk.
fn run_risks(site: &Site, relay: u32, risk: Risk, action: u32) -> bool
    requires relay { relay < length site.now.relays }
    ensures { result ≡ spec.run_risks site.now relay risk action }
{
    match risk {
        Risk::Post => false,
        Risk::GivesUp => gives_up(site.plan(relay), action),
        Risk::NoTarget => {
            is_forward(site.plan(relay), action) && site.target(relay, action).is_none()
        }
    }
}

// Whether a post to a list has it.
fn post_risks(site: &Site, class: Class, relay: u32, risk: Risk, list: u32) -> bool
    requires relay { relay < length site.now.relays }
    ensures { Decides result (spec.PostRisks site.now class relay risk list) }
{
    match risk {
        Risk::Post => may_lose(site, class, relay, queue_for(site.plan(relay), list)),
        Risk::GivesUp | Risk::NoTarget => false,
    }
}

// Whether an occurrence has it.
fn is_risk(site: &Site, class: Class, relay: u32, risk: Risk, occurrence: Occurrence) -> bool
    requires relay { relay < length site.now.relays }
    ensures { Decides result (spec.IsRisk site.now class relay risk occurrence) }
{
    match occurrence {
        Occurrence::Post(list) => post_risks(site, class, relay, risk, list),
        Occurrence::Run(action) => run_risks(site, relay, risk, action),
    }
}

// Whether the occurrence of a list has it that has this number.
fn has_risk(site: &Site, class: Class, relay: u32, list: u32, number: u32, risk: Risk) -> bool
    requires relay { relay < length site.now.relays }
    requires there { list < length (plan_at site.now relay).lists }
    ensures { Decides result (spec.HasRisk site.now class relay list number risk) }
{
    match occurrence_at(site, relay, list, number) {
        Some(occurrence) => is_risk(site, class, relay, risk, occurrence),
        None => false,
    }
}

// Whether some occurrence of a list has it that may be executed and isn't spare.
fn list_risks(
    site: &Site,
    class: Class,
    flows: &SiteFlows,
    relay: u32,
    list: u32,
    risk: Risk,
) -> bool
    requires relay { relay < length site.now.relays }
    requires there { list < length (plan_at site.now relay).lists }
    requires used { is_used (plan_at site.now relay) list ≡ true }
    requires flows { AreSiteFlows site.now class flows.now }
    ensures { Decides result (spec.ListRisks site.now class relay list risk) }
{
    let may = set_at(site, class, flows, Executed::Firm, relay, list);
    let mut from = 0;
    while let Some(number) = next_in(may, from) {
        if has_risk(site, class, relay, list, number, risk) {
            return true;
        }
        from = number + 1;
    }
    false
}

// Whether one of some lists has it that posts lead to from an input's list.
fn posted_risks(site: &Site, class: Class, flows: &ClassFlows, input: SiteInput, risk: Risk) -> bool
    requires there { IsInput site.now input }
    requires flows { AreFlows site.now class flows.now }
    ensures { Decides result (spec.PostedRisks site.now class input risk) }
{
    site.is_lawful();
    for list in lists_at(site, class, flows, input) {
        if list_risks(site, class, &flows.lists, input.relay, *list, risk) {
            return true;
        }
    }
    false
}

/// 5 InnerQueue, 6 GivesUp, 7 NoTarget: some occurrence has the risk that may be executed and isn't spare, of a list that is
/// followed from the input on: its own, or one that posts lead to.
pub fn may_risk(site: &Site, class: Class, flows: &ClassFlows, input: SiteInput, risk: Risk) -> bool
    requires there { IsInput site.now input }
    requires flows { AreFlows site.now class flows.now }
    ensures { Decides result (HoldsAt site.now class input (kind_of risk)) }
{
    let own = list_at(site, input);
    if list_risks(site, class, &flows.lists, input.relay, own, risk) {
        return true;
    }
    posted_risks(site, class, flows, input, risk)
}

// Whether one of the kinds 5 to 7 holds at an input.
fn is_risky(site: &Site, class: Class, flows: &ClassFlows, input: SiteInput) -> bool
    requires there { IsInput site.now input }
    requires flows { AreFlows site.now class flows.now }
    ensures { Decides result (spec.IsRisky site.now class input) }
{
    let posts = may_risk(site, class, flows, input, Risk::Post);
    if posts {
        return true;
    }
    let gives_up = may_risk(site, class, flows, input, Risk::GivesUp);
    if gives_up {
        return true;
    }
    may_risk(site, class, flows, input, Risk::NoTarget)
}

/// Whether none of the kinds 1 to 7 holds at an input.
pub fn is_clean(site: &Site, class: Class, flows: &ClassFlows, input: SiteInput) -> bool
    requires there { IsInput site.now input }
    requires flows { AreFlows site.now class flows.now }
    ensures { Decides result (IsClean site.now class input) }
{
    if is_not_full(site, class, input) {
        return false;
    }
    if is_mark_off(site, class, input) {
        return false;
    }
    if is_mark_above_size(site, class, input) {
        return false;
    }
    if may_discard(site, class, input) {
        return false;
    }
    !is_risky(site, class, flows, input)
}
