//! A queue with its marks.
ghost use Rattle.std.specs.Prelude.{◌≡◌, ◌+◌, ◌^◌, ◌<◌, ◌≤◌, ◌∷◌, ◌++◌, [], ◌==◌, None, not, drop, length, nat_le, option_to_list, IfNone, IfSome, IsTrue, ◌↔◌};
ghost use Rattle.sy_marks.specs.Marks as spec;

use crate::marks::{Flow, Hold, Marks, is_reached};
use std::marker::Model;
use std::mem;
use sy_chain::{Chain, Node};

/// A queue of entries, which never has more of them than its size.
///
/// The entries that a worker has taken don't count. No call takes memory.
#[derive(Drop)]
pub struct MarkQueue {
    marks: Marks,
    nodes: Chain,
}

impl Model for MarkQueue {
    ghost use Rattle.std.specs.Prelude.{◌<◌, ◌^◌, ◌≤◌, length};
    ghost use Rattle.sy_marks.specs.Marks.{QueueState};

    ghost Value = { QueueState };

    ghost view = { λ q. record { marks = q.marks; entries = q.nodes } };

    ghost invariant = { λ q. (length q.nodes ≤ q.marks.size) × (q.marks.size < 2 ^ 64) };
}

// Whether an entry is lost where so many remain without it.
fn is_lost(marks: Marks, node: &Node, remaining: usize) -> bool
    ensures { result ≡ spec.is_lost marks node.now remaining }
{
    marks.discards(node.message().class().severity, remaining)
}

// Whether something is due for an entry.
fn has_work(node: &Node) -> bool
    ensures { result ≡ not (node.now.due == 0) }
{
    node.due() != 0
}

// Takes so many entries from the front, one after the other, into those kept and those lost. What it costs doesn't
// grow with the entries that stay.
fn sort_out(marks: Marks, count: usize, nodes: &mut Chain, kept: &mut Chain, lost: &mut Chain)
    requires there { count ≤ length nodes.old }
    requires fits { length nodes.old < 2 ^ 64 }
    ensures rest { nodes.new ≡ drop count nodes.old }
    ensures kept { kept.new ≡ kept.old ++ spec.kept_of marks count nodes.old }
    ensures lost { lost.new ≡ lost.old ++ spec.lost_of marks count nodes.old }
{
    let mut remaining = count;
    while remaining > 0 {
        let Some(node) = nodes.pop_front() else {
            return;
        };
        remaining -= 1;
        if is_lost(marks, &node, nodes.len()) {
            lost.push_back(node);
        } else if has_work(&node) {
            kept.push_back(node);
        }
    }
}

impl MarkQueue {
    /// An empty queue, which takes no memory.
    pub fn new(marks: Marks) -> MarkQueue
        ensures { result ≡ record { marks = marks; entries = [] } }
    {
        MarkQueue {
            marks,
            nodes: Chain::new(),
        }
    }

    /// Its size and marks.
    pub fn marks(&self) -> Marks
        ensures { result ≡ self.now.marks }
    {
        self.marks
    }

    /// How many entries wait.
    pub fn len(&self) -> usize
        ensures value { result ≡ length self.now.entries }
        ensures bound { length self.now.entries ≤ self.now.marks.size }
    {
        self.nodes.len()
    }

    /// Whether none wait.
    pub fn is_empty(&self) -> bool
        ensures { IsTrue result ↔ (self.now.entries ≡ []) }
    {
        self.nodes.is_empty()
    }

    /// Whether a message of this severity is discarded now.
    pub fn discards(&self, severity: u8) -> bool
        ensures { result ≡ spec.discards self.now.marks severity (length self.now.entries) }
    {
        self.marks.discards(severity, self.nodes.len())
    }

    /// What holds a message of an input of this flow now: first the full-delay mark, then the size, then the
    /// light-delay mark.
    pub fn gate(&self, flow: Flow) -> Hold
        ensures { spec.HoldIs result flow self.now.marks (length self.now.entries) }
    {
        self.marks.hold(flow, self.nodes.len())
    }

    /// Puts an entry at the end.
    pub fn push(&mut self, node: Node)
        requires { length self.old.entries < self.old.marks.size }
        ensures { self.new ≡ record self.old { entries = self.old.entries ++ node ∷ [] } }
    {
        self.nodes.push_back(node);
    }

    /// Whether so many wait as it has room for.
    pub fn is_full(&self) -> bool
        ensures { result ≡ nat_le self.now.marks.size (length self.now.entries) }
    {
        self.marks.is_full(self.nodes.len())
    }

    /// Moves the entry of a place, if there is one, to the end.
    pub fn push_from(&mut self, place: &mut Option<Node>)
        requires { length self.old.entries < self.old.marks.size }
        ensures entries { self.new ≡ record self.old { entries = self.old.entries ++ option_to_list place.old } }
        ensures empty { place.new ≡ None }
    {
        if let Some(node) = place.take() {
            self.push(node);
        }
    }

    /// Takes the entry at the front, if there is one, without a look at the discard mark.
    pub fn pop_front(&mut self) -> Option<Node>
        ensures some { IfSome result (λ n. self.old.entries ≡ n ∷ self.new.entries) }
        ensures none { IfNone result (self.old.entries ≡ []) }
        ensures marks { self.new.marks ≡ self.old.marks }
    {
        self.nodes.pop_front()
    }

    /// Whether an entry that is taken now may be lost: only where the discard mark is reached.
    pub fn may_lose(&self) -> bool
        ensures { result ≡ spec.is_reached self.now.marks.discard_mark (length self.now.entries) }
    {
        is_reached(self.marks.discard_mark, self.nodes.len())
    }

    /// Whether an entry that was just taken from the front is lost: it is discarded at the length that remains.
    pub fn loses(&self, node: &Node) -> bool
        ensures { result ≡ spec.is_lost self.now.marks node.now (length self.now.entries) }
    {
        // mostly the mark isn't reached, and the message isn't looked at
        self.may_lose() && is_lost(self.marks, node, self.nodes.len())
    }

    /// Puts entries back to the front, in their order.
    pub fn prepend(&mut self, mut front: Chain)
        requires { length front + length self.old.entries ≤ self.old.marks.size }
        ensures { self.new ≡ record self.old { entries = front ++ self.old.entries } }
    {
        mem::swap(&mut self.nodes, &mut front);
        self.nodes.append(front);
    }

    /// The entries that wait, front first.
    pub fn into_chain(self) -> Chain
        ensures { result ≡ self.entries }
    {
        let MarkQueue { marks: _, nodes } = self;
        nodes
    }

    /// Takes n entries from the front, or all where fewer wait, one after the other: those that are kept, and those
    /// that are lost. An entry is lost where it is discarded at the length that remains without it. One that isn't
    /// and has nothing due is finished: it is in neither chain, and is dropped.
    pub fn grab(&mut self, n: usize) -> (Chain, Chain)
        ensures kept { result.0 ≡ spec.kept_of self.old.marks n self.old.entries }
        ensures lost { result.1 ≡ spec.lost_of self.old.marks n self.old.entries }
        ensures rest { self.new ≡ record self.old { entries = drop n self.old.entries } }
    {
        let count = n.min(self.nodes.len());
        let (mut kept, mut lost) = (Chain::new(), Chain::new());
        sort_out(self.marks, count, &mut self.nodes, &mut kept, &mut lost);
        (kept, lost)
    }
}
