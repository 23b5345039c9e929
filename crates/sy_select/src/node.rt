//! The tree of an expression, and the walks over it.
ghost use Rattle.std.specs.Prelude.{◌≡◌, map};
ghost use Rattle.sy_select.specs.Truth.{any, all};
ghost use Rattle.sy_select.specs.internal.Nodes.{formula};
ghost use Rattle.sy_select.specs.Properties as spec;
ghost use Rattle.sy_select.specs.internal.Walk as walk;

use crate::condition::{Test, of_class, says};
use crate::verdict::Verdict;
use sy_script::{Boxed, Items};
use sy_wire::{Class, Message};

/// An expression without its parentheses.
#[derive(Drop)]
pub enum Node {
    Test(Test),
    Not(Boxed<Node>),
    Or(Items<Node>),
    And(Items<Node>),
}

#[cycle(eval)]
fn any_true(parts: &[Node], message: &Message) -> bool
    ensures { result ≡ walk.holds (spec.says message.now) (any (map formula parts.now)) }
{
    for part in parts {
        if is_true(part, message) {
            return true;
        }
    }
    false
}

#[cycle(eval)]
fn all_true(parts: &[Node], message: &Message) -> bool
    ensures { result ≡ walk.holds (spec.says message.now) (all (map formula parts.now)) }
{
    for part in parts {
        if !is_true(part, message) {
            return false;
        }
    }
    true
}

/// Whether the expression is true of the message.
#[cycle(eval)]
pub fn is_true(node: &Node, message: &Message) -> bool
    ensures { result ≡ walk.holds (spec.says message.now) (formula node.now) }
{
    match node {
        Node::Test(test) => says(test, message),
        Node::Not(inner) => !is_true(inner.get(), message),
        Node::Or(parts) => any_true(parts.as_slice(), message),
        Node::And(parts) => all_true(parts.as_slice(), message),
    }
}

#[cycle(walk)]
fn any_verdict(parts: &[Node], class: Class) -> Verdict
    ensures { result ≡ walk.verdict (spec.known class) (any (map formula parts.now)) }
{
    let mut verdict = Verdict::No;
    for part in parts {
        verdict = verdict.or(verdict_of(part, class));
    }
    verdict
}

#[cycle(walk)]
fn all_verdict(parts: &[Node], class: Class) -> Verdict
    ensures { result ≡ walk.verdict (spec.known class) (all (map formula parts.now)) }
{
    let mut verdict = Verdict::Yes;
    for part in parts {
        verdict = verdict.and(verdict_of(part, class));
    }
    verdict
}

/// What the class says of the expression.
#[cycle(walk)]
pub fn verdict_of(node: &Node, class: Class) -> Verdict
    ensures { result ≡ walk.verdict (spec.known class) (formula node.now) }
{
    match node {
        Node::Test(Test::Field(_, _, _)) => Verdict::Either,
        Node::Test(Test::Class(test)) => {
            if of_class(test, class) {
                Verdict::Yes
            } else {
                Verdict::No
            }
        }
        Node::Not(inner) => verdict_of(inner.get(), class).opposite(),
        Node::Or(parts) => any_verdict(parts.as_slice(), class),
        Node::And(parts) => all_verdict(parts.as_slice(), class),
    }
}
