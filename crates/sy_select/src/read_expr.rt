//! From a script's tree to an expression.
ghost use Rattle.std.specs.Prelude.{◌≡◌, [], map, IfOk, IfErr};
ghost use Rattle.sy_select.specs.internal.Nodes.{formula};
ghost use Rattle.sy_select.specs.Properties as spec;
ghost use Rattle.sy_select.specs.Faults.{IsRefusal, faults_at, no_memory};
ghost use Rattle.sy_select.specs.Truth.{any};
ghost use Rattle.sy_select.specs.Trees as trees;

use crate::condition::{ClassTest, Match, Relation, Test};
use crate::fault::{FaultCode, SelectFault};
use crate::node::Node;
use crate::property::{Property, property_of};
use crate::selector::Selector;
use std::alloc::{AllocError, Global};
use sy_script::tree::{Comparison, ExprTree, Operand, Operator, Text};
use sy_script::{Boxed, Items};
use sy_wire::numbers::{is_numeral, number_up_to};

/// The largest number that a test keeps.
const LARGEST: u64 = 255;

fn match_by(operator: Operator, word: &[u8]) -> Option<Match>
    ensures { result ≡ spec.match_by operator word.now }
{
    match operator {
        Operator::Equal => Some(Match::Equal),
        Operator::NotEqual => Some(Match::NotEqual),
        Operator::Named if word.eq_ignore_ascii_case(b"contains") => Some(Match::Contains),
        Operator::Named if word.eq_ignore_ascii_case(b"startswith") => Some(Match::StartsWith),
        _ => None,
    }
}

fn relation_by(operator: Operator) -> Option<Relation>
    ensures { result ≡ spec.relation_by operator }
{
    match operator {
        Operator::Equal => Some(Relation::Equal),
        Operator::NotEqual => Some(Relation::NotEqual),
        Operator::Less => Some(Relation::Less),
        Operator::AtMost => Some(Relation::AtMost),
        Operator::Greater => Some(Relation::Greater),
        Operator::AtLeast => Some(Relation::AtLeast),
        Operator::Named => None,
    }
}

// The number of digits, 255 for a larger one.
fn number(digits: &[u8]) -> Option<u8>
    ensures { result ≡ spec.number digits.now }
{
    if !is_numeral(digits) {
        return None;
    }
    match number_up_to(digits, LARGEST) {
        Some(number) => Some(number as u8),
        None => Some(255),
    }
}

fn number_in(operand: &Operand) -> Option<u8>
    ensures { result ≡ spec.number_in operand.now }
{
    match operand {
        Operand::Number(word) => number(word.text.as_slice()),
        Operand::Text(text) => {
            if text.bytes.len() <= 3 {
                number(text.bytes.as_slice())
            } else {
                None
            }
        }
    }
}

// The test of a property, where its operator and its operand go with it.
fn test_of(
    alloc: Global,
    property: Property,
    comparison: &Comparison,
) -> Result<Option<Test>, AllocError>
    ensures { IfOk result (λ test. test ≡ spec.test_of property comparison.now) }
{
    let operator = comparison.operator;
    let how = match_by(operator, comparison.spelling.text.as_slice());
    Ok(match (property, how, &comparison.operand) {
        (Property::Field(field), Some(how), Operand::Text(text)) => {
            let text = Items::from_slice(alloc, text.bytes.as_slice())?;
            Some(Test::Field(field, how, text))
        }
        (Property::Text(part), Some(how), Operand::Text(text)) => {
            let text = Items::from_slice(alloc, text.bytes.as_slice())?;
            Some(Test::Class(ClassTest::Text(part, how, text)))
        }
        (Property::Number(part), _, operand) => match (relation_by(operator), number_in(operand)) {
            (Some(relation), Some(number)) => {
                Some(Test::Class(ClassTest::Number(part, relation, number)))
            }
            _ => None,
        },
        _ => None,
    })
}

fn comparison(alloc: Global, comparison: &Comparison) -> Result<Test, SelectFault>
    ensures ok { IfOk result (λ test. spec.comparison_test comparison.now ≡ Some test) }
    ensures right { IfOk result (λ test. trees.comparison_faults comparison.now ≡ []) }
    ensures err { IfErr result (λ fault. IsRefusal (trees.comparison_faults comparison.now) fault) }
{
    let Some(property) = property_of(comparison.property.text.as_slice()) else {
        return Err(SelectFault::of_word(alloc, FaultCode::Unknown, &comparison.property));
    };
    match test_of(alloc, property, comparison) {
        Ok(Some(test)) => Ok(test),
        Ok(None) => Err(SelectFault::of_word(alloc, FaultCode::Operator, &comparison.spelling)),
        Err(_) => Err(SelectFault::no_memory(alloc)),
    }
}

// The test of a `prifilt`.
fn selected(alloc: Global, text: &Text) -> Result<Test, SelectFault>
    ensures ok { IfOk result (λ test. trees.Selects text.now.bytes test) }
    ensures right { IfOk result (λ test. faults_at text.now.span text.now.bytes ≡ []) }
    ensures err { IfErr result (λ fault. IsRefusal (faults_at text.now.span text.now.bytes) fault) }
{
    let selector = Selector::read_at(alloc, text.bytes.as_slice(), text.span)?;
    Ok(Test::Class(ClassTest::Selected(selector)))
}

fn boxed(alloc: Global, node: Node) -> Result<Boxed<Node>, SelectFault>
    ensures ok { IfOk result (λ boxed. boxed ≡ node) }
    ensures err { IfErr result (λ fault. fault ≡ no_memory) }
{
    match Boxed::new(alloc, node) {
        Ok(boxed) => Ok(boxed),
        Err(_) => Err(SelectFault::no_memory(alloc)),
    }
}

// The parts of a chain, in their order.
#[cycle(read)]
fn nodes(alloc: Global, parts: &[ExprTree]) -> Result<Items<Node>, SelectFault>
    ensures ok { IfOk result (λ nodes. trees.Means (any (map trees.written parts.now)) (any (map formula nodes))) }
    ensures right { IfOk result (λ nodes. trees.all_faults (any (map trees.written parts.now)) ≡ []) }
    ensures err { IfErr result (λ fault. IsRefusal (trees.all_faults (any (map trees.written parts.now))) fault) }
{
    let mut nodes = Items::new(alloc);
    for part in parts {
        let part = node(alloc, part)?;
        if nodes.push(part).is_err() {
            return Err(SelectFault::no_memory(alloc));
        }
    }
    Ok(nodes)
}

/// The expression of a tree, without its parentheses, or the first fault.
#[cycle(read)]
pub fn node(alloc: Global, tree: &ExprTree) -> Result<Node, SelectFault>
    ensures ok { IfOk result (λ node. trees.Means (trees.written tree.now) (formula node)) }
    ensures right { IfOk result (λ node. trees.all_faults (trees.written tree.now) ≡ []) }
    ensures err { IfErr result (λ fault. IsRefusal (trees.all_faults (trees.written tree.now)) fault) }
{
    match tree {
        ExprTree::Or(parts) => {
            let parts = nodes(alloc, parts.as_slice())?;
            Ok(Node::Or(parts))
        }
        ExprTree::And(parts) => {
            let parts = nodes(alloc, parts.as_slice())?;
            Ok(Node::And(parts))
        }
        ExprTree::Not(inner) => {
            let inner = node(alloc, inner.get())?;
            Ok(Node::Not(boxed(alloc, inner)?))
        }
        ExprTree::Group(inner) => node(alloc, inner.get()),
        ExprTree::Prifilt(text) => {
            let test = selected(alloc, text)?;
            Ok(Node::Test(test))
        }
        ExprTree::Compare(test) => {
            let test = comparison(alloc, test)?;
            Ok(Node::Test(test))
        }
    }
}
