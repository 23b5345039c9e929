//! Expressions.
ghost use Rattle.std.specs.Prelude.{◌≡◌};
ghost use Rattle.sy_select.specs.Properties.{known, says};
ghost use Rattle.sy_select.specs.Truth.{IsVerdict, occurrences, truth, valuation};

pub mod laws;

use crate::fault::SelectFault;
use crate::node::{Node, is_true, verdict_of};
use crate::read_expr::node;
use crate::verdict::Verdict;
use std::alloc::Global;
use std::marker::Model;
use sy_script::tree::ExprTree;
use sy_wire::{Class, Message};

/// An expression that was read.
#[derive(Drop)]
pub struct Expr {
    node: Node,
}

impl Model for Expr {
    ghost use Rattle.sy_select.specs.Truth.{Formula};
    ghost use Rattle.sy_select.specs.declared.condition.Test.{Test};

    ghost Value = { Formula Test };

    ghost use Rattle.sy_select.specs.internal.Codes.{formula_code};
    ghost use Rattle.sy_select.specs.contracts.condition.Test as test;

    ghost coded = { formula_code test.the_row.coded };

    ghost use Rattle.sy_select.specs.internal.Nodes.{formula};

    ghost view = { λ e. formula e.node };
}

impl Expr {
    ghost use Rattle.std.specs.Prelude.{◌≡◌, [], IfOk, IfErr};
    ghost use Rattle.sy_select.specs.declared.condition.Test.{Test};
    ghost use Rattle.sy_select.specs.Faults.{IsRefusal, no_memory};
    ghost use Rattle.sy_select.specs.Trees.{IsExpr, tree_faults};
    ghost use Rattle.sy_select.specs.Truth.{Formula};

    /// Reads the expression of a script's tree. It goes as deep as the tree nests.
    pub fn read(alloc: Global, tree: &ExprTree) -> Result<Expr, SelectFault>
        // What is read is the expression that the tree is.
        ensures found { IfOk result (λ expr. IsExpr tree.now expr) }
        // A tree with a fault isn't read.
        ensures right { IfOk result (λ expr. tree_faults tree.now ≡ []) }
        // An expression is refused only where memory ran out.
        ensures only { (x : Formula Test) → IsExpr tree.now x → IfErr result (λ fault. fault ≡ no_memory) }
        // A refusal is for the first fault in the text, or memory ran out.
        ensures refused { IfErr result (λ fault. IsRefusal (tree_faults tree.now) fault) }
    {
        Ok(Expr {
            node: node(alloc, tree)?,
        })
    }
}

/// Whether the message meets the expression.
pub fn eval(expr: &Expr, message: &Message) -> bool
    ensures { result ≡ truth expr.now (valuation (says message.now) (occurrences expr.now)) }
{
    is_true(&expr.node, message)
}

/// What the class of a message alone says of the expression.
pub fn eval_class(expr: &Expr, class: Class) -> Verdict
    ensures { IsVerdict (known class) expr.now result }
{
    verdict_of(&expr.node, class)
}
