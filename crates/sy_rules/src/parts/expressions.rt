//! Reads the tests of a script.
ghost use Rattle.std.specs.Prelude.{◌≡◌, [], map, IfOk, OnOk, IfErr};
ghost use Rattle.sy_select.specs.Faults.{IsRefusal};
ghost use Rattle.sy_select.specs.Trees.{IsExpr, tree_faults};
ghost use Rattle.sy_rules.specs.items.Expressions.{trees_of};
ghost use Rattle.sy_rules.specs.internal.Checking.{faults_of_trees};
ghost use Rattle.sy_rules.specs.items.ItemViews.{item};
ghost use Rattle.sy_rules.specs.PlanValue.{AreExprs};

use crate::items::outline::Item;
use crate::lists::condition::Condition;
use std::alloc::Global;
use sy_script::tree::ExprTree;
use sy_select::{Expr, SelectFault};

// Reads one test.
fn read_test(alloc: Global, tree: &ExprTree) -> Result<Condition, SelectFault>
    ensures found { IfOk result (λ test. IsExpr tree.now test) }
    ensures right { IfOk result (λ test. tree_faults tree.now ≡ []) }
    ensures refused { IfErr result (λ fault. IsRefusal (tree_faults tree.now) fault) }
{
    Ok(Condition::new(Expr::read(alloc, tree)?))
}

/// The tests among these items, in their order. It goes as deep as an expression nests.
///
/// A refusal is for the first fault of an expression in the text, or where memory runs out.
pub fn read_tests(alloc: Global, items: &[Item<'_>]) -> Result<Vec<Condition>, SelectFault>
    ensures found { IfOk result (λ tests. AreExprs (trees_of (map item items.now)) tests.items) }
    ensures right { OnOk result (faults_of_trees (trees_of (map item items.now)) ≡ []) }
    ensures refused { IfErr result (λ fault. IsRefusal (faults_of_trees (trees_of (map item items.now))) fault) }
{
    let mut tests = Vec::new(alloc);
    for item in items {
        if let Item::Test(tree) = item {
            let test = read_test(alloc, tree)?;
            if tests.push(test).is_err() {
                return Err(SelectFault::no_memory(alloc));
            }
        }
    }
    Ok(tests)
}
