//! Laws of expressions. Each function does nothing; its contract is the law.
ghost use Rattle.std.specs.Prelude.{◌≡◌, ◌↔◌, ◌++◌, ℕ, true, false, List, []};
ghost use Rattle.sy_wire.specs.declared.class.Class.{Class};
ghost use Rattle.sy_wire.specs.Messages.{Said};
ghost use Rattle.sy_script.specs.declared.tree.ExprTree.{ExprTree};
ghost use Rattle.sy_select.specs.Properties.{kept, known, matches, part_number, relates, says};
ghost use Rattle.sy_select.specs.Trees.{IsExpr, tree_faults};
ghost use Rattle.sy_select.specs.Truth.{Formula, IsVerdict, occurrences, opposite, truth, valuation};
ghost use Rattle.sy_select.specs.Truth.Formula.{Not};
ghost use Rattle.sy_select.specs.declared.condition.Match.TheVariants.{Contains, StartsWith};
ghost use Rattle.sy_select.specs.declared.condition.Relation.{Relation};
ghost use Rattle.sy_select.specs.declared.condition.Test.{Test};
ghost use Rattle.sy_select.specs.declared.property.Part.{Part};
ghost use Rattle.sy_select.specs.declared.verdict.Verdict.{Verdict};
ghost use Rattle.sy_select.specs.declared.verdict.Verdict.TheVariants.{Yes, No};

/// Where a class says Yes, the expression is true of each of its messages, and where it says No, of none.
pub fn a_verdict_holds()
    ensures yes { (x : Formula Test) (m : Said) → IsVerdict (known m.class) x Yes
        → truth x (valuation (says m) (occurrences x)) ≡ true }
    ensures no { (x : Formula Test) (m : Said) → IsVerdict (known m.class) x No
        → truth x (valuation (says m) (occurrences x)) ≡ false }
{}

/// A class says one thing of an expression.
pub fn one_verdict()
    ensures { (x : Formula Test) (class : Class) (a b : Verdict) → IsVerdict (known class) x a
        → IsVerdict (known class) x b → a ≡ b }
{}

/// It says the opposite of what stands after `not`.
pub fn the_opposite_of_not()
    ensures { (x : Formula Test) (class : Class) (v : Verdict) → IsVerdict (known class) x v
        → IsVerdict (known class) (Not x) (opposite v) }
{}

/// A number as a test keeps it compares with a class as the number itself.
pub fn numbers_compare_as_numbers()
    ensures { (part : Part) (relation : Relation) (class : Class) (n : ℕ)
        → relates relation (part_number part class) (kept n) ≡ relates relation (part_number part class) n }
{}

/// A text contains another exactly where it is that with something before it and after it, and starts with it exactly
/// where it is that with something after it. So each text contains and starts with the empty one.
pub fn texts_by_their_parts()
    ensures contains { (text other : List ℕ)
        → (matches Contains text other ≡ true) ↔ ((before : List ℕ) × (after : List ℕ)
        × (text ≡ before ++ (other ++ after))) }
    ensures startswith { (text other : List ℕ)
        → (matches StartsWith text other ≡ true) ↔ ((after : List ℕ) × (text ≡ other ++ after)) }
    ensures empty { (text : List ℕ) → (matches Contains text [] ≡ true) × (matches StartsWith text [] ≡ true) }
{}

/// A tree that is an expression has no fault.
pub fn an_expression_has_no_fault()
    ensures { (tree : ExprTree) (x : Formula Test) → IsExpr tree x → tree_faults tree ≡ [] }
{}

/// A tree is at most one expression.
pub fn one_expression()
    ensures { (tree : ExprTree) (x y : Formula Test) → IsExpr tree x → IsExpr tree y → x ≡ y }
{}

/// A tree without faults is an expression.
pub fn no_fault_is_an_expression()
    ensures { (tree : ExprTree) → tree_faults tree ≡ [] → (x : Formula Test) × IsExpr tree x }
{}
