//! Laws of selectors: each function does nothing, and its contract is the law.

ghost use Rattle.std.specs.Prelude.{◌≡◌, ◌≢◌, [], ◌++◌, ℕ, List, false, true, codes};
ghost use Rattle.sy_select.specs.Faults.{IsRefusal, faults, no_memory};
ghost use Rattle.sy_select.specs.Selectors.{Part, IsSelector, IsSetOf, pairs_of};
ghost use Rattle.sy_select.specs.declared.fault.SelectFault.{SelectFault};

/// A text has at most one list of parts.
pub fn one_list_of_parts()
    ensures { (text : List ℕ) (a b : List Part) → IsSelector text a → IsSelector text b → a ≡ b }
{}

/// A text has at most one set, as the numbers of its 24 severity sets.
pub fn one_set()
    ensures { (text a b : List ℕ) → IsSetOf text a → IsSetOf text b → a ≡ b }
{}

/// A selector has no fault.
pub fn selectors_have_no_fault()
    ensures { (text : List ℕ) (parts : List Part) → IsSelector text parts → faults text ≡ [] }
{}

/// A text without faults is a selector.
pub fn no_fault_is_a_selector()
    ensures { (text : List ℕ) → faults text ≡ [] → (parts : List Part) × IsSelector text parts }
{}

/// What is answered for a text that is no selector is determined, memory aside: the first of its faults. So of the
/// faults of an expression.
pub fn one_refusal()
    ensures { (found : List SelectFault) (a b : SelectFault) → IsRefusal found a → IsRefusal found b → a ≢ no_memory
        → b ≢ no_memory → a ≡ b }
{}

/// With `;*.none` after it, a selector is one of no pairs.
pub fn none_at_the_end()
    ensures { (text : List ℕ) (parts : List Part) → IsSelector text parts
        → (more : List Part) × IsSelector (text ++ codes ";*.none") more × ((f s : ℕ) → pairs_of more f s ≡ false) }
{}

/// With `;*.*` after it, a selector is one of all pairs, for each of the 24 facilities the 8 severities.
pub fn all_at_the_end()
    ensures { (text : List ℕ) (parts : List Part) → IsSelector text parts
        → (more : List Part) × IsSelector (text ++ codes ";*.*") more × ((f s : ℕ) → pairs_of more f s ≡ true) }
{}
