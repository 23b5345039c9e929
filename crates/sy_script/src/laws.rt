//! Laws of the grammar.

ghost use Rattle.std.specs.Prelude.{◌≡◌, ◌<◌, ◌≤◌, ◌⊎◌, ◌↔◌, ℕ, List, ◌∷◌, ◌++◌, length, Some};
ghost use Rattle.sy_script.specs.Depth.{depth, stmt_depth};
ghost use Rattle.sy_script.specs.Faults.{BeginsLeftOut, Deepens, IsAnswer, IsFirst, Misplaced, Stands, Unended};
ghost use Rattle.sy_script.specs.Grammar.{IsScript, StmtAt, TopsAt};
ghost use Rattle.sy_script.specs.declared.fault.FaultCode.{FaultCode};
ghost use Rattle.sy_script.specs.declared.fault.FaultCode.TheVariants as code;
ghost use Rattle.sy_script.specs.declared.fault.ScriptFault.{ScriptFault};
ghost use Rattle.sy_script.specs.Terms.{max_depth, max_text};
ghost use Rattle.sy_script.specs.declared.token.Kind.{Kind};
ghost use Rattle.sy_script.specs.declared.token.Token.{Token};
ghost use Rattle.sy_script.specs.Place.{IsPlace};
ghost use Rattle.sy_script.specs.Spans.{InOrder};
ghost use Rattle.sy_script.specs.Tokens.{AreTokens, Cut, PieceAt};
ghost use Rattle.sy_script.specs.declared.tree.Script.{Script};
ghost use Rattle.sy_script.specs.declared.tree.Stmt.{Stmt};
ghost use Rattle.sy_script.specs.declared.tree.Top.{Top};

/// One text, one tree.
pub fn one_tree()
    ensures { (text : List ℕ) (a b : Script) → IsScript text a → IsScript text b → a ≡ b }
{}

/// A script has no fault.
pub fn no_fault()
    ensures { (text : List ℕ) (script : Script) (f : ScriptFault) → IsScript text script → Stands text f
        → f.code ≡ code.NoMemory }
{}

/// Of the faults 23, 24 and 26 at most one stands in a text, and at one place.
pub fn one_misplaced()
    ensures { (text : List ℕ) (a b : FaultCode) (n m : ℕ) → Misplaced text a n → Misplaced text b m
        → (a ≡ b) × (n ≡ m) }
{}

/// Of the faults 21 and 22 at most one stands in a text, and at one place.
pub fn one_unended()
    ensures { (text : List ℕ) (a b : FaultCode) (n m : ℕ) → Unended text a n → Unended text b m → (a ≡ b) × (n ≡ m) }
{}

/// A text has at most one answer, with one place and one word: so the fault that is answered is determined. That
/// memory ran out is said in one way, and not of a text that is too large.
pub fn one_answer()
    ensures answer { (text : List ℕ) (a b : ScriptFault) → IsAnswer text a → IsAnswer text b → a ≡ b }
    ensures memory { (text : List ℕ) (a b : ScriptFault) → Stands text a → Stands text b → a.code ≡ code.NoMemory
        → b.code ≡ code.NoMemory → a ≡ b }
    ensures large { (text : List ℕ) (a : FaultCode) → max_text < length text → IsFirst text a → a ≡ code.TooLarge }
{}

/// Each text is a script or has a fault that is its answer.
pub fn a_script_or_a_fault()
    ensures { (text : List ℕ) → ((script : Script) × IsScript text script) ⊎ ((f : ScriptFault) × IsAnswer text f) }
{}

/// The bytes at a place begin with one token, so none that is longer or shorter.
pub fn one_token()
    ensures { (a b : Kind) (p q rest left : List ℕ) → PieceAt (Some a) p rest → PieceAt (Some b) q left
        → p ++ rest ≡ q ++ left → (a ≡ b) × (p ≡ q) }
{}

/// A text is cut into tokens in one way.
pub fn one_cutting()
    ensures { (text : List ℕ) (a b : List Token) → AreTokens text a → AreTokens text b → a ≡ b }
{}

/// The spans of a text's tokens are in order, and within what was cut.
pub fn spans_in_order()
    ensures { (text : List ℕ) (ts : List Token) (end : ℕ) (rest : List ℕ) → Cut 0 text ts end rest
        → InOrder 0 ts end }
{}

/// How much deeper the grammar lets a statement nest is how deep the statement's tree is: where it may stand at
/// all, it stands wherever its depth has room, and only there. So of a whole script.
pub fn depths()
    ensures statement { (text : List ℕ) (left n : ℕ) (x : Stmt) (ts rest : List Token) → StmtAt text left x ts rest
        → StmtAt text n x ts rest ↔ (stmt_depth x ≤ n) }
    ensures script { (text : List ℕ) (left n : ℕ) (x : Script) (ts : List Token) → TopsAt text left x.tops ts
        → TopsAt text n x.tops ts ↔ (depth x ≤ n) }
{}

/// Each place has a line and a column, and no others.
pub fn places()
    ensures some { (before : List ℕ) → (line : ℕ) × (column : ℕ) × IsPlace before line column }
    ensures one { (before : List ℕ) (a b n m : ℕ) → IsPlace before a n → IsPlace before b m → (a ≡ b) × (n ≡ m) }
{}

/// A token of fault 24 or 26 may not stand there: whatever comes after it, no script begins with the tokens up to
/// it. Of one of fault 23 its definition says so.
pub fn dead_ends()
    ensures { (text : List ℕ) (ts front rest : List Token) (t : Token) (end : ℕ) (left : List ℕ)
        → Cut 0 text ts end left → ts ≡ front ++ t ∷ rest → Deepens text ts t ⊎ BeginsLeftOut text ts t
        → (tree : List Top) (more : List Token) → TopsAt text max_depth tree (front ++ t ∷ more) → ⊥ }
{}
