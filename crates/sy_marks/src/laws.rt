//! Laws of queues with marks. Each function does nothing; its contract is the law.
ghost use Rattle.std.specs.Prelude.{ℕ, List};
ghost use Rattle.sy_chain.specs.Entries.{Entry};
ghost use Rattle.sy_marks.specs.Answers.{IsParted, OneHold};
ghost use Rattle.sy_marks.specs.declared.marks.Flow.{Flow};
ghost use Rattle.sy_marks.specs.declared.marks.Marks.{Marks};

/// At each length exactly one answer is given to an input.
pub fn one_hold()
    ensures { (flow : Flow) (marks : Marks) (waiting : ℕ) → OneHold flow marks waiting }
{}

/// Of the entries that are taken none vanishes, and none is made: each is kept, lost or finished.
pub fn nothing_vanishes()
    ensures { (marks : Marks) (n : ℕ) (entries : List Entry) → IsParted marks n entries }
{}
