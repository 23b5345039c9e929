//! What is true of lines.

ghost use Rattle.sy_escapes.specs.Escapes.{AreExact};

/// What is escaped is one line, and two texts of which the same comes are the same. The function does nothing, and its
/// contract is the law.
pub fn escapes_are_exact()
    ensures { AreExact }
{}
