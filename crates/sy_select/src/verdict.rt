//! What a class alone says of an expression.

/// Whether an expression is true, where the class of a message is known and nothing else of it.
#[derive(Clone, Copy, Debug, PartialEq, Eq)]
pub enum Verdict {
    /// It is true, whatever the other tests say.
    Yes,
    /// It is false, whatever the other tests say.
    No,
    /// The other tests decide.
    Either,
}

impl Verdict {
    ghost use Rattle.std.specs.Prelude.{◌≡◌};
    ghost use Rattle.sy_select.specs.Truth.{opposite};
    ghost use Rattle.sy_select.specs.internal.Walk as walk;

    /// The verdict of `not`.
    pub(crate) fn opposite(self) -> Verdict
        ensures { result ≡ opposite self }
    {
        match self {
            Verdict::Yes => Verdict::No,
            Verdict::No => Verdict::Yes,
            Verdict::Either => Verdict::Either,
        }
    }

    /// The verdict of `or`, where no test occurs in both parts.
    pub(crate) fn or(self, other: Verdict) -> Verdict
        ensures { result ≡ walk.or_of self other }
    {
        match (self, other) {
            (Verdict::Yes, _) | (_, Verdict::Yes) => Verdict::Yes,
            (Verdict::No, Verdict::No) => Verdict::No,
            _ => Verdict::Either,
        }
    }

    /// The verdict of `and`, likewise.
    pub(crate) fn and(self, other: Verdict) -> Verdict
        ensures { result ≡ walk.and_of self other }
    {
        match (self, other) {
            (Verdict::No, _) | (_, Verdict::No) => Verdict::No,
            (Verdict::Yes, Verdict::Yes) => Verdict::Yes,
            _ => Verdict::Either,
        }
    }
}
