//! Laws of what a connection counts, each the contract of a function that does nothing; and that a relay may be shared among threads.
ghost use Rattle.std.specs.Prelude.{◌≡◌, ◌+◌, ℕ, List, []};
ghost use Rattle.sy_runtime.specs.Connections.{Begins, Counts, Kept};

use crate::relay::Relay;
use crate::shared::Gate;

/// Each frame that is counted is no message, or its message was taken.
pub fn counts_add_up()
    ensures { (bytes : List ℕ) (end : Counts) (kept : Kept) (rest : List ℕ) → Begins bytes end kept rest → end.frames ≡ end.unread + end.took }
{}

/// So many frames of the same bytes are counted in one way, and leave one rest.
pub fn one_count()
    ensures { (bytes : List ℕ) (one other : Counts) (kept kept' : Kept) (rest behind : List ℕ) → one.frames ≡ other.frames
        → Begins bytes one kept rest → Begins bytes other kept' behind → (one ≡ other) × (rest ≡ behind) }
{}

/// Where nothing is left of the bytes, they alone say what is counted.
pub fn all_is_counted()
    ensures { (bytes : List ℕ) (one other : Counts) (kept kept' : Kept) → Begins bytes one kept [] → Begins bytes other kept' []
        → one ≡ other }
{}

fn moves<T: Send>(_it: &T) {}

fn is_shared<T: Sync>(_it: &T) {}

/// A handle of a relay may move to another thread, where its gate may be used by any.
pub fn relay_moves<G: Gate + Send + Sync>(relay: &Relay<G>) {
    moves(relay);
}

/// And threads may share one.
pub fn relay_is_shared<G: Gate + Send + Sync>(relay: &Relay<G>) {
    is_shared(relay);
}
