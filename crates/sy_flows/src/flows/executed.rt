//! Which occurrences of a list are followed.

/// Those that messages of a class may execute, those of them that aren't spare, or those that they must execute and that
/// aren't spare.
#[derive(Clone, Copy)]
pub enum Executed {
    Every,
    Firm,
    Must,
}
