//! The table of a list.

/// A statement of a list. The statements of a list stand in one table in the order of the text, those of blocks too.
#[derive(Clone, Copy)]
pub enum Statement {
    /// The action of this number, and the number of this occurrence in its list.
    Run(u32, u32),
    /// The list whose queue the message is put into, and the number of this occurrence in its list.
    Post(u32, u32),
    /// The list of the ruleset that is called at once, and the number of its first occurrence in this list.
    Call(u32, u32),
    Stop,
    /// The number of the test, and how many of the next statements are those of its block, and how many after them those of `else`.
    If(u32, u32, u32),
}
