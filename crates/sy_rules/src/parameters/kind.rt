//! The kinds of objects.

/// A kind of object, by the parameters that it takes.
#[derive(Clone, Copy)]
pub enum Kind {
    Module,
    Global,
    MainQueue,
    Input,
    Ruleset,
    /// An action whose type isn't given, or is no known one.
    Action,
    /// An action that writes a file (`omfile`).
    Archive,
    /// An action that forwards to another relay (`omfwd`).
    Forward,
}
