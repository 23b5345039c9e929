//! Why no frame was given, and why a sender stopped.

/// Why a reader gave no frame. After all but `NoMemory` every call answers `Failed`.
#[derive(Clone, Copy, PartialEq, Eq)]
pub enum FrameFault {
    /// The bytes begin with no number of a transaction.
    BadNumber,
    /// No command of 1 to 32 letters is behind the number.
    BadCommand,
    /// No length is behind the command.
    BadLength,
    /// The length is more than 65,536.
    TooLong,
    /// No line feed is behind the content.
    BadTrailer,
    /// The stream ended within a frame.
    Truncated,
    /// There was no memory for the frame, which stands there as before.
    NoMemory,
    /// A fault came before.
    Failed,
}

/// Why a sender sent no more. But for `NoMemory` and `TooLong` it has to be renewed.
#[derive(Clone, Copy, PartialEq, Eq)]
pub enum SendFault {
    /// A session broke or was closed before, or its numbers end.
    Broken,
    /// There was no memory for a window.
    NoMemory,
    /// The next message is longer than a frame may carry.
    TooLong,
    /// A write failed.
    WriteFailed,
    /// An answer didn't come, was another, or wasn't 200.
    Unanswered,
}
