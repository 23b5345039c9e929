//! Where in a stream the next byte stands.
ghost use Rattle.std.specs.Prelude.{◌≡◌};
ghost use Rattle.sy_unread.specs.Skipping as spec;

/// Where in a stream the next byte stands.
#[derive(Clone, Copy)]
pub enum Place {
    /// So many bytes of a frame that a framer takes are to come; where that is 0 the next frame begins.
    Within(usize),
    /// So many bytes of a long frame are to come, which are skipped.
    WithinLong(usize),
    /// What comes is handed on as it comes.
    Unframed,
}

// Where so many bytes of a long frame are to come.
pub(crate) fn past_long(left: usize) -> Place
    ensures { result ≡ spec.past_long left }
{
    if left == 0 {
        Place::Within(0)
    } else {
        Place::WithinLong(left)
    }
}
