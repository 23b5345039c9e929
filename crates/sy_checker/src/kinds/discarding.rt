//! Whether some queue of a site discards messages by their severity.

ghost use Rattle.std.specs.Prelude.{◌≡◌, false};
ghost use Rattle.std.specs.List.{list_any};
ghost use Rattle.sy_checker.specs.internal.Discarding as spec;

use sy_rules::QueueParameters;
use sy_site::Site;

// Whether some of these queues discards messages of some class.
fn has_discarding(queues: &[QueueParameters]) -> bool
    ensures { result ≡ list_any spec.discards queues.now }
{
    queues.iter().any(|queue| queue.discard_severity < 8 && 0 < queue.discard_mark)
}

/// Whether some queue of the site discards messages of some class. Where none does, the site discards no message.
pub fn is_discarding(site: &Site) -> bool
    ensures { result ≡ false → spec.DiscardsNone site.now }
{
    for relay in 0..site.relays() {
        if has_discarding(site.plan(relay).queues()) {
            return true;
        }
    }
    false
}
