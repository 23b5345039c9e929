//! Queues and lists of a site by one number each, and the numbers that they are given.

ghost use Rattle.std.specs.Prelude.{◌≡◌, ◌<◌, Decides, IfSome, get_or, length};
ghost use Rattle.sy_rules.specs.Whole.{queue_for};
ghost use Rattle.sy_site.specs.Sites.{plan_at};
ghost use Rattle.sy_waits.specs.internal.Fits as spec;

use sy_site::{Site, SiteInput};

/// What numbers are of.
#[derive(Clone, Copy)]
pub enum Of {
    /// queues, where numbers are to fall along waits
    Queues,
    /// lists, where they are to fall wherever messages of a class go on
    Lists,
}

/// Where the number of a queue or a list of a relay stands: a relay has at most 513 of each.
pub fn place_of(relay: u32, number: u32) -> usize
    ensures { result ≡ spec.place_of relay number }
{
    513 * (relay as usize) + (number as usize)
}

/// The number that stands at a place, 0 where none does.
pub fn number_at(numbers: &[u32], place: usize) -> u32
    ensures { result ≡ get_or numbers.now place 0 }
{
    match numbers.get(place) {
        Some(number) => *number,
        None => 0,
    }
}

/// How many lists a relay has.
pub fn lists_of(site: &Site, relay: u32) -> usize
    requires relay { relay < length site.now.relays }
    ensures { result ≡ length (plan_at site.now relay).lists }
{
    site.plan(relay).list_names().len()
}

// The queue that what is posted to a list waits in: its own, or the main queue.
fn queue_of(site: &Site, relay: u32, list: u32) -> u32
    requires relay { relay < length site.now.relays }
    requires list { list < length (plan_at site.now relay).lists }
    ensures { result ≡ queue_for (plan_at site.now relay) list }
{
    match site.plan(relay).list_queue(list) {
        Some(queue) => queue,
        None => 0,
    }
}

/// Where the number of a list, or of its queue, stands.
pub fn list_place(site: &Site, of: Of, relay: u32, list: u32) -> usize
    requires relay { relay < length site.now.relays }
    requires list { list < length (plan_at site.now relay).lists }
    ensures { result ≡ spec.list_place site.now of relay list }
{
    match of {
        Of::Queues => place_of(relay, queue_of(site, relay, list)),
        Of::Lists => place_of(relay, list),
    }
}

/// Where the number of the list of an input, or of its queue, stands.
pub fn input_place(site: &Site, of: Of, to: SiteInput) -> Option<usize>
    ensures { IfSome result (λ place. place ≡ spec.input_place site.now of to) }
{
    if to.relay >= site.relays() {
        return None;
    }
    match site.plan(to.relay).inputs().get(to.input as usize) {
        Some(input) => match of {
            Of::Queues => Some(place_of(to.relay, input.queue)),
            Of::Lists => Some(place_of(to.relay, input.list)),
        },
        None => None,
    }
}

// Whether posts into a queue wait there, at its full-delay mark.
fn holds_posts(site: &Site, relay: u32, queue: u32) -> bool
    requires relay { relay < length site.now.relays }
    ensures { Decides result (spec.Holds site.now relay queue) }
{
    match site.plan(relay).queues().get(queue as usize) {
        Some(queue) => queue.waits && queue.full_delay_mark >= 1,
        None => false,
    }
}

/// Whether a post to a list counts: into a queue where posts wait, or of lists any post.
pub fn counts(site: &Site, of: Of, relay: u32, list: u32) -> bool
    requires relay { relay < length site.now.relays }
    requires list { list < length (plan_at site.now relay).lists }
    ensures { Decides result (spec.Counts site.now of relay list) }
{
    match of {
        Of::Queues => holds_posts(site, relay, queue_of(site, relay, list)),
        Of::Lists => true,
    }
}
