//! Runs of sites that aren't sound, at whose end a message of a protected class isn't safe, or a copy not confined: for
//! each part of these one at whose end that part alone is wanting, but for reach and for what is due. Each function does nothing; its contract is the law.
ghost use Rattle.std.specs.Prelude.{◌≡◌, ◌↔◌, false, take};
ghost use Rattle.sy_wire.specs.declared.class.Class.{Class};
ghost use Rattle.sy_board.specs.relay.Steps.{Event};
ghost use Rattle.sy_site.specs.Sites.{Site};
ghost use Rattle.sy_site.specs.machine.States.{SiteState};
ghost use Rattle.sy_site.specs.machine.Soundness.{IsSoundFor};
ghost use Rattle.sy_site.specs.machine.Confinement.{AreConfined};
ghost use Rattle.sy_site.specs.machine.Safety.{AreSafe};
ghost use Rattle.sy_site.specs.machine.Counterexamples.{Bound, Bounds, EndsUnconfined, EndsUnsafe, Holds, Part, aimless_events, aimless_site, changing_events, changing_site, circling_events, circling_site, discarding_queue, hasty_events, hasty_site, leaking_events, leaking_site, moving_events, moving_site, silent_events, silent_site, spared_events, spared_site, stray_site, turning_site, twice_events, twice_site, unmarked_queue};

/// Safe is its four parts, and confined its seven.
pub fn parts_are_the_whole()
    ensures of_safe { (site : Site) → (state : SiteState) → AreSafe site state ↔ ((part : Part) → Holds site state part) }
    ensures of_confined { (site : Site) → (class : Class) → (state : SiteState)
        → AreConfined site class state ↔ ((part : Bound) → Bounds site class state part) }
{}

/// A message with a lost copy isn't safe, though it heads for its archive.
pub fn a_lost_copy_isnt_safe()
    ensures { (class : Class) → class.facility ≡ 4 → class.severity ≡ 2
        → EndsUnsafe hasty_site (hasty_events class) Part.NotLost }
{}

/// Nor is one with a lost post into a queue in which posts wait: neither where that queue is full and has no full-delay
/// mark, nor where it discards.
pub fn a_lost_post_isnt_safe()
    ensures without_a_mark { (class : Class) → class.facility ≡ 4 → class.severity ≡ 2
        → EndsUnsafe (leaking_site unmarked_queue) (leaking_events class (Event.PostLost 1 false)) Part.NotLost }
    ensures discarded { (class : Class) → class.facility ≡ 4 → class.severity ≡ 2
        → EndsUnsafe (leaking_site discarding_queue) (leaking_events class (Event.Post 1)) Part.NotLost }
{}

/// A message that is neither written nor held where it heads for its archive isn't safe, though no copy of it is lost.
pub fn an_idle_message_isnt_safe()
    ensures { (class : Class) → class.facility ≡ 4 → class.severity ≡ 2
        → EndsUnsafe silent_site (silent_events class) Part.Kept }
{}

/// A message that came to a relay twice isn't safe, though it heads for its archive or is written there: neither while
/// it is held, nor on a link, nor in a file.
pub fn a_message_that_came_twice_isnt_safe()
    ensures held { (class : Class) → class.facility ≡ 4 → class.severity ≡ 2
        → EndsUnsafe twice_site (take 5 (twice_events class)) Part.HeldOnce }
    ensures on_a_link { (class : Class) → class.facility ≡ 4 → class.severity ≡ 2
        → EndsUnsafe twice_site (take 8 (twice_events class)) Part.PassedOnce }
    ensures in_a_file { (class : Class) → class.facility ≡ 4 → class.severity ≡ 2
        → EndsUnsafe twice_site (twice_events class) Part.PassedOnce }
{}

/// A message that comes to its archive by a spare action alone isn't safe: neither where it waits for that action, nor on
/// that action's link, nor behind it, nor in the archive.
pub fn a_spared_message_isnt_safe()
    ensures before { (class : Class) → class.facility ≡ 4 → class.severity ≡ 2
        → EndsUnsafe spared_site (take 1 (spared_events class)) Part.Kept }
    ensures on_the_link { (class : Class) → class.facility ≡ 4 → class.severity ≡ 2
        → EndsUnsafe spared_site (take 4 (spared_events class)) Part.Kept }
    ensures behind { (class : Class) → class.facility ≡ 4 → class.severity ≡ 2
        → EndsUnsafe spared_site (take 5 (spared_events class)) Part.Kept }
    ensures in_the_archive { (class : Class) → class.facility ≡ 4 → class.severity ≡ 2
        → EndsUnsafe spared_site (spared_events class) Part.Kept }
{}

/// A message of which a flagged copy came to a relay twice isn't safe, though its archive has it: neither while that copy
/// is held, nor on a link.
pub fn a_flagged_copy_that_came_twice_isnt_safe()
    ensures held { (class : Class) → class.facility ≡ 4 → class.severity ≡ 2
        → EndsUnsafe circling_site (take 10 (circling_events class)) Part.HeldOnce }
    ensures on_a_link { (class : Class) → class.facility ≡ 4 → class.severity ≡ 2
        → EndsUnsafe circling_site (circling_events class) Part.PassedOnce }
{}

/// A copy isn't confined on the link of a forward that leads nowhere.
pub fn copies_on_such_links_arent_confined()
    ensures { (class : Class) → EndsUnconfined aimless_site class (aimless_events class) Bound.LinkLeads }
{}

/// A copy isn't confined where it follows another list than its input's, and posts into that list's queue don't wait.
pub fn copies_of_another_list_arent_confined()
    ensures { (class : Class) → EndsUnconfined changing_site class (changing_events class) Bound.OnList }
{}

/// A copy isn't confined in a queue that isn't its input's and in which posts don't wait, nor with a worker of that queue.
pub fn copies_at_such_places_arent_confined()
    ensures in_a_queue { (class : Class) → EndsUnconfined moving_site class (take 4 (moving_events class)) Bound.AtPlace }
    ensures with_a_worker { (class : Class) → EndsUnconfined moving_site class (moving_events class) Bound.AtPlace }
{}

/// A lost copy isn't confined.
pub fn a_lost_copy_isnt_confined()
    ensures { (class : Class) → EndsUnconfined hasty_site class (hasty_events class) Bound.NoneLost }
{}

/// A forward that leads nowhere is enough for a site not to be sound.
pub fn a_forward_to_nowhere_isnt_sound()
    ensures { (class : Class) → IsSoundFor stray_site class → ⊥ }
{}

/// Nor is a site sound with a post into a queue in which posts wait, but that has no full-delay mark, or discards.
pub fn a_queue_that_loses_posts_isnt_sound()
    ensures without_a_mark { (class : Class) → IsSoundFor (leaking_site unmarked_queue) class → ⊥ }
    ensures discarding { (class : Class) → IsSoundFor (leaking_site discarding_queue) class → ⊥ }
{}

/// Nor one in which posts go from queue to queue in a circle.
pub fn a_circle_of_queues_isnt_sound()
    ensures { (class : Class) → IsSoundFor turning_site class → ⊥ }
{}

/// Nor is a site sound in which spare actions alone lead to an archive that the policy names.
pub fn an_archive_behind_a_spare_action_isnt_sound()
    ensures { (class : Class) → class.facility ≡ 4 → class.severity ≡ 2 → IsSoundFor spared_site class → ⊥ }
{}

/// Nor one in which spare actions forward in a circle.
pub fn a_circle_of_spare_actions_isnt_sound()
    ensures { (class : Class) → IsSoundFor circling_site class → ⊥ }
{}
