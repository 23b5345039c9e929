//! Sites that don't flow, and what becomes of them; and one that does, though posts go in opposite directions. Each
//! function does nothing; its contract is the law.
ghost use Rattle.std.specs.Prelude.{◌≤◌, ℕ, List, length};
ghost use Rattle.sy_wire.specs.declared.class.Class.{Class};
ghost use Rattle.sy_site.specs.machine.States.{SiteState};
ghost use Rattle.sy_site.specs.machine.Steps.{Runs, SiteEvent};
ghost use Rattle.sy_site.specs.machine.Soundness.{IsSound};
ghost use Rattle.sy_site.specs.machine.Lawful.{IsLawful};
ghost use Rattle.sy_flowing.specs.Flowing.{IsFlowing, IsJam};
ghost use Rattle.sy_flowing.specs.OwnSteps.{CanFinish, OwnSteps};
ghost use Rattle.sy_flowing.specs.Jams.{IsAuth, IsOther, IsStuck, jam_events, jam_site, lossy_site, queue_a, round_events, round_site};

/// Two classes that go in opposite directions through two queues make a circle of waits that neither makes alone: such a
/// site is lawful and sound, and doesn't flow.
pub fn a_sound_site_may_jam()
    ensures lawful { IsLawful jam_site }
    ensures sound { IsSound jam_site }
    ensures jam { (class other : Class) → IsAuth class → IsOther other → IsJam jam_site queue_a }
    ensures flows_not { (class other : Class) → IsAuth class → IsOther other → IsFlowing jam_site → ⊥ }
    ensures round { (other : Class) → IsOther other → IsJam round_site queue_a }
    ensures round_flows_not { (other : Class) → IsOther other → IsFlowing round_site → ⊥ }
{}

/// Ten events lead that site, in which nothing fails, to a state in which no step is possible any more but a take from
/// outside, and a protected message isn't written: so the conclusion of the law of sites that flow isn't one of all sound
/// sites.
pub fn a_sound_site_jams()
    ensures { (class other : Class) → IsAuth class → IsOther other → (state : SiteState)
        × Runs jam_site (jam_events class other) state × IsStuck jam_site state
        × ((bound : ℕ) → CanFinish jam_site bound state → ⊥) }
{}

/// In the other site one message of a class that isn't protected goes round for ever: from the state after its first two
/// steps there are own steps of any number. So own steps needn't end in a site that doesn't flow.
pub fn a_message_goes_round()
    ensures { (other : Class) → IsOther other → (state : SiteState) × Runs round_site (round_events other) state
        × ((bound n : ℕ) → (own : List SiteEvent) × (end : SiteState) × OwnSteps round_site bound state own end
        × n ≤ length own) }
{}

/// Where the two queues of the first site don't wait, the site flows, though posts go in opposite directions: a number for
/// each queue alone, which falls along every post, would refuse it.
pub fn opposite_posts_may_flow()
    ensures { IsFlowing lossy_site }
{}
