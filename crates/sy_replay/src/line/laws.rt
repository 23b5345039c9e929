//! What holds of lines and events.

ghost use Rattle.std.specs.Prelude.{◌≡◌, ℕ, List, true};
ghost use Rattle.std.specs.List.{join_with_byte};
ghost use Rattle.sy_site.specs.Sites.{Site};
ghost use Rattle.sy_site.specs.machine.Steps.{SiteEvent};
ghost use Rattle.sy_replay.specs.Lines.{IsNoEvent, StandsFor, is_skipped, words_in};

use sy_wire::message::laws::one_message;

/// A line stands for one event at most.
pub fn one_event()
    ensures { (site : Site) (line : List ℕ) (e f : SiteEvent) → StandsFor site line e → StandsFor site line f
        → e ≡ f }
{
    one_message();
}

/// A line that is skipped stands for none.
pub fn skipped_lines_stand_for_nothing()
    ensures { (site : Site) (line : List ℕ) → is_skipped line ≡ true → IsNoEvent site line }
{}

/// The words of a line, with a space between each two, are the line.
pub fn words_are_the_line()
    ensures { (line : List ℕ) → join_with_byte 32 (words_in line) ≡ line }
{}
