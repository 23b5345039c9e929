//! The lines that a replay prints.
ghost use Rattle.std.specs.Prelude.{◌≡◌, ◌++◌, OnOk, flat_map, slice_get};
ghost use Rattle.sy_replay.specs.Events.{cause_of, loss_of, losses_of};
ghost use Rattle.sy_replay.specs.States.{state_at};
ghost use Rattle.sy_commands.specs.Replays as spec;
ghost use Rattle.sy_report.specs.Parts.{part_text};

use std::alloc::AllocError;
use sy_replay::{Cause, Loss, Replay};
use sy_report::texts::parts::{Part, append_parts, relay_name};
use sy_site::Site;

fn cause_word(cause: Cause) -> &'static [u8]
    ensures { result.now ≡ spec.cause_word (cause_of cause) }
{
    match cause {
        Cause::Take => b"take",
        Cause::Expire => b"expire",
        Cause::Grab => b"grab",
        Cause::GiveUp(_) => b"giveup",
        Cause::Post(_) => b"post",
        Cause::PostLost(_) => b"postlost",
    }
}

fn spare_word(is_flagged: bool) -> &'static [u8]
    ensures { result.now ≡ spec.spare_word is_flagged }
{
    if is_flagged { b" spare" } else { b"" }
}

fn message_number(replay: &Replay<'_>, copy: u64) -> u64
    ensures { result ≡ spec.number_of (slice_get (state_at replay.now).copies copy) }
{
    match replay.number_of(copy) {
        Some(number) => number,
        None => 0,
    }
}

// The class of a copy, or nothing where there is no such copy.
fn class_part(replay: &Replay<'_>, copy: u64) -> Part<'static>
    ensures { part_text result ≡ spec.copy_class (slice_get (state_at replay.now).copies copy) }
{
    match replay.class_of(copy) {
        Some(class) => Part::Class(class),
        None => Part::Text(b""),
    }
}

fn append_loss(
    text: &mut Vec<u8>,
    site: &Site,
    replay: &Replay<'_>,
    line: u64,
    loss: Loss,
) -> Result<(), AllocError>
    requires of { replay.now.site ≡ site.now }
    ensures { OnOk result (text.new.items
        ≡ text.old.items ++ spec.loss_line site.now (state_at replay.now) line (loss_of loss)) }
{
    let parts = [
        Part::Text(b"loss line "),
        Part::Number(line),
        Part::Text(b" message "),
        Part::Number(message_number(replay, loss.copy)),
        Part::Text(b" at "),
        Part::Name(relay_name(site, loss.relay)),
        Part::Text(b" "),
        class_part(replay, loss.copy),
        Part::Text(b" "),
        Part::Text(cause_word(loss.cause)),
        Part::Text(spare_word(replay.is_flagged(loss))),
        Part::Text(b"\n"),
    ];
    append_parts(text, &parts)
}

/// Puts the lines of losses, which the event in this line made, behind a text.
pub fn append_losses(
    text: &mut Vec<u8>,
    site: &Site,
    replay: &Replay<'_>,
    line: u64,
    losses: &[Loss],
) -> Result<(), AllocError>
    requires of { replay.now.site ≡ site.now }
    ensures { OnOk result (text.new.items
        ≡ text.old.items ++ flat_map (spec.loss_line site.now (state_at replay.now) line) (losses_of losses.now)) }
{
    for loss in losses {
        append_loss(text, site, replay, line, *loss)?;
    }
    Ok(())
}

/// Puts the last line of a replay behind a text.
pub fn append_end(text: &mut Vec<u8>, replay: &Replay<'_>, events: u64) -> Result<(), AllocError>
    ensures { OnOk result (text.new.items ≡ text.old.items ++ spec.end_line events (state_at replay.now)) }
{
    let parts = [
        Part::Text(b"events "),
        Part::Number(events),
        Part::Text(b" messages "),
        Part::Number(replay.messages()),
        Part::Text(b" losses "),
        Part::Number(replay.losses().len() as u64),
        Part::Text(b"\n"),
    ];
    append_parts(text, &parts)
}
