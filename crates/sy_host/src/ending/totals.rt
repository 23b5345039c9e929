//! The totals that a relay prints.
ghost use Rattle.std.specs.Prelude.{◌≡◌, ◌<◌, ◌^◌, ◌++◌, OnOk, map};
ghost use Rattle.std.specs.Io.KnownBytes.{Appends};
ghost use Rattle.sy_board.specs.relay.Boards.{counts_of};
ghost use Rattle.sy_host.specs.Totals as spec;

use std::alloc::{AllocError, Global};
use sy_board::{Accounts, ActionCounts};
use sy_report::texts::parts::{Part, append_parts};
use sy_report::texts::printed::append_printed;
use sy_report::writing::output::send;
use sy_rules::Action;
use sy_runtime::ConnEnd;
use sy_wire::Sink;

/// Why totals weren't written.
#[derive(Clone, Copy)]
pub enum TotalsFault {
    NoMemory,
    Write,
}

/// What totals tell: messages taken, losses, what is held, frames that carried no message where that is told, and the counts of the actions, in
/// their order.
#[derive(Clone, Copy)]
pub struct Numbers<'a> {
    pub taken: u64,
    pub lost: u128,
    pub held: u128,
    pub unread: Option<u128>,
    pub actions: &'a [ActionCounts],
}

/// How many frames of these connections carried no message.
pub fn unread_of(ends: &[ConnEnd]) -> u128
    ensures { spec.unread_of ends.now < 2 ^ 128 → result ≡ spec.unread_of ends.now }
{
    let mut unread: u128 = 0;
    for end in ends {
        unread = unread.saturating_add(u128::from(end.unread()));
    }
    unread
}

/// What is told of so many frames that carried no message: how many, where there are any, or where they are kept.
pub fn reported_of(is_kept: bool, unread: u128) -> Option<u128>
    ensures { spec.IsReported unread result }
{
    if is_kept || unread > 0 {
        return Some(unread);
    }
    None
}

/// What is told of the frames of these connections that carried no message.
pub fn reported_by(is_kept: bool, ends: &Vec<ConnEnd>) -> Option<u128>
    ensures { spec.unread_of ends.now.items < 2 ^ 128 → spec.IsReported (spec.unread_of ends.now.items) result }
{
    reported_of(is_kept, unread_of(ends.as_slice()))
}

/// The numbers of a relay that still holds so many entries, of which this is told of frames that carried no message.
pub fn numbers_of(accounts: &Accounts, held: u128, unread: Option<u128>) -> Numbers<'_>
    ensures numbers { result ≡ record { taken = accounts.now.totals.taken; lost = spec.lost accounts.now.totals; held = held; unread = unread; actions = result.actions } }
    ensures actions { map counts_of result.actions.now ≡ accounts.now.totals.actions }
{
    Numbers {
        taken: accounts.taken(),
        lost: accounts.lost(),
        held,
        unread,
        actions: accounts.actions(),
    }
}

// The line of the messages.
fn append_messages(text: &mut Vec<u8>, numbers: Numbers<'_>) -> Result<(), AllocError>
    ensures { OnOk result (text.new.items
        ≡ text.old.items ++ spec.messages_line numbers.entry.taken numbers.entry.lost numbers.entry.held) }
{
    let parts = [
        Part::Text(b"taken "),
        Part::Number(numbers.taken),
        Part::Text(b" lost "),
        Part::Sum(numbers.lost),
        Part::Text(b" held "),
        Part::Sum(numbers.held),
        Part::Text(b"\n"),
    ];
    append_parts(text, &parts)
}

// The line of the frames that carried no message, where that is told.
fn append_unread(text: &mut Vec<u8>, unread: Option<u128>) -> Result<(), AllocError>
    ensures { OnOk result (text.new.items ≡ text.old.items ++ spec.unread_line unread) }
{
    let Some(unread) = unread else {
        return Ok(());
    };
    let parts = [Part::Text(b"unread "), Part::Sum(unread), Part::Text(b"\n")];
    append_parts(text, &parts)
}

// What stands in the line of an action behind its name.
fn append_counts(text: &mut Vec<u8>, due: u128, counts: ActionCounts) -> Result<(), AllocError>
    ensures { OnOk result (text.new.items
        ≡ text.old.items ++ spec.counts_text due counts.done counts.given_up counts.left) }
{
    let parts = [
        Part::Text(b" due "),
        Part::Sum(due),
        Part::Text(b" done "),
        Part::Number(counts.done),
        Part::Text(b" given-up "),
        Part::Number(counts.given_up),
        Part::Text(b" left "),
        Part::Number(counts.left),
        Part::Text(b"\n"),
    ];
    append_parts(text, &parts)
}

// The line of an action, of which so many runs became due.
fn append_line(
    text: &mut Vec<u8>,
    name: &[u8],
    due: u128,
    counts: ActionCounts,
) -> Result<(), AllocError>
    ensures { OnOk result (text.new.items
        ≡ text.old.items ++ spec.line_with name.now due counts.done counts.given_up counts.left) }
{
    append_printed(text, name)?;
    append_counts(text, due, counts)
}

// The line of an action.
#[tactic(auto, using(crate::proofs::Counted::line_of))]
fn append_action(text: &mut Vec<u8>, name: &[u8], counts: ActionCounts) -> Result<(), AllocError>
    ensures { OnOk result (text.new.items ≡ text.old.items ++ spec.action_line name.now (counts_of counts)) }
{
    append_line(text, name, counts.due(), counts)
}

// The lines of the actions, in their order.
fn append_actions(
    text: &mut Vec<u8>,
    actions: &[Action],
    counts: &[ActionCounts],
) -> Result<(), AllocError>
    ensures { OnOk result (text.new.items ≡ text.old.items ++ spec.action_lines actions.now (map counts_of counts.now)) }
{
    let mut place = 0;
    for action in actions {
        let Some(count) = counts.get(place) else {
            return Ok(());
        };
        append_action(text, action.name.as_slice(), *count)?;
        place += 1;
    }
    Ok(())
}

// Puts the totals of a relay with these actions behind a text.
pub(crate) fn append_totals(
    text: &mut Vec<u8>,
    actions: &[Action],
    numbers: Numbers<'_>,
) -> Result<(), AllocError>
    ensures { OnOk result (text.new.items ≡ text.old.items
        ++ spec.counts_lines actions.now numbers.entry.taken numbers.entry.lost numbers.entry.held numbers.entry.unread (map counts_of numbers.entry.actions.now)) }
{
    append_messages(text, numbers)?;
    append_unread(text, numbers.unread)?;
    append_actions(text, actions, numbers.actions)
}

/// Writes the totals of a relay with these actions, and hands them on.
pub fn write_totals<W: Sink>(
    alloc: Global,
    writer: &mut W,
    actions: &[Action],
    numbers: Numbers<'_>,
) -> Result<(), TotalsFault>
    ensures { OnOk result (Appends (W.contents writer.old) (W.contents writer.new)
        (spec.counts_lines actions.now numbers.entry.taken numbers.entry.lost numbers.entry.held numbers.entry.unread (map counts_of numbers.entry.actions.now))) }
{
    let mut text = Vec::new(alloc);
    let Ok(()) = append_totals(&mut text, actions, numbers) else {
        return Err(TotalsFault::NoMemory);
    };
    match send(writer, text.as_slice()) {
        Ok(()) => Ok(()),
        Err(_) => Err(TotalsFault::Write),
    }
}
