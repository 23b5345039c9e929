//! What a relay leaves when it stops, kept for its next run: a file for each input that has anything.
ghost use Rattle.std.specs.Prelude.{◌≡◌, ◌≤◌, ◌∷◌, [], false, Bool, IsPermutation, List, ℕ, Option, None, IfOk, OnOk, length, map};
ghost use Rattle.std.specs.Io.KnownBytes.{Appends, IsAtEnd};
ghost use Rattle.sy_wire.specs.Frames.{frame, stream};
ghost use Rattle.sy_runtime.specs.Connections.{text_of};
ghost use Rattle.sy_outlets.specs.Left.{AreRests, IsInOrder, IsOfInput, IsRest, Keeps, KeepsEach, KeepsFile, texts_of};

use crate::leaving::remaining::{AtInput, at_inputs, cut_frames};
use itoa::Buffer;
use std::alloc::{AllocError, Global};
use std::collections::VecDeque;
use sy_chain::{Chain, Node};
use sy_report::writing::output::write_texts;
use sy_rules::Input;
use sy_runtime::{Item, Untaken};
use sy_wire::{Sink, WriteFault};

/// Where that is kept.
pub trait Store {
    /// A file that is written, before it is kept.
    type Opened: Sink + Drop;

    // whether anything is to be kept
    ghost wanted: { Self → Bool };
    // what a new file for the input of this port has, where that is known: nothing
    ghost begun: { Self → ℕ → Option (List ℕ) } = { λ _ _. None };
    // what there is once a file was kept: of the input of this port, with these bytes, where they are known
    ghost kept: { Self → ℕ → Option (List ℕ) → Self → Type 0 } = { λ _ _ _ _. Unit {0} };

    /// Whether anything is to be kept.
    fn is_wanted(&self) -> bool
        ensures { result ≡ wanted self.now };

    /// Begins a file for what is left at the input of this port.
    fn create(&self, port: u16) -> Result<Self::Opened, WriteFault>
        ensures empty { IfOk result (λ opened. IsAtEnd (Self.Opened.contents opened)) }
        ensures begun { IfOk result (λ opened. Self.Opened.contents opened ≡ begun self.now port) };

    /// Keeps what was written there.
    fn keep(&mut self, port: u16, written: Self::Opened) -> Result<(), WriteFault>
        ensures { OnOk result (kept self.old port (Self.Opened.contents written) self.new) };

    /// Drops what was written.
    fn discard(&self, port: u16, written: Self::Opened);
}

/// Why something isn't kept.
#[derive(Clone, Copy)]
pub enum KeepFault {
    NoMemory,
    Write,
}

// Writes a text as a frame.
fn write_frame<W: Sink>(writer: &mut W, text: &[u8]) -> Result<(), KeepFault>
    ensures { OnOk result (Appends (W.contents writer.old) (W.contents writer.new) (frame text.now)) }
{
    let mut digits = Buffer::new();
    let length = digits.format(text.len()).as_bytes();
    match write_texts(writer, &[length, b" ", text]) {
        Ok(()) => Ok(()),
        Err(WriteFault) => Err(KeepFault::Write),
    }
}

// The entries of a chain, in its order.
fn entries_of(alloc: Global, mut left: Chain) -> Result<Vec<Node>, AllocError>
    ensures { IfOk result (λ entries. entries.items ≡ left) }
{
    let mut entries = Vec::with_capacity(alloc, left.len())?;
    while let Some(node) = left.pop_front() {
        entries.push(node)?;
    }
    Ok(entries)
}

// The entries that a relay held, in the order in which it had taken them.
fn in_order(alloc: Global, left: Chain) -> Result<Vec<Node>, AllocError>
    ensures same { IfOk result (λ entries. IsPermutation left entries.items) }
    ensures order { IfOk result (λ entries. IsInOrder entries.items) }
{
    let mut entries = entries_of(alloc, left)?;
    entries.sort_unstable_by_key(|entry| entry.tag());
    Ok(entries)
}

// Whether one of these came by this input.
fn has_entry(entries: &[Node], input: u32) -> bool
    ensures { result ≡ false → texts_of input entries.now ≡ [] }
{
    for entry in entries {
        if entry.input() == input {
            return true;
        }
    }
    false
}

// Whether a connection is among these.
fn has_rest(untaken: &VecDeque<Untaken>) -> bool
    ensures { result ≡ false → untaken.now.items ≡ [] }
{
    match untaken.front() {
        Some(_) => true,
        None => false,
    }
}

// Writes the messages of those entries as frames that came by this input, in their order. A message is written once for each entry.
fn write_held<W: Sink>(writer: &mut W, entries: &[Node], input: u32) -> Result<(), KeepFault>
    ensures { OnOk result (Appends (W.contents writer.old) (W.contents writer.new) (stream (texts_of input entries.now))) }
{
    for entry in entries {
        if entry.input() == input {
            write_frame(writer, entry.message().raw())?;
        }
    }
    Ok(())
}

// Writes the texts of what was gathered as frames.
fn write_items<W: Sink>(writer: &mut W, mut items: VecDeque<Item>) -> Result<(), KeepFault>
    ensures { OnOk result (Appends (W.contents writer.old) (W.contents writer.new) (stream (map text_of items.items))) }
{
    while let Some(item) = items.pop_front() {
        write_frame(writer, item.text())?;
    }
    Ok(())
}

// Writes the whole frames that a connection had read and not taken.
#[tactic(auto, using(crate::proofs::Cutting::wrote_rest))]
fn write_rest<W: Sink>(alloc: Global, writer: &mut W, untaken: Untaken) -> Result<(), KeepFault>
    ensures { OnOk result ((texts : List (List ℕ)) × IsRest untaken texts
        × Appends (W.contents writer.old) (W.contents writer.new) (stream texts)) }
{
    match cut_frames(alloc, untaken) {
        Ok(cut) => write_items(writer, cut.untaken.items),
        Err(_) => Err(KeepFault::NoMemory),
    }
}

// The same, of some connections.
fn write_rests<W: Sink>(
    alloc: Global,
    writer: &mut W,
    mut all: VecDeque<Untaken>,
) -> Result<(), KeepFault>
    ensures { OnOk result ((texts : List (List ℕ)) × AreRests all.items texts
        × Appends (W.contents writer.old) (W.contents writer.new) (stream texts)) }
{
    while let Some(untaken) = all.pop_front() {
        write_rest(alloc, writer, untaken)?;
    }
    Ok(())
}

// Writes what is left at an input, and hands it on.
fn write_input<W: Sink>(
    alloc: Global,
    writer: &mut W,
    entries: &[Node],
    input: AtInput,
) -> Result<(), KeepFault>
    ensures { OnOk result ((texts : List (List ℕ)) × IsOfInput input entries.now texts
        × Appends (W.contents writer.old) (W.contents writer.new) (stream texts)) }
{
    let AtInput { at, untaken } = input;
    write_held(writer, entries, at.input)?;
    write_rests(alloc, writer, untaken)?;
    match writer.flush() {
        Ok(()) => Ok(()),
        Err(WriteFault) => Err(KeepFault::Write),
    }
}

// Keeps what is left at an input, where anything is.
fn keep_input<T: Store>(
    alloc: Global,
    store: &mut T,
    entries: &[Node],
    input: AtInput,
) -> Result<(), KeepFault>
    ensures { OnOk result (KeepsEach (KeepsFile T.begun T.kept) entries.now store.old (input ∷ []) store.new) }
{
    if !has_rest(&input.untaken) && !has_entry(entries, input.at.input) {
        return Ok(());
    }
    let port = input.at.port;
    let Ok(mut written) = store.create(port) else {
        return Err(KeepFault::Write);
    };
    if let Err(fault) = write_input(alloc, &mut written, entries, input) {
        store.discard(port, written);
        return Err(fault);
    }
    match store.keep(port, written) {
        Ok(()) => Ok(()),
        Err(WriteFault) => Err(KeepFault::Write),
    }
}

// Keeps what is left at each of these inputs, also of those behind one that can't be kept.
fn keep_all<T: Store>(
    alloc: Global,
    store: &mut T,
    entries: &[Node],
    mut all: VecDeque<AtInput>,
) -> Result<(), KeepFault>
    ensures { OnOk result (KeepsEach (KeepsFile T.begun T.kept) entries.now store.old all.items store.new) }
{
    let mut answer = Ok(());
    while let Some(input) = all.pop_front() {
        if let Err(fault) = keep_input(alloc, store, entries, input) {
            answer = Err(fault);
        }
    }
    answer
}

/// Keeps what a relay with these inputs still held, in the order in which it had taken it, and behind that, of each input, what its connections
/// had read and not taken: a file for each input that has anything.
pub fn keep_left<T: Store>(
    alloc: Global,
    store: &mut T,
    inputs: &[Input],
    held: Chain,
    untaken: VecDeque<VecDeque<Untaken>>,
) -> Result<(), KeepFault>
    requires { length inputs.now ≤ 64 }
    ensures { OnOk result (Keeps (KeepsFile T.begun T.kept) inputs.now held (map (λ rests. rests.items) untaken.items) store.old store.new) }
{
    let Ok(entries) = in_order(alloc, held) else {
        return Err(KeepFault::NoMemory);
    };
    let Ok(all) = at_inputs(alloc, inputs, untaken) else {
        return Err(KeepFault::NoMemory);
    };
    keep_all(alloc, store, entries.as_slice(), all)
}
