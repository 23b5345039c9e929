//! Opening a file of frames.

use crate::rotation::opened::Refusal;
use std::alloc::Global;
use std::fs::{File, OpenOptions};
use std::io;
use sy_report::texts::reason::Reason;
use sy_wire::{FillFault, FrameFault, Framer, FromRead};

/// How many bytes of a file are whole frames, and how many are a part of one that comes after them.
#[derive(Clone, Copy)]
pub struct Extent {
    pub whole: u64,
    pub part: u64,
}

// How many bytes the frame of a text takes.
fn size_of(length: usize) -> u64 {
    let mut size = (length as u64).saturating_add(1);
    let mut left = length;
    for _ in 0..20 {
        size = size.saturating_add(1);
        left /= 10;
        if left == 0 {
            return size;
        }
    }
    size
}

// Counts the frames that a framer has.
fn count_frames(
    framer: &mut Framer,
    text: &mut Vec<u8>,
    extent: &mut Extent,
) -> Result<(), Refusal> {
    for _ in 0..u64::MAX {
        match framer.next_into(text) {
            Ok(true) => {
                let size = size_of(text.len());
                extent.whole = extent.whole.saturating_add(size);
                extent.part = extent.part.saturating_sub(size);
            }
            Ok(false) => return Ok(()),
            Err(FrameFault::NoMemory) => return Err(Refusal::Host(Reason::NoMemory)),
            Err(_) => return Err(Refusal::NoFrames),
        }
    }
    Ok(())
}

// How much of a file is frames.
fn extent_of(alloc: Global, file: File) -> Result<Extent, Refusal> {
    let mut source = FromRead::new(file);
    let mut framer = Framer::new(alloc);
    let mut text = Vec::new(alloc);
    let mut extent = Extent { whole: 0, part: 0 };
    for _ in 0..u64::MAX {
        match framer.fill(&mut source) {
            Ok(0) => return Ok(extent),
            Ok(count) => extent.part = extent.part.saturating_add(count as u64),
            Err(FillFault::NoMemory) => return Err(Refusal::Host(Reason::NoMemory)),
            Err(_) => return Err(Refusal::Host(Reason::Write)),
        }
        count_frames(&mut framer, &mut text, &mut extent)?;
    }
    Ok(extent)
}

fn refused<T>(opened: io::Result<T>) -> Result<T, Refusal> {
    match opened {
        Ok(it) => Ok(it),
        Err(error) => Err(Refusal::of(&error)),
    }
}

// Whether a file has a length.
fn is_plain(file: &File) -> Result<bool, Refusal> {
    Ok(refused(file.metadata())?.is_file())
}

/// The file of that name, to whose end frames are written, and how much of it is frames. It is refused where it has anything else.
pub fn open_frames(rt: &HostRuntime, alloc: Global, name: &str) -> Result<(File, Extent), Refusal> {
    let file = refused(OpenOptions::new().append(true).create(true).open(rt, name))?;
    if !is_plain(&file)? {
        return Ok((file, Extent { whole: 0, part: 0 }));
    }
    let extent = extent_of(alloc, refused(File::open(rt, name))?)?;
    Ok((file, extent))
}

/// The same, where it has whole frames alone.
pub fn open_whole(rt: &HostRuntime, alloc: Global, name: &str) -> Result<File, Refusal> {
    let (file, extent) = open_frames(rt, alloc, name)?;
    if extent.part > 0 {
        return Err(Refusal::NoFrames);
    }
    Ok(file)
}

/// The same, of which a part of a frame at its end is cut off. The answer has how many bytes that were.
pub fn open_cut(rt: &HostRuntime, alloc: Global, name: &str) -> Result<(File, u64), Refusal> {
    let (file, extent) = open_frames(rt, alloc, name)?;
    if extent.part > 0 {
        refused(file.set_len(extent.whole))?;
    }
    Ok((file, extent.part))
}
