//! The lines of what connections had sent and the relay didn't take when it stopped.

use std::alloc::{AllocError, Global};
use std::sync::Wait;
use sy_inputs::serving::Serving;
use sy_log::lines::append_first;
use sy_outlets::leaving::remaining::{Counted, Sorted, Unkept};
use sy_report::texts::parts::{Part, append_parts};
use sy_rules::Input;
use sy_wire::Sink;

// What was read of an input and not taken.
fn untaken_line(alloc: Global, port: u16, counted: Counted) -> Result<Vec<u8>, AllocError> {
    let mut line = Vec::new(alloc);
    let parts = [
        Part::Text(b"syc: input "),
        Part::Number(u64::from(port)),
        Part::Text(b" not taken at the stop: "),
        Part::Number(counted.frames),
        Part::Text(b" frames, and a part of one from "),
        Part::Number(counted.parts),
        Part::Text(b" connections\n"),
    ];
    append_parts(&mut line, &parts)?;
    Ok(line)
}

// What was sent to an input and not read.
fn unread_line(alloc: Global, port: u16, counted: Counted) -> Result<Vec<u8>, AllocError> {
    let mut line = Vec::new(alloc);
    let parts = [
        Part::Text(b"syc: input "),
        Part::Number(u64::from(port)),
        Part::Text(b" unread at the stop: "),
        Part::Number(counted.connections),
        Part::Text(b" connections, "),
        Part::Number(counted.bytes),
        Part::Text(b" bytes or more\n"),
    ];
    append_parts(&mut line, &parts)?;
    Ok(line)
}

// What a connection of an input had sent that couldn't be kept.
fn unkept_line(alloc: Global, port: u16, unkept: &Unkept) -> Result<Vec<u8>, AllocError> {
    let peer = unkept.peer.to_string(alloc)?;
    let mut line = Vec::new(alloc);
    let parts = [
        Part::Text(b"syc: input "),
        Part::Number(u64::from(port)),
        Part::Text(b" peer "),
        Part::Text(peer.as_str().as_bytes()),
        Part::Text(b" not kept at the stop: "),
    ];
    append_parts(&mut line, &parts)?;
    append_first(&mut line, unkept.first)?;
    if let Some(length) = unkept.length {
        let parts = [
            Part::Text(b", "),
            Part::Number(length),
            Part::Text(b" bytes"),
        ];
        append_parts(&mut line, &parts)?;
    }
    line.extend_from_slice(b"\n")?;
    Ok(line)
}

fn report<R: Wait, E: Sink + Drop>(
    rt: &R,
    serving: &Serving<E>,
    line: Result<Vec<u8>, AllocError>,
) {
    match line {
        Ok(line) => serving.report_line(rt, line.as_slice()),
        Err(_) => serving.report_text(rt, "no memory"),
    }
}

/// Prints of each of these inputs what its connections had sent and the relay didn't take, where there is anything.
pub fn report_unfinished<R: Wait, E: Sink + Drop>(
    rt: &R,
    alloc: Global,
    serving: &Serving<E>,
    inputs: &[Input],
    sorted: &Sorted,
) {
    for (number, unkept) in &sorted.unkept {
        if let Some(input) = inputs.get(*number as usize) {
            report(rt, serving, unkept_line(alloc, input.port, unkept));
        }
    }
    for (input, counted) in inputs.iter().zip(&sorted.counted) {
        if counted.frames > 0 || counted.parts > 0 {
            report(rt, serving, untaken_line(alloc, input.port, *counted));
        }
        if counted.connections > 0 {
            report(rt, serving, unread_line(alloc, input.port, *counted));
        }
    }
}
