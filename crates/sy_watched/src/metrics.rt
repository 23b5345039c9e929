//! What is watched of a relay in Prometheus' text format, version 0.0.4.

use crate::families::{Family, gauge};
use crate::numbers::{ACTION_NUMBERS, INPUT_NUMBERS, QUEUE_NUMBERS, RELAY_NUMBERS};
use crate::text::{append, append_number};
use crate::watched::Watched;
use std::alloc::{AllocError, Global};

// What a number belongs to, beside its relay.
#[derive(Clone, Copy)]
enum Of<'a> {
    Relay,
    Input(u16),
    Action(&'a [u8]),
    Queue(&'a [u8]),
}

// Appends the value of a label.
fn append_escaped(text: &mut Vec<u8>, value: &[u8]) -> Result<(), AllocError> {
    for byte in value {
        match *byte {
            b'\\' => append(text, "\\\\")?,
            b'"' => append(text, "\\\"")?,
            b'\n' => append(text, "\\n")?,
            byte => text.push(byte)?,
        }
    }
    Ok(())
}

// Appends a label.
fn append_label(text: &mut Vec<u8>, name: &str, value: &[u8]) -> Result<(), AllocError> {
    append(text, name)?;
    append(text, "=\"")?;
    append_escaped(text, value)?;
    append(text, "\"")
}

// Appends the label of an input, behind another.
fn append_input(text: &mut Vec<u8>, port: u16) -> Result<(), AllocError> {
    append(text, ",input=\"")?;
    append_number(text, u128::from(port))?;
    append(text, "\"")
}

// Appends the labels of a number.
fn append_labels(text: &mut Vec<u8>, relay: &[u8], of: Of<'_>) -> Result<(), AllocError> {
    append_label(text, "{relay", relay)?;
    match of {
        Of::Relay => {}
        Of::Input(port) => append_input(text, port)?,
        Of::Action(name) => append_label(text, ",action", name)?,
        Of::Queue(name) => append_label(text, ",queue", name)?,
    }
    append(text, "}")
}

// Appends what stands above the numbers of a metric.
fn append_head(text: &mut Vec<u8>, family: Family) -> Result<(), AllocError> {
    append(text, "# HELP syc_")?;
    append(text, family.name)?;
    append(text, " ")?;
    append(text, family.help)?;
    append(text, "\n# TYPE syc_")?;
    append(text, family.name)?;
    append(text, " ")?;
    append(text, family.kind.word())?;
    append(text, "\n")
}

// Appends a number of a metric.
fn append_sample(
    text: &mut Vec<u8>,
    family: Family,
    relay: &[u8],
    of: Of<'_>,
    value: u128,
) -> Result<(), AllocError> {
    append(text, "syc_")?;
    append(text, family.name)?;
    append_labels(text, relay, of)?;
    append(text, " ")?;
    append_number(text, value)?;
    append(text, "\n")
}

fn append_relay(text: &mut Vec<u8>, watched: &Watched<'_>) -> Result<(), AllocError> {
    let running = gauge(
        "running",
        "Whether the relay runs: 1, or 0 once it has stopped.",
    );
    append_head(text, running)?;
    let is_running = u128::from(watched.is_running);
    append_sample(text, running, watched.relay, Of::Relay, is_running)?;
    for number in &RELAY_NUMBERS {
        if let Some(family) = number.family() {
            append_head(text, family)?;
            let value = number.value(watched);
            append_sample(text, family, watched.relay, Of::Relay, value)?;
        }
    }
    Ok(())
}

fn append_inputs(text: &mut Vec<u8>, watched: &Watched<'_>) -> Result<(), AllocError> {
    for number in &INPUT_NUMBERS {
        let family = number.family();
        append_head(text, family)?;
        for input in &watched.inputs {
            let of = Of::Input(input.port);
            append_sample(text, family, watched.relay, of, number.value(input))?;
        }
    }
    Ok(())
}

// Appends whether each action fails.
fn append_states(text: &mut Vec<u8>, watched: &Watched<'_>) -> Result<(), AllocError> {
    let failing = gauge(
        "action_failing",
        "Whether the action fails: 1, or 0 where it works.",
    );
    append_head(text, failing)?;
    for action in &watched.actions {
        let of = Of::Action(action.name);
        let is_failing = u128::from(action.fails.is_some());
        append_sample(text, failing, watched.relay, of, is_failing)?;
    }
    Ok(())
}

fn append_actions(text: &mut Vec<u8>, watched: &Watched<'_>) -> Result<(), AllocError> {
    for number in &ACTION_NUMBERS {
        let family = number.family();
        append_head(text, family)?;
        for action in &watched.actions {
            let of = Of::Action(action.name);
            append_sample(text, family, watched.relay, of, number.value(action))?;
        }
    }
    Ok(())
}

fn append_queues(text: &mut Vec<u8>, watched: &Watched<'_>) -> Result<(), AllocError> {
    for number in &QUEUE_NUMBERS {
        let family = number.family();
        append_head(text, family)?;
        for queue in &watched.queues {
            if let Some(value) = number.value(queue) {
                append_sample(text, family, watched.relay, Of::Queue(queue.name), value)?;
            }
        }
    }
    Ok(())
}

/// What is watched of a relay, in Prometheus' text format.
pub fn metrics(alloc: Global, watched: &Watched<'_>) -> Result<Vec<u8>, AllocError> {
    let mut text = Vec::new(alloc);
    append_relay(&mut text, watched)?;
    append_inputs(&mut text, watched)?;
    append_states(&mut text, watched)?;
    append_actions(&mut text, watched)?;
    append_queues(&mut text, watched)?;
    Ok(text)
}
