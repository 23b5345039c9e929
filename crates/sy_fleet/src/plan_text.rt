//! The text of a plan, part by part.
ghost use Rattle.std.specs.Prelude.{OnOk};
ghost use Rattle.sy_fleet.specs.internal.Tests as spec;

use crate::queues::append_number;
use std::alloc::{AllocError, Global};

/// The parts of a plan's text.
#[derive(Drop)]
pub(crate) struct PlanText {
    alloc: Global,
    /// The statements of each ruleset, those of the default one first.
    bodies: Vec<Vec<u8>>,
    /// The parameters of their queues.
    queues: Vec<Vec<u8>>,
    main_queue: Vec<u8>,
    inputs: Vec<u8>,
}

impl PlanText {
    /// Of so many rulesets beside the default one, none with a statement.
    pub fn new(alloc: Global, rulesets: usize) -> Result<PlanText, AllocError> {
        let mut bodies = Vec::new(alloc);
        let mut queues = Vec::new(alloc);
        bodies.push(Vec::new(alloc))?;
        queues.push(Vec::new(alloc))?;
        for _ in 0..rulesets {
            bodies.push(Vec::new(alloc))?;
            queues.push(Vec::new(alloc))?;
        }
        Ok(PlanText {
            alloc,
            bodies,
            queues,
            main_queue: Vec::new(alloc),
            inputs: Vec::new(alloc),
        })
    }

    /// The statements of a ruleset so far.
    pub fn body(&mut self, ruleset: usize) -> Option<&mut Vec<u8>> {
        self.bodies.get_mut(ruleset)
    }

    /// Puts these behind the statements of a ruleset.
    pub fn push(&mut self, ruleset: usize, text: &[u8]) -> Result<(), AllocError>
        ensures { OnOk result (spec.AddsTo text.now «ruleset» self.old.bodies.items self.new.bodies.items) }
    {
        match self.bodies.get_mut(ruleset) {
            Some(body) => body.extend_from_slice(text),
            None => Ok(()),
        }
    }

    /// Puts a number behind them.
    pub fn push_number(&mut self, ruleset: usize, number: u64) -> Result<(), AllocError> {
        match self.bodies.get_mut(ruleset) {
            Some(body) => append_number(body, number),
            None => Ok(()),
        }
    }

    /// The queue of a ruleset.
    pub fn set_queue(&mut self, ruleset: usize, queue: Vec<u8>) {
        if let Some(found) = self.queues.get_mut(ruleset) {
            *found = queue;
        }
    }

    /// The main queue.
    pub fn set_main_queue(&mut self, queue: Vec<u8>) {
        self.main_queue = queue;
    }

    /// Adds an input.
    pub fn push_input(&mut self, text: &[u8]) -> Result<(), AllocError> {
        self.inputs.extend_from_slice(text)
    }

    /// The whole text.
    pub fn finish(self) -> Result<Vec<u8>, AllocError> {
        let mut text = Vec::new(self.alloc);
        text.extend_from_slice(b"module(load=\"imtcp\")\nmain_queue(")?;
        text.extend_from_slice(self.main_queue.as_slice())?;
        text.extend_from_slice(b")\n")?;
        for number in 1..self.bodies.len() {
            text.extend_from_slice(b"ruleset(name=\"r")?;
            append_number(&mut text, number as u64)?;
            text.extend_from_slice(b"\"")?;
            if let Some(queue) = self.queues.get(number) {
                text.extend_from_slice(queue.as_slice())?;
            }
            text.extend_from_slice(b") {\n")?;
            text.extend_from_slice(self.bodies[number].as_slice())?;
            text.extend_from_slice(b"}\n")?;
        }
        text.extend_from_slice(self.inputs.as_slice())?;
        if let Some(body) = self.bodies.first() {
            text.extend_from_slice(body.as_slice())?;
        }
        Ok(text)
    }
}
