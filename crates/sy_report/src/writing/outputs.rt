//! What the program writes to.
ghost use Rattle.sy_report.specs.Reports.{Streams, seen};
ghost use Rattle.sy_report.specs.internal.Reports.{streams};

use std::marker::Model;
use sy_wire::Sink;

/// Standard output and standard error.
#[derive(Drop)]
pub struct Outputs<W: Sink, E: Sink> {
    pub writer: W,
    pub errors: E,
}

impl<W: Sink, E: Sink> Model for Outputs<W, E> {
    ghost Value = { Streams };

    ghost view = { λ o. streams (seen W.contents W.is_flushed W.faults o.writer) (seen E.contents E.is_flushed E.faults o.errors) };
}
