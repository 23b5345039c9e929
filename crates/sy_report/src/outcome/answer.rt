//! What a command over a site answers at its end.
ghost use Rattle.std.specs.Prelude.{◌≡◌, ◌≢◌, ◌≤◌, IfErr, IfOk};
ghost use Rattle.std.specs.Io.KnownBytes.{Keeps};
ghost use Rattle.sy_report.specs.HaltTexts.{halt_report};
ghost use Rattle.sy_report.specs.Outcomes.{Prints, status_for};
ghost use Rattle.sy_report.specs.Reports.{HasReported};
ghost use Rattle.sy_report.specs.Halts.{status_at};

use crate::outcome::halt::{Halt, report_halt, status_of};
use crate::writing::output::send;
use crate::writing::outputs::Outputs;
use sy_wire::Sink;

/// What a command prints of a site, and whether the site, or the certificate, is accepted.
#[derive(Drop)]
pub struct Answer {
    pub text: Vec<u8>,
    pub is_accepted: bool,
}

/// Tells why a command stops, and answers the exit status.
pub fn stop<W: Sink, E: Sink>(out: &mut Outputs<W, E>, halt: &Halt) -> u8
    ensures status { result ≡ status_at halt.now }
    ensures reported { HasReported out.old out.new (halt_report halt.now) }
    ensures same { out.new.output ≡ out.old.output }
    ensures failed { result ≢ 0 }
{
    report_halt(&mut out.errors, halt);
    status_of(halt)
}

// The exit status of an answer.
fn status(is_accepted: bool) -> u8
    ensures { result ≡ status_for is_accepted }
{
    if is_accepted { 0 } else { 1 }
}

/// Prints an answer, or tells why there is none, and answers the exit status.
pub fn print<W: Sink, E: Sink>(answer: Result<Answer, Halt>, out: &mut Outputs<W, E>) -> u8
    ensures printed { IfOk answer (λ a. Prints a.text.items a.is_accepted result out.old out.new) }
    ensures stopped { IfErr answer (λ halt. (result ≡ status_at halt) × (out.new.output ≡ out.old.output)
        × HasReported out.old out.new (halt_report halt)) }
    ensures failed { IfErr answer (λ _. result ≢ 0) }
    ensures status { result ≤ 4 }
    ensures none_failed { result ≢ 4 → out.new.output.faults ≡ out.old.output.faults }
    ensures quiet { result ≡ 0 → Keeps out.old.errors.contents out.new.errors.contents }
{
    match answer {
        Ok(answer) => match send(&mut out.writer, answer.text.as_slice()) {
            Ok(()) => status(answer.is_accepted),
            Err(_) => stop(out, &Halt::WriteFailed),
        },
        Err(halt) => stop(out, &halt),
    }
}
