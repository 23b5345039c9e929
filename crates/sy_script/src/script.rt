//! Reads a script.

ghost use Rattle.std.specs.Prelude.{◌≡◌, ◌≤◌, ◌<◌, ◌^◌, length, IfErr, IfOk};
ghost use Rattle.sy_script.specs.internal.Answer as spec;
ghost use Rattle.sy_script.specs.Depth.{depth};
ghost use Rattle.sy_script.specs.Faults.{IsFirst, IsRead, Stands};
ghost use Rattle.sy_script.specs.Grammar.{IsScript};
ghost use Rattle.sy_script.specs.declared.tree.Script.{Script};

use crate::fault::{FaultCode, ScriptFault};
use crate::halt::Halt;
use crate::items::Items;
use crate::lex::{part, tokens};
use crate::reader::Reader;
use crate::token::Ending;
use crate::tree::{Script, Span};
use std::alloc::Global;

/// The most bytes that a script has.
const MAX_TEXT: usize = 1_048_576;

/// A fault by the place of its first byte, and the place after its word.
#[derive(Clone, Copy)]
pub struct PlacedFault {
    pub code: FaultCode,
    pub span: Span,
}

fn at(code: FaultCode, start: usize) -> PlacedFault
    ensures { result ≡ spec.at code start }
{
    PlacedFault {
        code,
        span: Span { start, end: start },
    }
}

// The fault where the tokens are over too early.
fn at_end(len: usize, ending: Ending, opened: Option<usize>) -> PlacedFault
    ensures { result ≡ spec.at_end len ending opened }
{
    match ending {
        Ending::Byte(start) => at(FaultCode::Byte, start),
        Ending::Open(start) => at(FaultCode::Unclosed, start),
        Ending::Complete => match opened {
            Some(start) => at(FaultCode::Unclosed, start),
            None => at(FaultCode::Unexpected, len),
        },
    }
}

fn fault_of(len: usize, ending: Ending, halt: Halt) -> PlacedFault
    ensures { result ≡ spec.fault_of len ending halt }
{
    match halt {
        Halt::Memory => at(FaultCode::NoMemory, 0),
        Halt::Unexpected(span) => at(FaultCode::Unexpected, span.start),
        Halt::TooDeep(span) => at(FaultCode::TooDeep, span.start),
        Halt::LeftOut(span) => PlacedFault {
            code: FaultCode::LeftOut,
            span,
        },
        Halt::End(opened) => at_end(len, ending, opened),
    }
}

// The line and the column after these bytes.
#[tactic(auto, unfolding(crate::specs::internal::Answer::place))]
fn place(before: &[u8]) -> (usize, usize)
    requires { length before.now < 2 ^ 63 }
    ensures { result ≡ spec.place before.now }
{
    let mut line = 1;
    let mut column = 1;
    for b in before {
        if *b == b'\n' {
            line += 1;
            column = 1;
        } else {
            column += 1;
        }
    }
    (line, column)
}

fn no_memory(alloc: Global) -> ScriptFault
    ensures { result ≡ spec.no_memory }
{
    ScriptFault {
        code: FaultCode::NoMemory,
        line: 1,
        column: 1,
        word: Items::new(alloc),
    }
}

fn located(alloc: Global, text: &[u8], fault: PlacedFault) -> ScriptFault
    requires { length text.now < 2 ^ 63 }
    ensures { spec.Locates text.now fault result }
{
    let (line, column) = place(part(text, 0, fault.span.start));
    match Items::from_slice(alloc, part(text, fault.span.start, fault.span.end)) {
        Err(_) => no_memory(alloc),
        Ok(word) => ScriptFault {
            code: fault.code,
            line,
            column,
            word,
        },
    }
}

#[tactic(auto, unfolding(crate::specs::internal::Answer::reading))]
fn read(alloc: Global, text: &[u8]) -> Result<Script, PlacedFault>
    ensures { spec.Reads text.now result }
{
    let Ok(lexed) = tokens(alloc, text) else {
        return Err(at(FaultCode::NoMemory, 0));
    };
    let reader = Reader { alloc, text };
    match reader.tops(&lexed.tokens) {
        Err(halt) => Err(fault_of(text.len(), lexed.ending, halt)),
        Ok(tops) => match lexed.ending {
            Ending::Complete => Ok(Script { tops }),
            ending => Err(at_end(text.len(), ending, None)),
        },
    }
}

/// Reads a script: its tree, or a fault with its place. A text of more than 1 MiB is refused.
pub fn read_script(alloc: Global, text: &[u8]) -> Result<Script, ScriptFault>
    // What is read is a script, with this tree.
    ensures found { IfOk result (λ script. IsScript text.now script) }
    // A script is read, with each tree that it has, unless memory runs out.
    ensures only { (script : Script) → IsScript text.now script → IsRead script result }
    // It nests at most 32 deep.
    ensures shallow { IfOk result (λ script. depth script ≤ 32) }
    // A fault is there, in its line and column, and with its word.
    ensures there { IfErr result (λ f. Stands text.now f) }
    // Of several it is the one that goes before all others.
    ensures first { IfErr result (λ f. IsFirst text.now f.code) }
{
    if text.len() > MAX_TEXT {
        return Err(ScriptFault {
            code: FaultCode::TooLarge,
            line: 1,
            column: 1,
            word: Items::new(alloc),
        });
    }
    match read(alloc, text) {
        Ok(script) => Ok(script),
        Err(fault) => match fault.code {
            FaultCode::NoMemory => Err(no_memory(alloc)),
            _ => Err(located(alloc, text, fault)),
        },
    }
}
