//! The command that says what a number or a name means that the program reports.
ghost use Rattle.std.specs.Prelude.{◌≤◌};
ghost use Rattle.syc.specs.CommandReports.{Shows};

use crate::taking::is_first;
use crate::usage::refusal;
use crate::wrong_words::refuse;
use std::alloc::Global;
use sy_codes::explain_code;
use sy_report::command_line::command::is_plain;
use sy_report::command_line::options::all_words;
use sy_report::outcome::report::report_text;
use sy_report::outcome::stop::{out_of_memory, write_failed};
use sy_report::writing::output::send;
use sy_report::writing::outputs::Outputs;
use sy_wire::Sink;

// Whether there is a code that these words name.
fn is_code(alloc: Global, named: &[String]) -> bool {
    match explain_code(alloc, named) {
        Ok(text) => !named.is_empty() && !text.is_empty(),
        Err(_) => false,
    }
}

/// Whether the words, those after the program's name, begin with that command, or are `help` and a code.
pub fn is_explain(alloc: Global, args: &[String]) -> bool {
    match args {
        [_, named @ ..] if is_first(args, "help") => is_code(alloc, named),
        _ => is_first(args, "explain"),
    }
}

/// Prints what the codes mean that the words name, or a line for each where they name none. It answers the exit status: 0 done, 2
/// where there is no such code or the words are faulty, 3 where memory runs out, and 4 where a write failed.
pub fn explain<W: Sink, E: Sink>(alloc: Global, args: &[String], out: &mut Outputs<W, E>) -> u8
    ensures status { result ≤ 4 }
    ensures shown { Shows result out.old out.new }
{
    let Ok(words) = all_words(alloc, args) else {
        return out_of_memory(&mut out.errors);
    };
    let named = match args {
        [_, named @ ..] if named.len() <= 2 && named.iter().all(|it| is_plain(it.as_str())) =>
            named,
        _ => return refuse(alloc, out, &refusal(alloc, words.as_slice())),
    };
    let Ok(text) = explain_code(alloc, named) else {
        return out_of_memory(&mut out.errors);
    };
    if text.is_empty() {
        report_text(
            &mut out.errors,
            "there is no such code: syc explain lists all",
        );
        return 2;
    }
    match send(&mut out.writer, text.as_slice()) {
        Ok(()) => 0,
        Err(_) => write_failed(&mut out.errors),
    }
}
