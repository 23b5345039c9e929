//! The option by which each relay of a site is drawn in full.
ghost use Rattle.std.specs.Prelude.{◌≤◌};

use crate::taking::{is_first, take_option};
use crate::usage::refusal;
use crate::wrong_words::refuse;
use std::alloc::Global;
use sy_commands::commands::{Request, request_of};
use sy_commands::graph::{Extent, graph};
use sy_report::command_line::options::given_words;
use sy_report::outcome::stop::out_of_memory;
use sy_report::reading::files::Files;
use sy_report::writing::outputs::Outputs;
use sy_wire::Sink;

/// Takes `--full` out of the words of a graph, where it is among them once. It answers whether it was.
pub fn take_full(words: &mut Vec<String>) -> bool {
    is_first(words.as_slice(), "graph") && take_option(words, "--full")
}

/// Draws the site that the words name, `--full` not among them, with what is below it. The days are those since the first of 1970,
/// where that is known. It answers the exit status.
pub fn draw_in_full<W: Sink, E: Sink, F: Files>(
    alloc: Global,
    words: &[String],
    files: &F,
    days: Option<u64>,
    out: &mut Outputs<W, E>,
) -> u8
    ensures { result ≤ 4 }
{
    let Ok(given) = given_words(alloc, words) else {
        return out_of_memory(&mut out.errors);
    };
    let extent = Extent::Full(days);
    match request_of(&given) {
        Some(Request::Graph(site)) => graph(alloc, files, site, None, extent, out),
        Some(Request::GraphOfClass(site, class)) => {
            graph(alloc, files, site, Some(class), extent, out)
        }
        _ => refuse(alloc, out, &refusal(alloc, given.all.as_slice())),
    }
}
