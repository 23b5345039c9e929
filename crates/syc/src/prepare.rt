//! What a relay needs to run, by the words of the command line.
ghost use Rattle.std.specs.Prelude.{◌≡◌, ◌≤◌, IfErr, IfOk, map, string_bytes};
ghost use Rattle.syc.specs.Prepared.{IsPrepared};

use crate::usage::refusal;
use crate::wrong_words::refuse;
use std::alloc::Global;
use sy_board::Guard;
use sy_report::command_line::options::all_words;
use sy_report::outcome::stop::out_of_memory;
use sy_report::reading::files::Files;
use sy_report::writing::outputs::Outputs;
use sy_running::files_read::FilesRead;
use sy_running::prepare::ready;
use sy_running::words::{RunWords, run_words};
use sy_site::Site;
use sy_wire::Sink;

/// What the command that runs a relay needs: the site that the words name, the number of its relay, the relay's guard,
/// where the site is checked and sound, what the words say, and what the site's files say beside it. With `--unchecked` among the words no check is made, and there is no guard. Else
/// an exit status, and what is to be said of it is printed: 1 for a site that is refused, 2 for a faulty site, a relay that it doesn't have
/// or that has a whole entry whose frames without a message nothing keeps, endpoints that aren't told apart, or other words (0 where they ask for help), 3 where memory runs out, and 4 where a read or write failed.
pub fn prepare<'a, F: Files, W: Sink, E: Sink>(
    alloc: Global,
    args: &'a [String],
    files: &F,
    out: &mut Outputs<W, E>,
) -> Result<(Site, u32, Option<Guard>, RunWords<'a>, FilesRead), u8>
    ensures ok { IfOk result (λ found. IsPrepared (F.bytes_of files.now) (map string_bytes args.now) found.0 found.1 found.2 found.3) }
    ensures status { IfErr result (λ status. status ≤ 4) }
{
    let Ok(words) = all_words(alloc, args) else {
        return Err(out_of_memory(&mut out.errors));
    };
    match run_words(words.as_slice()) {
        Some(found) => match ready(alloc, found, files, out) {
            Ok((site, relay, guard, read)) => Ok((site, relay, guard, found, read)),
            Err(status) => Err(status),
        },
        None => Err(refuse(alloc, out, &refusal(alloc, words.as_slice()))),
    }
}
