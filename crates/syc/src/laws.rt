//! What is known of `run`, for each command by itself. Nothing calls this; its contract is a law.
ghost use Rattle.std.specs.Prelude.{◌≡◌, ◌≢◌, ◌≤◌, ◌+◌, ◌∷◌, ◌⊎◌, ℕ, List, Option, Some, map, string_bytes};
ghost use Rattle.std.specs.Io.KnownBytes.{Keeps};
ghost use Rattle.std.specs.List.{Any};
ghost use Rattle.sy_site.specs.texts.Files.{file_names};
ghost use Rattle.sy_commands.specs.Checks.{AskedIs};
ghost use Rattle.sy_commands.specs.Graphs.{GraphIs};
ghost use Rattle.sy_commands.specs.Optioned.{EndsAs, FailsAs, KeepsAs};
ghost use Rattle.syc.specs.Optioned.{SaysAs};
ghost use Rattle.sy_commands.specs.Outcomes.{FailsBy};
ghost use Rattle.syc.specs.CommandReports.{Shows};
ghost use Rattle.syc.specs.CommandReports.{Leaves};
ghost use Rattle.sy_passing.specs.Pass.{NoneFailed, PassIs, counted};
ghost use Rattle.sy_commands.specs.Replays.{PiecesMayFail, ReplayIs};
ghost use Rattle.sy_commands.specs.Verdicts.{DescribesKept, VerifyIs};
ghost use Rattle.sy_commands.specs.Words.{AreAskingOf, AreGraphWords, AreReplayOf, AreVerifyOf, OverSite as AnyOver};
ghost use Rattle.syc.specs.Words.{AreNoCommandOf, AreOptioned, ArePassAlone};
ghost use Rattle.sy_report.specs.declared.command_line.command.Asked.{Asked as AnyAsked};
ghost use Rattle.sy_report.specs.declared.command_line.command.Asked.TheVariants as asked;
ghost use Rattle.sy_report.specs.declared.command_line.options.Options.{Options as AnyOptions};

use crate::run::run;
use std::alloc::Global;
use sy_passing::pass::READS;
use sy_report::reading::files::Files;
use sy_report::writing::outputs::Outputs;
use sy_wire::{Sink, Source};

/// The same as `run`.
pub fn run_each<R: Source, W: Sink, E: Sink, F: Files>(
    alloc: Global,
    args: &[String],
    files: &F,
    reader: &mut R,
    out: &mut Outputs<W, E>,
) -> u8
    ensures pass { ArePassAlone (map string_bytes args.now) → (input : List ℕ) → R.remaining reader.old ≡ Some input →
        PassIs result input out.old out.new }
    ensures replay { (site events text input : List ℕ) → AreReplayOf (map string_bytes args.now) site events →
        F.bytes_of files.now site ≡ Some text → F.bytes_of files.now events ≡ Some input →
        ReplayIs (F.bytes_of files.now) text input result out.old out.new }
    ensures asked { (question : AnyAsked) (site text : List ℕ) → AreAskingOf question (map string_bytes args.now) site →
        F.bytes_of files.now site ≡ Some text → AskedIs question (F.bytes_of files.now) text result out.old out.new }
    ensures verify { (site certificate site_text text : List ℕ) → AreVerifyOf (map string_bytes args.now) site certificate →
        F.bytes_of files.now site ≡ Some site_text → F.bytes_of files.now certificate ≡ Some text →
        VerifyIs (F.bytes_of files.now) site_text text result out.old out.new }
    ensures check_safe { (site text : List ℕ) → AreAskingOf asked.Check (map string_bytes args.now) site →
        F.bytes_of files.now site ≡ Some text → result ≡ 0 → DescribesKept (F.bytes_of files.now) text }
    ensures verify_safe { (site certificate text : List ℕ) → AreVerifyOf (map string_bytes args.now) site certificate →
        F.bytes_of files.now site ≡ Some text → result ≡ 0 → DescribesKept (F.bytes_of files.now) text }
    ensures replay_fails { (site events text input : List ℕ) → AreReplayOf (map string_bytes args.now) site events →
        F.bytes_of files.now site ≡ Some text → F.bytes_of files.now events ≡ Some input →
        FailsBy (Any (F.may_fail files.now) (site ∷ events ∷ file_names text) ⊎ PiecesMayFail F.Opened.faults input)
        result out.old out.new }
    ensures asked_fails { (question : AnyAsked) (site text : List ℕ) → AreAskingOf question (map string_bytes args.now) site →
        F.bytes_of files.now site ≡ Some text →
        FailsBy (Any (F.may_fail files.now) (site ∷ file_names text)) result out.old out.new }
    ensures verify_fails { (site certificate text : List ℕ) → AreVerifyOf (map string_bytes args.now) site certificate →
        F.bytes_of files.now site ≡ Some text →
        FailsBy (Any (F.may_fail files.now) (site ∷ certificate ∷ file_names text)) result out.old out.new }
    ensures options_end { (options : AnyOptions) (command : AnyOver) → AreOptioned (map string_bytes args.now) options command →
        EndsAs (F.bytes_of files.now) command result }
    ensures options_say { (options : AnyOptions) (command : AnyOver) → AreOptioned (map string_bytes args.now) options command →
        SaysAs (F.bytes_of files.now) options command result out.old out.new }
    ensures options_safe { (options : AnyOptions) (command : AnyOver) → AreOptioned (map string_bytes args.now) options command →
        KeepsAs (F.bytes_of files.now) command result }
    ensures options_fail { (options : AnyOptions) (command : AnyOver) → AreOptioned (map string_bytes args.now) options command →
        FailsAs (F.bytes_of files.now) (F.may_fail files.now) (PiecesMayFail F.Opened.faults) command result out.old out.new }
    ensures graph { (class : Option (List ℕ)) (site text : List ℕ) → AreGraphWords class (map string_bytes args.now) site →
        F.bytes_of files.now site ≡ Some text → GraphIs class (F.bytes_of files.now) text result out.old out.new }
    ensures graph_fails { (class : Option (List ℕ)) (site text : List ℕ) → AreGraphWords class (map string_bytes args.now) site →
        F.bytes_of files.now site ≡ Some text →
        FailsBy (Any (F.may_fail files.now) (site ∷ file_names text)) result out.old out.new }
    ensures other { AreNoCommandOf (map string_bytes args.now) → Shows result out.old out.new }
    ensures status { result ≤ 4 }
    ensures quiet { result ≡ 0 → Keeps out.old.errors.contents out.new.errors.contents }
    ensures leaves { ArePassAlone (map string_bytes args.now) → Leaves result out.old out.new
        (counted R.faults R.calls reader.old out.old) (counted R.faults R.calls reader.new out.new) }
    ensures calls { R.calls reader.new ≤ R.calls reader.old + READS }
    ensures none_failed { result ≢ 4 → NoneFailed
        (counted R.faults R.calls reader.old out.old) (counted R.faults R.calls reader.new out.new) }
    ensures untouched { (ArePassAlone (map string_bytes args.now) → ⊥) → reader.new ≡ reader.old }
{
    run(alloc, args, files, reader, out)
}
