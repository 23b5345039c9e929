//! Commands over the example site (`examples/site`), with its files in memory, and what is known of their answers then.
//! Nothing calls these functions; their contracts are laws.
ghost use Rattle.std.specs.Prelude.{◌≡◌, IfOk, codes, map, string_bytes};
ghost use Rattle.sy_commands.specs.Checks.{AskedIs};
ghost use Rattle.syc.specs.Examples as spec;
ghost use Rattle.sy_report.specs.Memory.{given};
ghost use Rattle.sy_commands.specs.Outcomes.{FailsBy};
ghost use Rattle.sy_commands.specs.Replays.{ReplayIs};
ghost use Rattle.sy_commands.specs.Verdicts.{VerifyIs};
ghost use Rattle.sy_commands.specs.Words.{AreAskingOf, AreReplayOf, AreVerifyOf};
ghost use Rattle.sy_report.specs.declared.command_line.command.Asked.{Asked};
ghost use Rattle.sy_report.specs.declared.command_line.command.Asked.TheVariants as asked;

use crate::laws::run_each;
use std::alloc::{AllocError, Global};
use sy_checker::laws::fit_is_sound;
use sy_report::reading::memory::MemoryFiles;
use sy_report::writing::outputs::Outputs;
use sy_site::laws::one_site;
use sy_wire::{FromRead, Sink};

const SITE: &[u8] = br#"relay edge edge.conf
relay hub hub.conf
entry edge 6514
protect auth.* hub audit
"#;

const EDGE: &[u8] = br#"module(load="imtcp")
input(type="imtcp" port="6514" flowControl="full" ruleset="out")
ruleset(name="out" queue.type="LinkedList" queue.size="100"
        queue.fullDelayMark="90" queue.discardSeverity="8") {
  action(name="up" type="omfwd" target="hub" port="6515" protocol="tcp"
         TCP_Framing="octet-counted" action.resumeRetryCount="-1")
}
"#;

const HUB: &[u8] = br#"module(load="imtcp")
input(type="imtcp" port="6515" flowControl="full")
action(name="audit" type="omfile" file="audit.log" action.resumeRetryCount="-1")
"#;

/// The text of the certificate that is made of the example.
pub const CERTIFICATE: &[u8] = br#"cert 1
class 32
reach edge 6514
reach hub 6515
rank edge 1
rank hub 0
path edge 6514 hub audit 0
class 33
reach edge 6514
reach hub 6515
rank edge 1
rank hub 0
path edge 6514 hub audit 0
class 34
reach edge 6514
reach hub 6515
rank edge 1
rank hub 0
path edge 6514 hub audit 0
class 35
reach edge 6514
reach hub 6515
rank edge 1
rank hub 0
path edge 6514 hub audit 0
class 36
reach edge 6514
reach hub 6515
rank edge 1
rank hub 0
path edge 6514 hub audit 0
class 37
reach edge 6514
reach hub 6515
rank edge 1
rank hub 0
path edge 6514 hub audit 0
class 38
reach edge 6514
reach hub 6515
rank edge 1
rank hub 0
path edge 6514 hub audit 0
class 39
reach edge 6514
reach hub 6515
rank edge 1
rank hub 0
path edge 6514 hub audit 0
"#;

// A message is passed on twice, since the device of the forward took it and answered a failure once.
const EVENTS: &[u8] = br#"take edge 6514 0 new <34>1 - - - - - -
enter edge 6514 0
grab edge 1
fail edge 1 yes
done edge 1
take hub 6515 0 link edge 0 1
take hub 6515 1 link edge 0 0
"#;

static FILES: [(&str, &[u8]); 5] = [
    ("site", SITE),
    ("edge.conf", EDGE),
    ("hub.conf", HUB),
    ("cert", CERTIFICATE),
    ("events", EVENTS),
];

// The files of the example.
fn files(alloc: Global) -> MemoryFiles<'static>
    ensures { given result ≡ spec.files }
{
    MemoryFiles::new(alloc, &FILES)
}

// Words as the command line gives them.
fn words_of(alloc: Global, words: &[&str]) -> Result<Vec<String>, AllocError>
    ensures { IfOk result (λ found. map string_bytes found.items ≡ map (λ word. word.now) words.now) }
{
    let mut found = Vec::new(alloc);
    for word in words {
        found.push(String::from_str(alloc, word)?)?;
    }
    Ok(found)
}

// Runs the command of these words over the files of the example, with nothing on standard input. No read fails.
fn run_words<W: Sink, E: Sink>(
    alloc: Global,
    words: &[&str],
    out: &mut Outputs<W, E>,
) -> Result<u8, AllocError>
    ensures asked { IfOk result (λ status. (question : Asked) → AreAskingOf question (map (λ word. word.now) words.now) (codes "site")
        → AskedIs question spec.bytes_of SITE.now status out.old out.new) }
    ensures verify { IfOk result (λ status. AreVerifyOf (map (λ word. word.now) words.now) (codes "site") (codes "cert")
        → VerifyIs spec.bytes_of SITE.now CERTIFICATE.now status out.old out.new) }
    ensures replay { IfOk result (λ status. AreReplayOf (map (λ word. word.now) words.now) (codes "site") (codes "events")
        → ReplayIs spec.bytes_of SITE.now EVENTS.now status out.old out.new) }
    ensures asked_fails { IfOk result (λ status. (question : Asked)
        → AreAskingOf question (map (λ word. word.now) words.now) (codes "site") → FailsBy ⊥ status out.old out.new) }
    ensures verify_fails { IfOk result (λ status. AreVerifyOf (map (λ word. word.now) words.now) (codes "site") (codes "cert")
        → FailsBy ⊥ status out.old out.new) }
    ensures replay_fails { IfOk result (λ status. AreReplayOf (map (λ word. word.now) words.now) (codes "site") (codes "events")
        → FailsBy ⊥ status out.old out.new) }
{
    let words = words_of(alloc, words)?;
    let mut nothing = FromRead::new([].as_slice());
    Ok(run_each(alloc, words.as_slice(), &files(alloc), &mut nothing, out))
}

/// A check of the example: with status 0 `accepted: 8 protected classes` was printed, and the texts describe one site,
/// which keeps the messages of eight classes. With status 4 a write failed.
pub fn check_example<W: Sink, E: Sink>(
    alloc: Global,
    out: &mut Outputs<W, E>,
) -> Result<u8, AllocError>
    ensures answered { IfOk result (λ status. AskedIs asked.Check spec.bytes_of SITE.now status out.old out.new) }
    ensures accepted { IfOk result (λ status. status ≡ 0 → spec.IsAccepted out.old out.new) }
    ensures fails { IfOk result (λ status. FailsBy ⊥ status out.old out.new) }
{
    one_site();
    run_words(alloc, &["check", "site"], out)
}

/// The making of the example's certificate: with status 0 the text of one was printed that is fit for the one site which
/// the texts describe. With status 4 a write failed.
pub fn certify_example<W: Sink, E: Sink>(
    alloc: Global,
    out: &mut Outputs<W, E>,
) -> Result<u8, AllocError>
    ensures answered { IfOk result (λ status. AskedIs asked.Certify spec.bytes_of SITE.now status out.old out.new) }
    ensures certified { IfOk result (λ status. status ≡ 0 → spec.IsCertified out.old out.new) }
    ensures fails { IfOk result (λ status. FailsBy ⊥ status out.old out.new) }
{
    one_site();
    fit_is_sound();
    run_words(alloc, &["certify", "site"], out)
}

/// A verify of the example's certificate: with status 0 it is fit for the one site which the texts describe, and all is
/// as at status 0 of a check. With status 4 a write failed.
pub fn verify_example<W: Sink, E: Sink>(
    alloc: Global,
    out: &mut Outputs<W, E>,
) -> Result<u8, AllocError>
    ensures answered { IfOk result (λ status. VerifyIs spec.bytes_of SITE.now CERTIFICATE.now status out.old out.new) }
    ensures accepted { IfOk result (λ status. status ≡ 0 → spec.IsAccepted out.old out.new) }
    ensures verified { IfOk result (λ status. status ≡ 0 → spec.IsVerified) }
    ensures fails { IfOk result (λ status. FailsBy ⊥ status out.old out.new) }
{
    one_site();
    run_words(alloc, &["verify", "site", "cert"], out)
}

/// A replay of events of the example: with status 0 each line is a step of the one site that the texts describe, and
/// what these steps print was printed. With status 4 a write failed.
pub fn replay_example<W: Sink, E: Sink>(
    alloc: Global,
    out: &mut Outputs<W, E>,
) -> Result<u8, AllocError>
    ensures answered { IfOk result (λ status. ReplayIs spec.bytes_of SITE.now EVENTS.now status out.old out.new) }
    ensures replayed { IfOk result (λ status. status ≡ 0 → spec.IsReplayed out.old out.new) }
    ensures fails { IfOk result (λ status. FailsBy ⊥ status out.old out.new) }
{
    one_site();
    run_words(alloc, &["replay", "site", "events"], out)
}
