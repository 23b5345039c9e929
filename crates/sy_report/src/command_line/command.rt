//! The words of the command line.
ghost use Rattle.std.specs.Prelude.{◌≡◌, [], ◌∷◌, ◌↔◌, ℕ, List, codes, map, string_bytes, IfNone, IfSome, IsTrue};
ghost use Rattle.sy_report.specs.Words as spec;
ghost use Rattle.sy_report.specs.Words.{AreAsking, ArePass, AreReplay, AreVerify, AreWithName, IsSiteCommand};
ghost use Rattle.sy_report.specs.declared.command_line.command.Asked.{Asked as AnyAsked};
ghost use Rattle.sy_report.specs.Commands.{AreNoSiteCommand};

/// What a command asks of a site.
#[derive(Clone, Copy)]
pub enum Asked {
    /// A verdict.
    Check,
    /// A certificate.
    Certify,
}

/// What the program is to do with the files of a site.
#[derive(Clone, Copy)]
pub enum SiteCommand<'a> {
    /// What is asked of the site, and the name of the site file.
    Ask(Asked, &'a str),
    /// The events of a file at the site: the names of the site file and of the events file.
    Replay(&'a str, &'a str),
    /// A verdict on a certificate: the names of the site file and of the certificate's file.
    Verify(&'a str, &'a str),
}

/// Whether a word is this one.
pub fn is_word(word: &str, wanted: &str) -> bool
    ensures { IsTrue result ↔ (word.now ≡ wanted.now) }
{
    word == wanted
}

/// Whether the words are `pass` alone after the program's name.
pub fn are_pass(words: &[&str]) -> bool
    ensures { IsTrue result ↔ ArePass (map (λ s. s.now) words.now) }
{
    match words {
        [program, command] => is_word(program, "syc") && is_word(command, "pass"),
        _ => false,
    }
}

/// Whether a word names a file where it stands: it is no option.
pub fn is_plain(word: &str) -> bool
    ensures { result ≡ spec.is_plain word.now }
{
    match word.as_bytes() {
        [first, _, ..] => *first != b'-',
        _ => true,
    }
}

// The name of the site file, where the words are those of this command, with one name, after the program's name.
fn named<'a>(words: &[&'a str], command: &str) -> Option<&'a str>
    ensures some { IfSome result (λ site.
        AreWithName (codes "syc" ∷ command.now ∷ []) (map (λ s. s.now) words.now) site.now) }
    ensures none { IfNone result ((site : List ℕ) →
        AreWithName (codes "syc" ∷ command.now ∷ []) (map (λ s. s.now) words.now) site → ⊥) }
{
    match words {
        [program, word, site] => {
            if is_word(program, "syc") && is_word(word, command) && is_plain(site) {
                Some(site)
            } else {
                None
            }
        }
        _ => None,
    }
}

// The name of the site file, where the words ask this of a site, after the program's name.
fn asking<'a>(words: &[&'a str], asked: Asked) -> Option<&'a str>
    ensures some { IfSome result (λ site. AreAsking asked (map (λ s. s.now) words.now) site.now) }
    ensures none { IfNone result ((site : List ℕ) → AreAsking asked (map (λ s. s.now) words.now) site → ⊥) }
{
    match asked {
        Asked::Check => named(words, "check"),
        Asked::Certify => named(words, "certify"),
    }
}

// What the words ask of a site, and the name of the site file.
fn question_of<'a>(words: &[&'a str]) -> Option<(Asked, &'a str)>
    ensures some { IfSome result (λ found. AreAsking found.0 (map (λ s. s.now) words.now) found.1.now) }
    ensures none { IfNone result ((question : AnyAsked) (site : List ℕ) →
        AreAsking question (map (λ s. s.now) words.now) site → ⊥) }
{
    if let Some(site) = asking(words, Asked::Check) {
        return Some((Asked::Check, site));
    }
    match asking(words, Asked::Certify) {
        Some(site) => Some((Asked::Certify, site)),
        None => None,
    }
}

// The names of the files, where the words are `replay` with two after the program's name.
fn replayed<'a>(words: &[&'a str]) -> Option<(&'a str, &'a str)>
    ensures some { IfSome result (λ names. AreReplay (map (λ s. s.now) words.now) names.0.now names.1.now) }
    ensures none { IfNone result ((site events : List ℕ) → AreReplay (map (λ s. s.now) words.now) site events → ⊥) }
{
    match words {
        [program, command, site, events] => {
            if is_word(program, "syc")
                && is_word(command, "replay")
                && is_plain(site)
                && is_plain(events)
            {
                Some((site, events))
            } else {
                None
            }
        }
        _ => None,
    }
}

// The names of the files, where the words are `verify` with two after the program's name.
fn verified<'a>(words: &[&'a str]) -> Option<(&'a str, &'a str)>
    ensures some { IfSome result (λ names. AreVerify (map (λ s. s.now) words.now) names.0.now names.1.now) }
    ensures none { IfNone result ((site certificate : List ℕ) →
        AreVerify (map (λ s. s.now) words.now) site certificate → ⊥) }
{
    match words {
        [program, command, site, certificate] => {
            if is_word(program, "syc")
                && is_word(command, "verify")
                && is_plain(site)
                && is_plain(certificate)
            {
                Some((site, certificate))
            } else {
                None
            }
        }
        _ => None,
    }
}

/// What the words, the program's name being the first of them, want of a site.
pub fn site_command<'a>(words: &[&'a str]) -> Option<SiteCommand<'a>>
    ensures some { IfSome result (IsSiteCommand (map (λ s. s.now) words.now)) }
    ensures none { IfNone result (AreNoSiteCommand (map (λ s. s.now) words.now)) }
{
    if let Some((question, site)) = question_of(words) {
        return Some(SiteCommand::Ask(question, site));
    }
    if let Some((site, events)) = replayed(words) {
        return Some(SiteCommand::Replay(site, events));
    }
    match verified(words) {
        Some((site, certificate)) => Some(SiteCommand::Verify(site, certificate)),
        None => None,
    }
}
