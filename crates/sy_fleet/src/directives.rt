//! The directives of the older syntax.
ghost use Rattle.std.specs.Prelude.{◌≡◌, true};
ghost use Rattle.sy_fleet.specs.Statements as spec;

use crate::params::Span;
use crate::statements::{Assumption, Sort};
use sy_fleet_text::classes::{is_blank, is_word};
use sy_fleet_text::scan::{byte_at, part};
use sy_fleet_text::words::same_word;

/// A directive: its name without `$`, and its value without a comment and the blanks around it.
#[derive(Clone, Copy)]
pub(crate) struct Directive {
    pub name: Span,
    pub value: Span,
}

// Where the value ends: before a comment, and the blanks before that.
fn value_end(text: &[u8], start: usize, end: usize) -> usize {
    let mut last = start;
    for at in start..end {
        let byte = byte_at(text, at);
        if byte == b'#' {
            return last;
        }
        if !is_blank(byte) {
            last = at + 1;
        }
    }
    last
}

// Where the first byte stands that is no blank, or the end.
fn behind_blanks(text: &[u8], start: usize, end: usize) -> usize {
    for at in start..end {
        if !is_blank(byte_at(text, at)) {
            return at;
        }
    }
    end
}

// Where the word ends that begins there.
fn word_end(text: &[u8], start: usize, end: usize) -> usize {
    for at in start..end {
        if !is_word(byte_at(text, at)) {
            return at;
        }
    }
    end
}

/// The directive that stands between two places.
pub(crate) fn directive_at(text: &[u8], start: usize, end: usize) -> Directive {
    let begin = start.saturating_add(1);
    let name_end = word_end(text, begin, end);
    let value = behind_blanks(text, name_end, end);
    Directive {
        name: Span {
            start: begin,
            end: name_end,
        },
        value: Span {
            start: value,
            end: value_end(text, value, end),
        },
    }
}

/// What a directive is about.
#[derive(Clone, Copy, PartialEq, Eq)]
pub(crate) enum Subject {
    Module,
    Listener(&'static [u8]),
    Binding(&'static [u8]),
    Ruleset,
    RulesetQueue,
    MainQueue,
    ActionQueue,
    Retries,
    Suspended,
    Reduction,
    RateLimit,
    Taken(Assumption),
    Nothing,
}

fn listener(name: &[u8]) -> Option<Subject> {
    if same_word(b"InputTCPServerRun", name) {
        return Some(Subject::Listener(b"imtcp"));
    }
    if same_word(b"InputPTCPServerRun", name) {
        return Some(Subject::Listener(b"imptcp"));
    }
    if same_word(b"UDPServerRun", name) {
        return Some(Subject::Listener(b"imudp"));
    }
    if same_word(b"InputRELPServerRun", name) {
        return Some(Subject::Listener(b"imrelp"));
    }
    if same_word(b"InputFileMonitor", name) || same_word(b"InputRunFileMonitor", name) {
        return Some(Subject::Listener(b"imfile"));
    }
    None
}

// The module whose listeners a directive binds to a ruleset.
fn binding(name: &[u8]) -> Option<Subject> {
    if same_word(b"InputTCPServerBindRuleset", name) {
        return Some(Subject::Binding(b"imtcp"));
    }
    if same_word(b"InputPTCPServerBindRuleset", name) {
        return Some(Subject::Binding(b"imptcp"));
    }
    if same_word(b"InputUDPServerBindRuleset", name) {
        return Some(Subject::Binding(b"imudp"));
    }
    if same_word(b"InputRELPServerBindRuleset", name) {
        return Some(Subject::Binding(b"imrelp"));
    }
    if same_word(b"InputFileBindRuleset", name) {
        return Some(Subject::Binding(b"imfile"));
    }
    None
}

fn assumed(name: &[u8]) -> Option<Assumption> {
    if same_word(b"IncludeConfig", name) {
        return Some(Assumption::Included);
    }
    if same_word(b"Template", name)
        || same_word(b"ActionFileDefaultTemplate", name)
        || same_word(b"ActionForwardDefaultTemplate", name)
    {
        return Some(Assumption::Template);
    }
    if same_word(b"AllowedSender", name) {
        return Some(Assumption::Senders);
    }
    if same_word(b"MaxMessageSize", name) {
        return Some(Assumption::Size);
    }
    if same_word(b"RulesetParser", name) {
        return Some(Assumption::Parser);
    }
    None
}

// Whether a directive is known to have no effect on what is kept.
fn is_idle(name: &[u8]) -> bool {
    same_word(b"FileOwner", name)
        || same_word(b"FileGroup", name)
        || same_word(b"FileCreateMode", name)
        || same_word(b"DirOwner", name)
        || same_word(b"DirGroup", name)
        || same_word(b"DirCreateMode", name)
        || same_word(b"Umask", name)
        || same_word(b"WorkDirectory", name)
        || same_word(b"PrivDropToUser", name)
        || same_word(b"PrivDropToGroup", name)
        || same_word(b"ActionFileEnableSync", name)
        || same_word(b"ActionResumeInterval", name)
        || same_word(b"UDPServerAddress", name)
        || same_word(b"MarkMessagePeriod", name)
        || same_word(b"LocalHostName", name)
        || same_word(b"DebugLevel", name)
        || same_word(b"ModDir", name)
        || same_word(b"ActionName", name)
        || same_word(b"CreateDirs", name)
        || same_word(b"SystemLogSocketName", name)
        || same_word(b"SystemLogRateLimitBurst", name)
        || same_word(b"SystemLogRateLimitSeverity", name)
        || same_word(b"InputFileName", name)
        || same_word(b"InputFileTag", name)
        || same_word(b"InputFileStateFile", name)
        || same_word(b"InputFilePollInterval", name)
}

fn setting(name: &[u8]) -> Option<Subject> {
    if same_word(b"ModLoad", name) {
        return Some(Subject::Module);
    }
    if same_word(b"RuleSet", name) {
        return Some(Subject::Ruleset);
    }
    if same_word(b"RulesetCreateMainQueue", name) {
        return Some(Subject::RulesetQueue);
    }
    if same_word(b"ActionResumeRetryCount", name) {
        return Some(Subject::Retries);
    }
    if same_word(b"ActionExecOnlyWhenPreviousIsSuspended", name)
        || same_word(b"ActionExecOnlyEveryNthTime", name)
        || same_word(b"ActionExecOnlyOnceEveryInterval", name)
    {
        return Some(Subject::Suspended);
    }
    if same_word(b"RepeatedMsgReduction", name) {
        return Some(Subject::Reduction);
    }
    if same_word(b"SystemLogRateLimitInterval", name)
        || same_word(b"IMUXSockRateLimitInterval", name)
        || same_word(b"imjournalRatelimitInterval", name)
    {
        return Some(Subject::RateLimit);
    }
    None
}

/// How long the beginning of a name is that says of which queue it is.
pub(crate) fn queue_prefix(name: &[u8]) -> Option<(Subject, usize)> {
    if same_word(b"MainMsgQueue", part(name, 0, 12)) {
        return Some((Subject::MainQueue, 12));
    }
    if same_word(b"ActionQueue", part(name, 0, 11)) {
        return Some((Subject::ActionQueue, 11));
    }
    None
}

/// What a directive of a name is about.
pub(crate) fn subject_of(name: &[u8]) -> Subject {
    if let Some(subject) = listener(name) {
        return subject;
    }
    if let Some(subject) = binding(name) {
        return subject;
    }
    if let Some(subject) = setting(name) {
        return subject;
    }
    if let Some(assumption) = assumed(name) {
        return Subject::Taken(assumption);
    }
    if let Some((subject, _)) = queue_prefix(name) {
        return subject;
    }
    if is_idle(name) {
        return Subject::Nothing;
    }
    Subject::Taken(Assumption::Unknown)
}

/// The sort of a directive.
pub(crate) fn sort_of(subject: Subject) -> Sort
    ensures { spec.is_read result ≡ true }
{
    match subject {
        Subject::Taken(assumption) => Sort::Assumed(assumption),
        Subject::Nothing => Sort::WithoutEffect,
        _ => Sort::Planned,
    }
}
