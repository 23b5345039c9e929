//! Directives.
ghost use Rattle.std.specs.Prelude.{◌≡◌, true, IfOk};
ghost use Rattle.sy_conversion.specs.Conversions as spec;

use crate::draft::Draft;
use crate::fates::{Fate, Why};
use crate::inputs::{input_text, load};
use crate::params::{append_param, is_port};
use crate::source::Source;
use std::alloc::AllocError;
use sy_fleet::params::Span;
use sy_fleet_text::scan::{byte_at, part};
use sy_fleet_text::words::same_word;

// What a directive says: its name, and its value without a comment and the blanks around it.
#[derive(Clone, Copy)]
struct Setting {
    name: Span,
    value: Span,
}

fn is_blank(byte: u8) -> bool {
    byte == b' ' || byte == b'\t' || byte == b'\r' || byte == b'\n'
}

// The first place that holds a blank, or none, from one on; else the end.
fn find(text: &[u8], start: usize, end: usize, blank: bool) -> usize {
    for at in start..end {
        if is_blank(byte_at(text, at)) == blank {
            return at;
        }
    }
    end
}

fn directive_at(text: &[u8], start: usize, end: usize) -> Setting {
    let begin = start.saturating_add(1);
    let name_end = find(text, begin, end, true);
    let value = find(text, name_end, end, false);
    let mut last = value;
    for at in value..end {
        if byte_at(text, at) == b'#' {
            break;
        }
        if !is_blank(byte_at(text, at)) {
            last = at + 1;
        }
    }
    Setting {
        name: Span {
            start: begin,
            end: name_end,
        },
        value: Span {
            start: value,
            end: last,
        },
    }
}

fn is_of_queue(name: &[u8]) -> bool {
    same_word(b"MainMsgQueue", part(name, 0, 12)) || same_word(b"ActionQueue", part(name, 0, 11))
}

// Whose files they are, and how they are made.
fn is_of_files(name: &[u8]) -> bool {
    same_word(b"FileOwner", name)
        || same_word(b"FileGroup", name)
        || same_word(b"FileCreateMode", name)
        || same_word(b"DirOwner", name)
        || same_word(b"DirGroup", name)
        || same_word(b"DirCreateMode", name)
        || same_word(b"Umask", name)
        || same_word(b"PrivDropToUser", name)
        || same_word(b"PrivDropToGroup", name)
        || same_word(b"CreateDirs", name)
}

// Why a directive is left out.
fn why_left(name: &[u8]) -> Why {
    if is_of_queue(name) {
        return Why::Queue;
    }
    if is_of_files(name) {
        return Why::Owner;
    }
    if same_word(b"IncludeConfig", name) {
        return Why::Included;
    }
    if same_word(b"Template", name)
        || same_word(b"ActionFileDefaultTemplate", name)
        || same_word(b"ActionForwardDefaultTemplate", name)
    {
        return Why::Template;
    }
    if same_word(b"RulesetParser", name) {
        return Why::Parser;
    }
    if same_word(b"WorkDirectory", name)
        || same_word(b"ModDir", name)
        || same_word(b"RepeatedMsgReduction", name)
    {
        return Why::Setting;
    }
    Why::Unknown
}

// The statements that follow are of this ruleset.
fn enter(draft: &mut Draft, name: &[u8]) -> Result<(), AllocError> {
    if draft.is_in_ruleset {
        draft.push(b"}\n")?;
    }
    draft.is_in_ruleset = !same_word(b"RSYSLOG_DefaultRuleset", name);
    if draft.is_in_ruleset {
        let mut text = Vec::new(draft.alloc);
        text.extend_from_slice(b"ruleset(")?;
        append_param(&mut text, b"name", name)?;
        text.extend_from_slice(b") {")?;
        draft.push(text.as_slice())?;
    }
    Ok(())
}

// Whether a directive makes an input.
fn listens(name: &[u8]) -> bool {
    is_tcp(name)
        || same_word(b"UDPServerRun", name)
        || same_word(b"InputRELPServerRun", name)
        || same_word(b"InputFileMonitor", name)
        || same_word(b"InputRunFileMonitor", name)
}

fn is_tcp(name: &[u8]) -> bool {
    same_word(b"InputTCPServerRun", name) || same_word(b"InputPTCPServerRun", name)
}

// Carries over the directive that makes a listener.
fn listener(
    draft: &mut Draft,
    source: Source<'_>,
    statement: usize,
    it: Setting,
    name: &[u8],
    ruleset: usize,
) -> Result<Fate, AllocError>
    ensures { IfOk result (λ fate. spec.is_told fate ≡ true) }
{
    let is_tcp = is_tcp(name);
    let port = source.of(it.value);
    if !is_tcp || draft.is_secret || !is_port(port) {
        let why = if !is_tcp {
            Why::Input
        } else if draft.is_secret {
            Why::Secret
        } else {
            Why::Unnamed
        };
        draft.leave(source, statement, statement.saturating_add(1), why)?;
        return Ok(Fate::Left(why));
    }
    let text = input_text(draft, source, port, ruleset)?;
    if draft.is_in_ruleset {
        draft.tail.extend_from_slice(text.as_slice())?;
        draft.tail.push(b'\n')?;
    } else {
        draft.push(text.as_slice())?;
    }
    Ok(Fate::Carried)
}

// What is said of the inputs that come next is in these.
fn is_binding(name: &[u8]) -> bool {
    same_word(b"InputTCPServerBindRuleset", name) || same_word(b"InputPTCPServerBindRuleset", name)
}

/// Carries over a directive, or leaves it out.
pub(crate) fn directive(
    draft: &mut Draft,
    source: Source<'_>,
    statement: usize,
) -> Result<Fate, AllocError>
    ensures { IfOk result (λ fate. spec.is_told fate ≡ true) }
{
    let start = source.start(statement);
    let it = directive_at(
        source.text,
        start,
        source.end_before(statement.saturating_add(1)),
    );
    let name = source.of(it.name);
    if same_word(b"ModLoad", name) {
        return load(draft, source, statement, source.of(it.value), &[]);
    }
    if listens(name) {
        let ruleset = source.ruleset_at(start, &mut draft.next_input);
        return listener(draft, source, statement, it, name, ruleset);
    }
    if same_word(b"RuleSet", name) {
        enter(draft, source.of(it.value))?;
        return Ok(Fate::Carried);
    }
    if same_word(b"ActionResumeRetryCount", name) {
        draft.retries = Some(it.value);
        return Ok(Fate::Carried);
    }
    if is_binding(name) {
        return Ok(Fate::Carried);
    }
    let why = why_left(name);
    draft.leave(source, statement, statement.saturating_add(1), why)?;
    Ok(Fate::Left(why))
}
