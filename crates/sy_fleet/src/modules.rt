//! The modules of rsyslogd: how their inputs wait, and what their outputs keep.
ghost use Rattle.std.specs.Prelude.{◌≡◌};
ghost use Rattle.sy_fleet.specs.Modules as spec;

use sy_fleet_text::words::same_word;

/// How a message waits as it goes into its first queue.
#[derive(Clone, Copy, PartialEq, Eq)]
pub enum Flow {
    /// Where the queue is full, for its `timeoutEnqueue`; then it is discarded.
    NoWait,
    /// The same, after a delay of at most a second above the light-delay mark.
    Light,
    /// Without end, at the full-delay mark.
    Full,
}

/// What an output keeps.
#[derive(Clone, Copy, PartialEq, Eq)]
pub enum Output {
    /// A file.
    File,
    /// A receiver, by a connection.
    Forward,
    /// A receiver, by datagrams: what is lost on the way is never known.
    Datagram,
    /// Nothing: it shows messages to users.
    Shown,
    /// Nothing: it changes messages.
    Changed,
    /// It isn't known.
    Unknown,
}

fn is_full(name: &[u8]) -> bool
    ensures { result ≡ spec.is_full name.now }
{
    same_word(b"imfile", name)
        || same_word(b"improg", name)
        || same_word(b"im3195", name)
        || same_word(b"imbatchreport", name)
}

fn is_light(name: &[u8]) -> bool
    ensures { result ≡ spec.is_light name.now }
{
    same_word(b"imtcp", name)
        || same_word(b"imptcp", name)
        || same_word(b"imrelp", name)
        || same_word(b"imjournal", name)
        || same_word(b"imklog", name)
        || same_word(b"imkmsg", name)
        || same_word(b"imkafka", name)
        || same_word(b"imdocker", name)
        || same_word(b"imhiredis", name)
        || same_word(b"imgssapi", name)
        || same_word(b"imhttp", name)
}

/// How the inputs of a module wait where nothing says otherwise. One that isn't known doesn't.
pub fn flow_of(name: &[u8]) -> Flow
    ensures { result ≡ spec.flow_of name.now }
{
    if is_full(name) {
        return Flow::Full;
    }
    if is_light(name) {
        return Flow::Light;
    }
    Flow::NoWait
}

fn changes(name: &[u8]) -> bool
    ensures { result ≡ spec.changes name.now }
{
    match name {
        [first, second, ..] => *first == b'm' && *second == b'm',
        _ => false,
    }
}

/// What an output of a module keeps, by connections where it forwards.
pub fn output_of(name: &[u8]) -> Output
    ensures { result ≡ spec.output_of name.now }
{
    if same_word(b"omfile", name) {
        return Output::File;
    }
    if same_word(b"omfwd", name) || same_word(b"omrelp", name) {
        return Output::Forward;
    }
    if same_word(b"omudpspoof", name) {
        return Output::Datagram;
    }
    if same_word(b"omusrmsg", name) {
        return Output::Shown;
    }
    if changes(name) {
        return Output::Changed;
    }
    Output::Unknown
}
