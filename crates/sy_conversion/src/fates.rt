//! What becomes of the statements of a configuration.
ghost use Rattle.std.specs.Prelude.{◌≡◌};
ghost use Rattle.sy_conversion.specs.Conversions as spec;

/// Why a statement is left out.
#[derive(Clone, Copy, PartialEq, Eq)]
pub enum Why {
    /// An input that isn't imtcp's or imptcp's.
    Input,
    /// An input or output that is encrypted.
    Secret,
    /// A test that a relay doesn't decide.
    Test,
    /// An output that a relay doesn't have.
    Output,
    /// A file whose name depends on the message.
    DynamicFile,
    /// Datagrams.
    Datagram,
    /// RELP.
    Relp,
    /// An action that isn't run for each message that comes to it.
    Conditional,
    /// What an input or an output needs isn't given.
    Unnamed,
    /// Messages that are longer than a relay takes.
    Size,
    /// Other files, which aren't read.
    Included,
    /// A parser of its own.
    Parser,
    /// A ruleset that isn't there, or is named by a message.
    Called,
    /// What is done for each of several things.
    Each,
    /// A value of the environment.
    Environment,
    /// It isn't known.
    Unknown,
    /// A module that is needed for nothing here.
    Module,
    /// A format.
    Template,
    /// Whose files they are.
    Owner,
    /// Users to whom messages are shown.
    Users,
    /// What changes messages, and variables.
    Variables,
    /// A setting of the daemon.
    Setting,
    /// Parameters of queues in directives.
    Queue,
}

impl Why {
    /// Whether something may be lost that rsyslogd takes or keeps.
    pub fn is_loss(self) -> bool
        ensures { result ≡ spec.is_loss self }
    {
        match self {
            Why::Module | Why::Template | Why::Owner | Why::Users | Why::Variables | Why::Setting =>
                false,
            Why::Input
            | Why::Secret
            | Why::Test
            | Why::Output
            | Why::DynamicFile
            | Why::Datagram
            | Why::Relp
            | Why::Conditional
            | Why::Unnamed
            | Why::Size
            | Why::Included
            | Why::Parser
            | Why::Called
            | Why::Each
            | Why::Environment
            | Why::Unknown
            | Why::Queue => true,
        }
    }

    /// What is lost by it, in words.
    pub fn words(self) -> &'static [u8] {
        match self {
            Why::Input =>
                b"what comes in there doesn't come to the relay: keep an rsyslogd for it, which forwards",
            Why::Secret =>
                b"it is encrypted, and a relay speaks in the clear: put a program such as stunnel before it",
            Why::Test => b"a relay doesn't decide this test, so nothing under it is done",
            Why::Output =>
                b"what goes there isn't stored: write a file, or forward by omfwd over TCP",
            Why::DynamicFile =>
                b"its messages aren't stored: write one file, or one ruleset and file for each port",
            Why::Datagram =>
                b"its messages aren't forwarded: datagrams are lost unseen, so forward over TCP",
            Why::Relp =>
                b"its messages aren't forwarded: use omfwd over TCP with octet-counted frames",
            Why::Conditional =>
                b"its messages aren't stored: a relay runs an action for each message that comes to it",
            Why::Unnamed =>
                b"it doesn't say where: a file, a target or the number of a port is missing",
            Why::Size => b"messages of more than 64 KiB aren't taken",
            Why::Included => b"what it includes isn't read: give --root",
            Why::Parser => b"messages are read as RFC 5424 has them, and by no other parser",
            Why::Called =>
                b"nothing of that ruleset is done: it isn't there, or a message names it",
            Why::Each => b"nothing in it is done: a relay has no loops",
            Why::Environment => b"a value of it is in the environment, which isn't read",
            Why::Unknown => b"it isn't known",
            Why::Module => b"not needed",
            Why::Template => b"each message is written whole, as it came",
            Why::Owner => b"files are those of the user that the relay runs as",
            Why::Users => b"users aren't shown messages",
            Why::Variables => b"messages stay as they came, and have no variables",
            Why::Setting => b"no effect on what is kept",
            Why::Queue => b"queues are in memory, and hold up who sends where they are full",
        }
    }
}

/// What became of some statements.
#[derive(Clone, Copy, PartialEq, Eq)]
pub enum Fate {
    /// Blanks and comments.
    Layout,
    /// They are carried over.
    Carried,
    /// They are, but for some parameters.
    Partly,
    /// They stand in comments.
    Left(Why),
}

/// Statements, by their numbers from `first` up to `end`, and what became of them.
#[derive(Clone, Copy)]
pub struct Told {
    pub first: usize,
    pub end: usize,
    pub fate: Fate,
}

/// What became of a statement, and of how many more behind it.
#[derive(Clone, Copy)]
pub(crate) struct Step {
    pub more: usize,
    pub fate: Fate,
}

impl Step {
    /// Of one statement alone.
    pub fn one(fate: Fate) -> Step
        ensures more { result.more ≡ 0 }
        ensures fate { result.fate ≡ fate }
    {
        Step { more: 0, fate }
    }
}
