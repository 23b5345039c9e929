//! The table of the parameters that each kind of object takes.

ghost use Rattle.std.specs.Prelude.{◌≡◌, map};
ghost use Rattle.sy_rules.specs.parameters.Rows as spec;
ghost use Rattle.sy_rules.specs.parameters.RowViews as view;

use crate::parameters::kind::Kind;

/// Which values a parameter takes.
#[derive(Clone, Copy)]
pub enum Shape {
    /// 1 to 10 decimal digits: a number from the lowest to the highest.
    Number(u64, u64),
    /// The same, or `-1`.
    NumberOrMinusOne(u64, u64),
    /// One of these words, exactly as they are.
    OneOf(&'static [&'static [u8]]),
    AnyText,
}

/// What holds where a parameter is not given.
#[derive(Clone, Copy)]
pub enum Absent {
    /// It must be given.
    Required,
    Nothing,
    Word(&'static [u8]),
    Amount(u64),
    /// So many hundredths of the queue's size, rounded down.
    Hundredths(u8),
}

/// A parameter, by the name that the manual gives it.
#[derive(Clone, Copy)]
pub struct Row {
    pub name: &'static [u8],
    pub shape: Shape,
    pub absent: Absent,
}

/// The greatest number of seconds, milliseconds and retries.
const MOST: u64 = 2_147_483_647;

/// A port of TCP.
const PORT: Shape = Shape::Number(1, 65_535);

static MODULE: [Row; 1] = [Row {
    name: b"load",
    shape: Shape::OneOf(&[b"imtcp", b"builtin:omfile", b"builtin:omfwd"]),
    absent: Absent::Required,
}];

static GLOBAL: [Row; 1] = [Row {
    name: b"workDirectory",
    shape: Shape::AnyText,
    absent: Absent::Nothing,
}];

static INPUT: [Row; 6] = [
    Row {
        name: b"type",
        shape: Shape::OneOf(&[b"imtcp"]),
        absent: Absent::Required,
    },
    Row {
        name: b"port",
        shape: PORT,
        absent: Absent::Required,
    },
    Row {
        name: b"flowControl",
        shape: Shape::OneOf(&[b"on", b"off", b"full"]),
        absent: Absent::Word(b"on"),
    },
    Row {
        name: b"ruleset",
        shape: Shape::AnyText,
        absent: Absent::Nothing,
    },
    Row {
        name: b"name",
        shape: Shape::AnyText,
        absent: Absent::Nothing,
    },
    Row {
        name: b"unreadFile",
        shape: Shape::AnyText,
        absent: Absent::Nothing,
    },
];

static RULESET: [Row; 1] = [Row {
    name: b"name",
    shape: Shape::AnyText,
    absent: Absent::Required,
}];

static ACTION: [Row; 4] = [
    Row {
        name: b"type",
        shape: Shape::OneOf(&[b"omfile", b"omfwd"]),
        absent: Absent::Required,
    },
    Row {
        name: b"name",
        shape: Shape::AnyText,
        absent: Absent::Nothing,
    },
    Row {
        name: b"action.resumeRetryCount",
        shape: Shape::NumberOrMinusOne(0, MOST),
        absent: Absent::Amount(0),
    },
    Row {
        name: b"action.resumeInterval",
        shape: Shape::Number(0, MOST),
        absent: Absent::Amount(30),
    },
];

static OMFILE: [Row; 1] = [Row {
    name: b"file",
    shape: Shape::AnyText,
    absent: Absent::Required,
}];

static OMFWD: [Row; 4] = [
    Row {
        name: b"target",
        shape: Shape::AnyText,
        absent: Absent::Required,
    },
    Row {
        name: b"port",
        shape: PORT,
        absent: Absent::Amount(514),
    },
    Row {
        name: b"protocol",
        shape: Shape::OneOf(&[b"tcp"]),
        absent: Absent::Required,
    },
    Row {
        name: b"TCP_Framing",
        shape: Shape::OneOf(&[b"octet-counted"]),
        absent: Absent::Required,
    },
];

// Of an action whose type is no known one.
static EITHER: [Row; 5] = [
    Row {
        name: b"file",
        shape: Shape::AnyText,
        absent: Absent::Nothing,
    },
    Row {
        name: b"target",
        shape: Shape::AnyText,
        absent: Absent::Nothing,
    },
    Row {
        name: b"port",
        shape: PORT,
        absent: Absent::Nothing,
    },
    Row {
        name: b"protocol",
        shape: Shape::OneOf(&[b"tcp"]),
        absent: Absent::Nothing,
    },
    Row {
        name: b"TCP_Framing",
        shape: Shape::OneOf(&[b"octet-counted"]),
        absent: Absent::Nothing,
    },
];

/// How posts into the queue of a ruleset or an action wait. (This profile's own.)
const WORKER_FLOW: Row = Row {
    name: b"queue.workerFlow",
    shape: Shape::OneOf(&[b"full", b"off"]),
    absent: Absent::Word(b"off"),
};

static ACTION_QUEUE: [Row; 4] = [
    Row {
        name: b"queue.type",
        shape: Shape::OneOf(&[b"Direct", b"FixedArray", b"LinkedList"]),
        absent: Absent::Word(b"Direct"),
    },
    Row {
        name: b"queue.size",
        shape: Shape::Number(1, 1_000_000),
        absent: Absent::Amount(1_000),
    },
    Row {
        name: b"queue.dequeueBatchSize",
        shape: Shape::Number(1, 65_536),
        absent: Absent::Amount(128),
    },
    WORKER_FLOW,
];

static RULESET_QUEUE: [Row; 4] = [
    Row {
        name: b"queue.type",
        shape: Shape::OneOf(&[b"FixedArray", b"LinkedList"]),
        absent: Absent::Nothing,
    },
    Row {
        name: b"queue.size",
        shape: Shape::Number(1, 1_000_000),
        absent: Absent::Amount(50_000),
    },
    Row {
        name: b"queue.dequeueBatchSize",
        shape: Shape::Number(1, 65_536),
        absent: Absent::Amount(1_024),
    },
    WORKER_FLOW,
];

static MAIN_QUEUE: [Row; 3] = [
    Row {
        name: b"queue.type",
        shape: Shape::OneOf(&[b"FixedArray", b"LinkedList"]),
        absent: Absent::Word(b"LinkedList"),
    },
    Row {
        name: b"queue.size",
        shape: Shape::Number(1, 1_000_000),
        absent: Absent::Amount(50_000),
    },
    Row {
        name: b"queue.dequeueBatchSize",
        shape: Shape::Number(1, 65_536),
        absent: Absent::Amount(1_024),
    },
];

// What every queue takes the same.
static QUEUE: [Row; 13] = [
    Row {
        name: b"queue.fullDelayMark",
        shape: Shape::Number(0, 1_000_000),
        absent: Absent::Hundredths(97),
    },
    Row {
        name: b"queue.lightDelayMark",
        shape: Shape::Number(0, 1_000_000),
        absent: Absent::Hundredths(70),
    },
    Row {
        name: b"queue.discardMark",
        shape: Shape::Number(0, 1_000_000),
        absent: Absent::Hundredths(80),
    },
    Row {
        name: b"queue.discardSeverity",
        shape: Shape::Number(0, 8),
        absent: Absent::Amount(8),
    },
    Row {
        name: b"queue.timeoutEnqueue",
        shape: Shape::Number(0, MOST),
        absent: Absent::Amount(2_000),
    },
    Row {
        name: b"queue.workerThreads",
        shape: Shape::Number(1, 64),
        absent: Absent::Amount(1),
    },
    Row {
        name: b"queue.highWatermark",
        shape: Shape::Number(0, MOST),
        absent: Absent::Nothing,
    },
    Row {
        name: b"queue.lowWatermark",
        shape: Shape::Number(0, MOST),
        absent: Absent::Nothing,
    },
    Row {
        name: b"queue.workerThreadMinimumMessages",
        shape: Shape::Number(0, MOST),
        absent: Absent::Nothing,
    },
    Row {
        name: b"queue.timeoutShutdown",
        shape: Shape::Number(0, MOST),
        absent: Absent::Nothing,
    },
    Row {
        name: b"queue.timeoutActionCompletion",
        shape: Shape::Number(0, MOST),
        absent: Absent::Nothing,
    },
    Row {
        name: b"queue.timeoutWorkerThreadShutdown",
        shape: Shape::Number(0, MOST),
        absent: Absent::Nothing,
    },
    Row {
        name: b"queue.saveOnShutdown",
        shape: Shape::OneOf(&[b"on", b"off"]),
        absent: Absent::Nothing,
    },
];

/// The parameters of a kind's own.
#[tactic(auto, unfolding(crate::specs::parameters::Rows::own_rows))]
pub fn own_rows(kind: Kind) -> &'static [Row]
    ensures { map view.row_of result.now ≡ spec.own_rows kind }
{
    match kind {
        Kind::Module => &MODULE,
        Kind::Global => &GLOBAL,
        Kind::MainQueue => &[],
        Kind::Input => &INPUT,
        Kind::Ruleset => &RULESET,
        Kind::Action | Kind::Archive | Kind::Forward => &ACTION,
    }
}

/// Those of the module that an action's type names.
#[tactic(auto, unfolding(crate::specs::parameters::Rows::destination_rows))]
pub fn destination_rows(kind: Kind) -> &'static [Row]
    ensures { map view.row_of result.now ≡ spec.destination_rows kind }
{
    match kind {
        Kind::Archive => &OMFILE,
        Kind::Forward => &OMFWD,
        Kind::Action => &EITHER,
        _ => &[],
    }
}

/// The type, the size and the batch of its queue, and how posts into it wait.
#[tactic(auto, unfolding(crate::specs::parameters::Rows::queue_head_rows))]
pub fn queue_head_rows(kind: Kind) -> &'static [Row]
    ensures { map view.row_of result.now ≡ spec.queue_head_rows kind }
{
    match kind {
        Kind::MainQueue => &MAIN_QUEUE,
        Kind::Ruleset => &RULESET_QUEUE,
        Kind::Action | Kind::Archive | Kind::Forward => &ACTION_QUEUE,
        _ => &[],
    }
}

/// The rest of its queue's.
#[tactic(auto, unfolding(crate::specs::parameters::Rows::queue_rest_rows))]
pub fn queue_rest_rows(kind: Kind) -> &'static [Row]
    ensures { map view.row_of result.now ≡ spec.queue_rest_rows kind }
{
    match kind {
        Kind::Module | Kind::Global | Kind::Input => &[],
        _ => &QUEUE,
    }
}

/// The parameters that an object of a kind takes, as four tables: its own, those of the module that an action's type names, those that its
/// queue begins with, and the rest of its queue's. No name is in two of them.
pub fn parameter_rows(kind: Kind) -> [&'static [Row]; 4]
    ensures { view.joined result ≡ spec.rows kind }
{
    [
        own_rows(kind),
        destination_rows(kind),
        queue_head_rows(kind),
        queue_rest_rows(kind),
    ]
}
