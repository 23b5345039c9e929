//! What may be wrong with a script that is read, and is no plan.

ghost use Rattle.std.specs.Prelude.{◌≡◌, ◌⊎◌, Some};
ghost use Rattle.sy_rules.specs.Faults as spec;

use std::alloc::Global;
use std::error::Error;
use std::fmt;
use sy_script::Items;
use sy_script::tree::Span;
use sy_select::FaultText;

/// The faults of a plan. Their numbers are those of `number`.
#[derive(Clone, Copy, Debug, PartialEq, Eq)]
pub enum FaultCode {
    /// A name in a selector that is no facility's.
    Facility,
    /// A name in a selector that is no severity's.
    Severity,
    /// A selector that is wrong in another way.
    Shape,
    /// An operator that the property, or what it is compared with, doesn't have.
    Operator,
    /// A parameter that must be given, and isn't.
    Missing,
    /// A parameter, a name or the main queue given twice.
    Duplicate,
    /// A parameter, a ruleset or a property that isn't known.
    Unknown,
    /// A value that has not the shape of its parameter.
    BadValue,
    /// A number out of its range, or too many objects or workers.
    Range,
    /// Calls made at once more than 16 deep.
    CallDepth,
    /// A list of more than 64 occurrences or 65,536 statements.
    TooManyDeeds,
    /// Two inputs of one port.
    SamePort,
    /// An input whose module isn't loaded.
    NotLoaded,
    /// Memory ran out.
    NoMemory,
}

impl FaultCode {
    // The number of the fault, and the same with its name.
    fn row(self) -> (u8, &'static str)
        ensures number { result.0 ≡ spec.number self }
        ensures words { result.1.now ≡ spec.words self }
    {
        match self {
            FaultCode::Facility => (31, "31 Facility"),
            FaultCode::Severity => (32, "32 Severity"),
            FaultCode::Shape => (33, "33 Shape"),
            FaultCode::Operator => (34, "34 Operator"),
            FaultCode::Missing => (40, "40 Missing"),
            FaultCode::Duplicate => (41, "41 Duplicate"),
            FaultCode::Unknown => (42, "42 Unknown"),
            FaultCode::BadValue => (43, "43 BadValue"),
            FaultCode::Range => (44, "44 Range"),
            FaultCode::CallDepth => (45, "45 CallDepth"),
            FaultCode::TooManyDeeds => (46, "46 TooManyDeeds"),
            FaultCode::SamePort => (47, "47 SamePort"),
            FaultCode::NotLoaded => (48, "48 NotLoaded"),
            FaultCode::NoMemory => (49, "49 NoMemory"),
        }
    }

    /// The number of the fault: 31 to 34 of selectors and expressions, 40 for `Missing` to 49 for `NoMemory`.
    pub fn number(self) -> u8
        ensures { result ≡ spec.number self }
    {
        self.row().0
    }

    /// The number and the name of the fault, as `44 Range`.
    pub fn words(self) -> &'static str
        ensures { result.now ≡ spec.words self }
    {
        self.row().1
    }
}

impl fmt::Display for FaultCode {
    ghost output = { λ code. Some (spec.words code) };

    fn fmt<W: fmt::Write>(&self, f: &mut fmt::Formatter<W>) -> fmt::Result {
        let words = self.words();
        write!(f, "{words}")
    }
}

impl Error for FaultCode {}

/// The place of what stands nowhere in the text.
pub(crate) const NOWHERE: Span = Span { start: 0, end: 0 };

/// A fault with its word, and its place in the text of the script. The word is, of
///
/// - `Facility`, `Severity`, `Shape`, `Operator`: the name, the whole selector, the operator;
/// - `Missing`, `BadValue`, `Range`, and a parameter that is unknown or given twice: the parameter's name, as the script spells it
///   (a missing one as the manual spells it);
/// - any other `Duplicate` or `Unknown`: the name that is given twice, or isn't known;
/// - `Range` of too many objects or workers: the object's word, or `queue.workerThreads`;
/// - `CallDepth`, `TooManyDeeds`: the ruleset's name;
/// - `SamePort`: the port; `NotLoaded`: `imtcp`; `NoMemory`: nothing.
///
/// The place is, of
///
/// - a parameter that is unknown, given twice, of a bad value or out of range: that of its name;
/// - an expression: that of the property, the operator, or the string with its quotes (as `SelectFault` has it);
/// - a call: that of the name in it;
/// - all else that is said of an object, and a parameter that it misses: that of the object's word, as `input` or `ruleset`, and of the
///   later one where it is said of two;
/// - `CallDepth`, `TooManyDeeds`: that of the word `ruleset`; of the default ruleset, of too many workers and of `NoMemory` it is empty.
#[derive(Debug, Drop)]
pub struct PlanFault {
    pub code: FaultCode,
    pub word: Items<u8>,
    pub span: Span,
}

impl PlanFault {
    /// The fault where memory runs out.
    pub(crate) fn no_memory(alloc: Global) -> PlanFault
        ensures { result ≡ spec.no_memory }
    {
        PlanFault {
            code: FaultCode::NoMemory,
            word: Items::new(alloc),
            span: NOWHERE,
        }
    }

    /// A fault with a copy of its word, or the one of memory where the copy finds none.
    pub(crate) fn new(alloc: Global, code: FaultCode, word: &[u8], span: Span) -> PlanFault
        ensures { (result ≡ spec.no_memory) ⊎ (result ≡ spec.fault_at span code word.now) }
    {
        match Items::from_slice(alloc, word) {
            Ok(word) => PlanFault { code, word, span },
            Err(_) => PlanFault::no_memory(alloc),
        }
    }
}

/// As `44 Range: queue.size`, and `49 NoMemory` where there is no word. A word that is no text is escaped.
impl fmt::Display for PlanFault {
    ghost output = { spec.fault_text };

    fn fmt<W: fmt::Write>(&self, f: &mut fmt::Formatter<W>) -> fmt::Result {
        let text = FaultText {
            words: self.code.words(),
            word: self.word.as_slice(),
        };
        write!(f, "{text}")
    }
}

impl Error for PlanFault {}
