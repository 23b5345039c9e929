//! What may be wrong with a site file.

ghost use Rattle.std.specs.Prelude.{◌≡◌};
ghost use Rattle.sy_site.specs.texts.Faults as spec;

use sy_rules::PlanFault;
use sy_script::{Items, ScriptFault};

/// Why the file of a relay is no plan.
#[derive(Debug, Drop)]
pub enum RelayFault {
    /// It is no script.
    Script(ScriptFault),
    /// It is a script without a plan.
    Plan(PlanFault),
}

/// The faults of a site file and its relays' files, with the line of the site file, counted from 1. Their numbers
/// are those of `number`.
#[derive(Debug, Drop)]
pub enum SiteFault {
    /// A line of no shape, one more than the most of its kind, one with a relay that isn't there, a policy line behind
    /// another line, or a spare line in a text that doesn't begin with `policy 2`. A text that is too long is one in
    /// line 1.
    Line(usize),
    /// A relay's name, or an entry, protect or spare line, given a second time.
    Duplicate(usize),
    /// A relay line whose file isn't given.
    NoFile(usize),
    /// An entry line whose relay has no input of that port.
    NoSuchEntry(usize),
    /// A protect line whose relay has no omfile action of that name.
    NoSuchArchive(usize),
    /// No entry, or no class that is protected. Its line is 1.
    NothingProtected,
    /// A relay line whose file is no plan: the relay's name, and what is wrong with the file.
    Relay(usize, Items<u8>, RelayFault),
    /// Memory ran out.
    NoMemory,
    /// A spare line whose relay has no action of that name.
    NoSuchAction(usize),
    /// A spare line whose action a protect line names.
    SpareArchive(usize),
}

impl SiteFault {
    // The number of the fault, and the same with its name.
    fn row(&self) -> (u8, &'static str)
        ensures number { result.0 ≡ spec.number self.now }
        ensures words { result.1.now ≡ spec.words self.now }
    {
        match self {
            SiteFault::Line(_) => (51, "51 Line"),
            SiteFault::Duplicate(_) => (52, "52 Duplicate"),
            SiteFault::NoFile(_) => (53, "53 NoFile"),
            SiteFault::NoSuchEntry(_) => (54, "54 NoSuchEntry"),
            SiteFault::NoSuchArchive(_) => (55, "55 NoSuchArchive"),
            SiteFault::NothingProtected => (56, "56 NothingProtected"),
            SiteFault::Relay(_, _, _) => (57, "57 Relay"),
            SiteFault::NoMemory => (58, "58 NoMemory"),
            SiteFault::NoSuchAction(_) => (59, "59 NoSuchAction"),
            SiteFault::SpareArchive(_) => (60, "60 SpareArchive"),
        }
    }

    /// The number of the fault: 51 for `Line` to 60 for `SpareArchive`.
    pub fn number(&self) -> u8
        ensures { result ≡ spec.number self.now }
    {
        self.row().0
    }

    /// The number and the name of the fault, as `51 Line`.
    pub fn words(&self) -> &'static str
        ensures { result.now ≡ spec.words self.now }
    {
        self.row().1
    }
}
