//! What the checker may find in a site.

ghost use Rattle.std.specs.Prelude.{◌≡◌};
ghost use Rattle.sy_site.specs.Finding as spec;

use crate::site::{SiteAction, SiteInput};
use std::alloc::AllocError;
use sy_script::Items;
use sy_wire::Class;

/// What is found. Its number is that of `number`.
#[derive(Clone, Copy, PartialEq, Eq)]
pub enum Kind {
    /// The input doesn't wait at the full-delay mark.
    NotFull,
    /// Its queue has no full-delay mark.
    MarkOff,
    /// That mark is above the queue's size.
    MarkAboveSize,
    /// The queue may discard messages of the class.
    Discards,
    /// They may be put into another queue of the relay, by a post that isn't spare, which may lose them on the way.
    InnerQueue,
    /// An action that they may run, and that isn't spare, is given up at some time.
    GivesUp,
    /// A forward that they may run, and that isn't spare, leads to no input of the site.
    NoTarget,
    /// Going from relay to relay, one is met twice.
    Loop,
    /// Going from queue to queue of the relay, a list is met twice.
    InnerLoop,
    /// An entry doesn't lead to this archive, which is named for the class.
    Unmet(SiteAction),
}

impl Kind {
    // The number of the kind, and the same with its name.
    fn row(self) -> (u8, &'static str)
        ensures number { result.0 ≡ spec.number self }
        ensures words { result.1.now ≡ spec.words self }
    {
        match self {
            Kind::NotFull => (1, "1 NotFull"),
            Kind::MarkOff => (2, "2 MarkOff"),
            Kind::MarkAboveSize => (3, "3 MarkAboveSize"),
            Kind::Discards => (4, "4 Discards"),
            Kind::InnerQueue => (5, "5 InnerQueue"),
            Kind::GivesUp => (6, "6 GivesUp"),
            Kind::NoTarget => (7, "7 NoTarget"),
            Kind::Loop => (8, "8 Loop"),
            Kind::InnerLoop => (10, "10 InnerLoop"),
            Kind::Unmet(_) => (9, "9 Unmet"),
        }
    }

    /// The number of the kind: 1 for `NotFull` to 8 for `Loop`, 9 for `Unmet`, 10 for `InnerLoop`.
    pub fn number(self) -> u8
        ensures { result ≡ spec.number self }
    {
        self.row().0
    }

    /// The number and the name of the kind, as `1 NotFull`.
    pub fn words(self) -> &'static str
        ensures { result.now ≡ spec.words self }
    {
        self.row().1
    }
}

/// A part of a way: an occurrence of the list of an input.
#[derive(Clone, Copy, PartialEq, Eq)]
pub struct WayRow {
    pub input: SiteInput,
    pub number: u32,
}

/// What is found of a protected class at an input of a relay, and the way there.
#[derive(Drop)]
pub struct Finding {
    pub class: Class,
    pub input: SiteInput,
    /// The occurrences by which messages of the class come there from an entry, each a forward, or a post with a forward
    /// behind it; none where it is one. None of them is spare, but for a loop; that of a loop goes on from any reached
    /// input of the relay that the one before leads to, and for an archive there are none.
    pub way: Items<WayRow>,
    pub kind: Kind,
}

/// Why a site has no certificate.
#[derive(Drop)]
pub enum Refusal {
    /// Something is found in it.
    Finding(Finding),
    /// Memory ran out.
    NoMemory,
}

impl From<AllocError> for Refusal {
    ghost use Rattle.std.specs.Prelude.{◌≡◌};
    ghost use Rattle.sy_site.specs.declared.finding.Refusal.TheVariants as refusal;

    ghost from_gives = { λ _ e. e ≡ refusal.NoMemory };

    fn from(_: AllocError) -> Refusal {
        Refusal::NoMemory
    }
}
