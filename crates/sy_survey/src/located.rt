//! Lines and columns of places, counted on from one to the next.

use crate::whole::{Place, Whole};
use sy_fleet_text::scan::part;

/// A place of a file, with its line and column from 1. With line 0 it is none yet.
#[derive(Clone, Copy)]
pub(crate) struct Located {
    pub source: usize,
    at: usize,
    pub line: u64,
    pub column: u64,
}

impl Located {
    /// No place yet, in a file.
    pub fn none(source: usize) -> Located {
        Located {
            source,
            at: 0,
            line: 0,
            column: 0,
        }
    }

    /// Another place: counted on from this one where it comes behind it in the same file.
    pub fn go_on(self, whole: &Whole, place: Place) -> Located {
        let is_behind = self.line > 0 && self.source == place.source && self.at <= place.at;
        let start = if is_behind { self.at } else { 0 };
        let mut line = if is_behind { self.line } else { 1 };
        let mut column = if is_behind { self.column } else { 1 };
        for byte in part(whole.source(place.source).1, start, place.at) {
            if *byte == b'\n' {
                line = line.saturating_add(1);
                column = 1;
            } else {
                column = column.saturating_add(1);
            }
        }
        Located {
            source: place.source,
            at: place.at,
            line,
            column,
        }
    }
}
