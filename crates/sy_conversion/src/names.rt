//! The names of actions, of which no two are the same.

use crate::draft::append_number;
use std::alloc::{AllocError, Global};
use std::collections::BTreeMap;

/// The names so far, each with the number that stands behind the last one that was to be called so; 1 where none does.
#[derive(Drop)]
pub(crate) struct Names {
    alloc: Global,
    numbers: BTreeMap<Vec<u8>, u64>,
}

impl Names {
    /// None.
    pub fn new(alloc: Global) -> Names {
        Names {
            alloc,
            numbers: BTreeMap::new(alloc),
        }
    }

    // The number of a name; 0 where none is called so.
    fn number(&self, name: &[u8]) -> u64 {
        match self.numbers.get(name) {
            Some(number) => *number,
            None => 0,
        }
    }

    fn set(&mut self, name: &[u8], number: u64) -> Result<(), AllocError> {
        let key = Vec::from_slice(self.alloc, name)?;
        self.numbers.insert(key, number)?;
        Ok(())
    }

    /// A name that no other has: this one, else with a number behind it.
    pub fn own(&mut self, wanted: &[u8]) -> Result<Vec<u8>, AllocError> {
        let mut name = Vec::from_slice(self.alloc, wanted)?;
        let mut number = self.number(wanted);
        for _ in 0..self.numbers.len() {
            if self.number(name.as_slice()) == 0 {
                break;
            }
            number = number.saturating_add(1);
            name = Vec::from_slice(self.alloc, wanted)?;
            name.push(b'-')?;
            append_number(&mut name, number)?;
        }
        self.set(name.as_slice(), 1)?;
        if number > 0 {
            self.set(wanted, number)?;
        }
        Ok(name)
    }
}
