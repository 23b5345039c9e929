//! Sets of names.

ghost use Rattle.std.specs.Prelude.{◌≡◌, ◌||◌, [], List, ℕ, OnOk};
ghost use Rattle.std.specs.Str.{bytes_eq};
ghost use Rattle.sy_rules.specs.check.ScriptFaults.{is_among};

use std::alloc::{AllocError, Global};
use std::collections::BTreeSet;
use std::marker::Model;

/// A set of names. Whether it has one costs as much however the names are chosen: no more comparisons than its size has bits.
#[derive(Drop)]
pub struct Names<'s> {
    names: BTreeSet<&'s [u8]>,
}

impl<'s> Model for Names<'s> {
    ghost use Rattle.std.specs.Prelude.{List, ℕ, map};
    ghost use Rattle.std.specs.Coded.{coded_list, coded_ℕ};

    ghost Value = { List (List ℕ) };

    ghost coded = { coded_list (coded_list coded_ℕ) };

    ghost view = { λ n. map (λ k. k.now) n.names.keys };
}

impl<'s> Names<'s> {
    /// No names.
    pub fn new(alloc: Global) -> Names<'s>
        ensures { result ≡ [] }
    {
        Names {
            names: BTreeSet::new(alloc),
        }
    }

    /// Adds a name.
    pub fn insert(&mut self, name: &'s [u8]) -> Result<(), AllocError>
        ensures { OnOk result ((other : List ℕ) → is_among other self.new
            ≡ (is_among other self.old || bytes_eq other name.now)) }
    {
        self.names.insert(name)?;
        Ok(())
    }

    /// Whether it has the name.
    pub fn has(&self, name: &[u8]) -> bool
        ensures { result ≡ is_among name.now self.now }
    {
        self.names.contains(name)
    }
}
