//! Classes in documents.

use crate::objects::Elements;
use std::alloc::{AllocError, Global};
use sy_report::texts::parts::{Part, append_parts};
use sy_wire::Class;

/// Classes by their names.
pub fn class_names(alloc: Global, classes: &[Class]) -> Result<Elements, AllocError> {
    let mut names = Elements::new(alloc);
    for class in classes {
        let mut name = Vec::new(alloc);
        append_parts(&mut name, &[Part::Class(*class)])?;
        names.text(name.as_slice());
    }
    Ok(names)
}
