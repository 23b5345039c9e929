//! Classes by their names, and those that a drawing is of.
ghost use Rattle.std.specs.Prelude.{◌≡◌, Decides, IfNone, IfOk, IfSome};
ghost use Rattle.sy_drawing.specs.Graphs.{IsNoClass};
ghost use Rattle.sy_report.specs.Texts.{class_text};

use std::alloc::{AllocError, Global};
use sy_report::texts::parts::{Part, append_parts};
use sy_wire::Class;

/// How many classes there are.
const CLASSES: u8 = 192;

// The name of a class.
fn name_of(alloc: Global, class: Class) -> Result<Vec<u8>, AllocError>
    ensures { IfOk result (λ name. name.items ≡ class_text class) }
{
    let mut name = Vec::new(alloc);
    append_parts(&mut name, &[Part::Class(class)])?;
    Ok(name)
}

// Whether this is the name of a class.
fn is_name_of(alloc: Global, name: &str, class: Class) -> Result<bool, AllocError>
    ensures { IfOk result (λ is. Decides is (class_text class ≡ name.now)) }
{
    let known = name_of(alloc, class)?;
    Ok(known.as_slice() == name.as_bytes())
}

/// The class of this name.
pub fn class_named(alloc: Global, name: &str) -> Result<Option<Class>, AllocError>
    ensures some { IfOk result (λ found. IfSome found (λ class. class_text class ≡ name.now)) }
    ensures none { IfOk result (λ found. IfNone found (IsNoClass name.now)) }
{
    for number in 0..CLASSES {
        let class = Class::of_number(number);
        if is_name_of(alloc, name, class)? {
            return Ok(Some(class));
        }
    }
    Ok(None)
}

/// A class by itself, where there is one.
pub fn one_of(alloc: Global, class: Option<Class>) -> Result<Vec<Class>, AllocError> {
    let mut classes = Vec::new(alloc);
    if let Some(class) = class {
        classes.push(class)?;
    }
    Ok(classes)
}
