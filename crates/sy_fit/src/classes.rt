//! The protected classes of a site.

ghost use Rattle.std.specs.Prelude.{◌≡◌, ◌<◌, ◌+◌, IfOk, OnOk};
ghost use Rattle.sy_site.specs.Sites as sites;
ghost use Rattle.sy_fit.specs.Fit.{AreProtected};
ghost use Rattle.sy_fit.specs.internal.Order.{AreProtectedBelow};

use std::alloc::{AllocError, Global};
use sy_site::Site;
use sy_wire::Class;

/// How many classes there are.
const CLASSES: u8 = 192;

/// Whether some protect line asks for a class.
pub fn is_protected(site: &Site, class: Class) -> bool
    ensures { result ≡ sites.is_protected site.now class }
{
    site.protections().iter().any(|p| p.selector.matches(class))
}

// Puts the class of a number behind the others, where it is protected.
fn push_class(site: &Site, number: u8, found: &mut Vec<Class>) -> Result<(), AllocError>
    requires small { number < 192 }
    ensures { OnOk result (AreProtectedBelow site.now number found.old.items
        → AreProtectedBelow site.now (number + 1) found.new.items) }
{
    let class = Class::of_number(number);
    if is_protected(site, class) {
        found.push(class)?;
    }
    Ok(())
}

/// The protected classes, by rising number.
pub fn protected_classes(alloc: Global, site: &Site) -> Result<Vec<Class>, AllocError>
    ensures { IfOk result (λ found. AreProtected site.now found.items) }
{
    let mut found = Vec::new(alloc);
    for number in 0..CLASSES {
        push_class(site, number, &mut found)?;
    }
    Ok(found)
}
