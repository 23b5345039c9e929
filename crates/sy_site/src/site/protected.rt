//! Whether a site protects anything.

ghost use Rattle.std.specs.Prelude.{◌≡◌, All, true, false};
ghost use Rattle.std.specs.List.{list_any};
ghost use Rattle.sy_select.specs.Selectors.{holds};
ghost use Rattle.sy_site.specs.Sites.{asks_for};
ghost use Rattle.sy_site.specs.texts.HasFault.{IsEmpty};
ghost use Rattle.sy_wire.specs.declared.class.Class.{Class as Pair};

use super::Protection;
use sy_select::Selector;
use sy_wire::Class;

/// How many classes there are.
const CLASSES: u8 = 192;

// Whether a selector has a class.
fn has_class(selector: &Selector) -> bool
    ensures yes { result ≡ true → (class : Pair) × (holds selector.now class.facility class.severity ≡ true) }
    ensures no { result ≡ false → IsEmpty selector.now }
{
    for number in 0..CLASSES {
        if selector.matches(Class::of_number(number)) {
            return true;
        }
    }
    false
}

/// Whether a class is protected.
pub fn protects(protections: &[Protection]) -> bool
    ensures yes { result ≡ true → (class : Pair) × (list_any (λ p. asks_for p class) protections.now ≡ true) }
    ensures no { result ≡ false → All (λ p. IsEmpty p.selector) protections.now }
{
    for protection in protections {
        if has_class(&protection.selector) {
            return true;
        }
    }
    false
}
