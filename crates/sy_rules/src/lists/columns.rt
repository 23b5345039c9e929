//! Classes of which all tests of a plan say the same.

ghost use Rattle.std.specs.Prelude.{◌≡◌, ◌≢◌, ◌≤◌, true, length, IfOk};
ghost use Rattle.sy_select.specs.Properties.{known};
ghost use Rattle.sy_select.specs.internal.Walk as walk;
ghost use Rattle.sy_rules.specs.internal.ClassFlows.{AreAlike, AreColumns, HasAlike};

use crate::lists::condition::Condition;
use std::alloc::{AllocError, Global};
use sy_wire::Class;

// Of the generator of Knuth's MMIX.
const MULTIPLIER: u64 = 6_364_136_223_846_793_005;

/// The classes in columns: those of one column are alike to every test.
#[derive(Drop)]
pub struct Columns {
    /// of each class, by its number, its column
    pub of_class: [u8; 192],
    /// of each column one of its classes
    pub classes: Vec<Class>,
}

// A number of each class that is the same for classes of which all tests say the same, and likely another for others. So few
// are compared.
fn hashes(tests: &[Condition]) -> [u64; 192] {
    let mut hashes = [0; 192];
    let mut key = 1u64;
    for test in tests {
        key = key.wrapping_mul(MULTIPLIER).wrapping_add(1);
        test.add_to(&mut hashes, key);
    }
    hashes
}

// Whether a test says the same of two classes.
fn is_alike(test: &Condition, one: Class, other: Class) -> bool
    ensures { result ≡ true → walk.verdict (known one) test.now ≡ walk.verdict (known other) test.now }
{
    test.is_free() || test.verdict(one) == test.verdict(other)
}

// Whether every test does.
fn are_alike(tests: &[Condition], one: Class, other: Class) -> bool
    ensures { result ≡ true → AreAlike tests.now one other }
{
    for test in tests {
        if !is_alike(test, one, other) {
            return false;
        }
    }
    true
}

// The first column of a class that is like this one, or else how many columns there are.
fn column_of(tests: &[Condition], hashes: &[u64; 192], classes: &[Class], class: Class) -> usize
    ensures found { result ≢ length classes.now → HasAlike tests.now classes.now result class }
    ensures most { result ≤ length classes.now }
{
    let hash = hashes[usize::from(class.number())];
    let mut column = 0;
    while let Some(other) = classes.get(column) {
        if hashes[usize::from(other.number())] == hash && are_alike(tests, *other, class) {
            return column;
        }
        column += 1;
    }
    classes.len()
}

/// The columns of these tests.
pub fn columns_of(alloc: Global, tests: &[Condition]) -> Result<Columns, AllocError>
    ensures { IfOk result (λ columns. AreColumns tests.now columns) }
{
    let hashes = hashes(tests);
    let mut of_class = [0; 192];
    let mut classes = Vec::new(alloc);
    for number in 0..192 {
        let class = Class::of_number(number);
        let known = classes.as_slice();
        let column = column_of(tests, &hashes, known, class);
        let is_new = column == known.len();
        if is_new {
            classes.push(class)?;
        }
        of_class[usize::from(number)] = column as u8;
    }
    Ok(Columns { of_class, classes })
}
