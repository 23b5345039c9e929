//! The values of parameters.

ghost use Rattle.std.specs.Prelude.{◌≡◌, ◌≤◌, length, map};
ghost use Rattle.std.specs.List.{list_any};
ghost use Rattle.std.specs.Option.{option_copied};
ghost use Rattle.std.specs.Str.{bytes_eq};
ghost use Rattle.sy_rules.specs.parameters.Values as spec;
ghost use Rattle.sy_rules.specs.parameters.RowViews as view;

use crate::parameters::by_name::same_name;
use crate::parameters::rows::Shape;
use sy_script::tree::Param;
use sy_wire::numbers::number_up_to;

/// The most digits of a number.
const MOST_DIGITS: usize = 10;

/// The largest number of so many digits.
const LARGEST: u64 = 9_999_999_999;

/// The number that 1 to 10 decimal digits write, where the value is that.
#[tactic(auto, unfolding(crate::specs::parameters::Values::decimal_value))]
pub fn decimal_value(value: &[u8]) -> Option<u64>
    ensures { result ≡ spec.decimal_value value.now }
{
    if value.len() > MOST_DIGITS {
        return None;
    }
    number_up_to(value, LARGEST)
}

fn is_minus_one(value: &[u8]) -> bool
    ensures { result ≡ spec.is_minus_one value.now }
{
    value == b"-1".as_slice()
}

/// Whether a value is one of the words.
pub fn is_one_of(value: &[u8], mut words: &[&[u8]]) -> bool
    ensures { result ≡ list_any (bytes_eq value.now) (map (λ w. w.now) words.entry.now) }
{
    while let [word, rest @ ..] = words {
        if value == *word {
            return true;
        }
        words = rest;
    }
    false
}

/// Whether a value has the shape.
#[tactic(auto, unfolding(crate::specs::parameters::Values::has_shape))]
pub fn has_shape(shape: Shape, value: &[u8]) -> bool
    ensures { result ≡ spec.has_shape (view.shape_of shape) value.now }
{
    match shape {
        Shape::Number(_, _) => decimal_value(value).is_some(),
        Shape::NumberOrMinusOne(_, _) => is_minus_one(value) || decimal_value(value).is_some(),
        Shape::OneOf(words) => is_one_of(value, words),
        Shape::AnyText => true,
    }
}

fn is_within(lowest: u64, highest: u64, number: Option<u64>) -> bool
    ensures { result ≡ spec.is_within lowest highest number }
{
    match number {
        Some(number) => lowest <= number && number <= highest,
        None => false,
    }
}

/// Whether a value that has the shape is in its range.
#[tactic(auto, unfolding(crate::specs::parameters::Values::is_in_range))]
pub fn is_in_range(shape: Shape, value: &[u8]) -> bool
    ensures { result ≡ spec.is_in_range (view.shape_of shape) value.now }
{
    match shape {
        Shape::Number(lowest, highest) => is_within(lowest, highest, decimal_value(value)),
        Shape::NumberOrMinusOne(lowest, highest) => {
            is_minus_one(value) || is_within(lowest, highest, decimal_value(value))
        }
        Shape::OneOf(_) | Shape::AnyText => true,
    }
}

/// The value that the parameters give a name, the first where there are several.
pub fn given<'p>(name: &[u8], params: &'p [Param]) -> Option<&'p [u8]>
    ensures { option_copied result ≡ spec.given name.now params.now }
{
    let mut rest = params;
    while let [param, after @ ..] = rest {
        if same_name(name, param.name.text.as_slice()) {
            return Some(param.value.bytes.as_slice());
        }
        rest = after;
    }
    None
}

pub fn is_given(name: &[u8], params: &[Param]) -> bool
    ensures { result ≡ spec.is_given name.now params.now }
{
    given(name, params).is_some()
}
