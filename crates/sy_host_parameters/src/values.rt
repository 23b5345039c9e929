//! What the value of a parameter for the host says.

ghost use Rattle.std.specs.Prelude.{◌≡◌};
ghost use Rattle.std.specs.List.{list_any};
ghost use Rattle.sy_host_parameters.specs.HostParameters as spec;
ghost use Rattle.sy_host_parameters.specs.internal.Views as view;

use crate::rows::Values;
use sy_wire::numbers::number_up_to;

// 1 of the first word, 0 of the second, and nothing of any other.
fn either(value: &[u8], first: &[u8], second: &[u8]) -> Option<u64>
    ensures { result ≡ spec.either first.now second.now value.now }
{
    if value == first {
        return Some(1);
    }
    if value == second {
        return Some(0);
    }
    None
}

fn number_within(value: &[u8], lowest: u64, highest: u64) -> Option<u64>
    ensures { result ≡ spec.number_within lowest highest value.now }
{
    match number_up_to(value, highest) {
        Some(number) if lowest <= number => Some(number),
        _ => None,
    }
}

fn is_octal(digit: u8) -> bool
    ensures { result ≡ spec.is_octal digit }
{
    b'0' <= digit && digit <= b'7'
}

// The mode that four octal digits write, of which the first is 0.
fn mode_of(value: &[u8]) -> Option<u64>
    ensures { result ≡ spec.mode_of value.now }
{
    match value {
        [b'0', owner, group, others] if is_octal(*owner) && is_octal(*group) && is_octal(*others) =>
            {
                let (owner, group, others) = (*owner - b'0', *group - b'0', *others - b'0');
                Some(u64::from(owner) * 64 + u64::from(group) * 8 + u64::from(others))
            }
        _ => None,
    }
}

// Whether a byte can't stand in the name of an account: a blank, a control character, or a colon, which ends a field of the
// tables of accounts.
fn ends_name(byte: u8) -> bool
    ensures { result ≡ spec.ends_name byte }
{
    byte <= 32 || byte == b':'
}

// Whether a value has a byte that can't stand in one.
fn has_end(value: &[u8]) -> bool
    ensures { result ≡ list_any spec.ends_name value.now }
{
    value.iter().any(|byte| ends_name(*byte))
}

/// Whether a value can be the name of an account.
pub fn is_name(value: &[u8]) -> bool
    ensures { result ≡ spec.is_name value.now }
{
    if value.len() < 1 {
        return false;
    }
    !has_end(value)
}

// Nothing but that it can be a name.
fn name_of(value: &[u8]) -> Option<u64>
    ensures { result ≡ spec.name_of value.now }
{
    if is_name(value) { Some(0) } else { None }
}

/// The number that a value says, where a parameter that takes such values has it: 1 of `on` and `any`, 0 of `off` and `regular`,
/// and of names.
pub fn value_of(values: Values, value: &[u8]) -> Option<u64>
    ensures { result ≡ spec.value_of (view.values_of values) value.now }
{
    match values {
        Values::Switch => either(value, b"on", b"off"),
        Values::Number(lowest, highest) => number_within(value, lowest, highest),
        Values::Mode => mode_of(value),
        Values::Kind => either(value, b"any", b"regular"),
        Values::Name => name_of(value),
    }
}
