//! The numbers of users and groups, by the tables of the host.

ghost use Rattle.std.specs.Prelude.{◌≡◌, slice_get};
ghost use Rattle.std.specs.List.{find};
ghost use Rattle.std.specs.Option.{option_map};
ghost use Rattle.sy_host_parameters.specs.Accounts as spec;

use crate::rows::MOST_ID;
use sy_wire::numbers::number_up_to;

// The field of a line of this number, from 0 on.
fn field(line: &[u8], number: usize) -> Option<&[u8]>
    ensures { option_map (λ field. field.now) result ≡ slice_get (spec.fields line.now) number }
{
    line.split(|byte| *byte == b':').nth(number)
}

// Whether a line is the account of that name.
fn is_of(line: &[u8], name: &[u8]) -> bool
    ensures { result ≡ spec.is_of name.now line.now }
{
    match field(line, 0) {
        Some(first) => first == name,
        None => false,
    }
}

// The first line that is the account of that name.
fn line_of<'a>(table: &'a [u8], name: &[u8]) -> Option<&'a [u8]>
    ensures { option_map (λ line. line.now) result ≡ find (spec.is_of name.now) (spec.lines_of table.now) }
{
    table
        .split(|byte| *byte == b'\n')
        .find(|line| is_of(line, name))
}

/// The number of the account of a name in a table, which is that of users or that of groups (passwd(5), group(5)); none where the table
/// has no such account, or one whose number isn't that of an account.
pub fn account_number(table: &[u8], name: &[u8]) -> Option<u64>
    ensures { result ≡ spec.account_number table.now name.now }
{
    let line = line_of(table, name)?;
    let number = field(line, 2)?;
    number_up_to(number, MOST_ID)
}
