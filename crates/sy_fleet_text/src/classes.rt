//! Classes of bytes.

ghost use Rattle.std.specs.Prelude.{◌≡◌};
ghost use Rattle.sy_fleet_text.specs.Classes as spec;

/// A class of bytes, such as may follow one another in a piece.
#[derive(Clone, Copy)]
pub(crate) enum Class {
    /// Space, tab, line feed, form feed, carriage return.
    Blank,
    /// All but the line feed.
    Line,
    /// Letters, digits, `_`.
    Word,
    /// Those, and `.` `-` `$`.
    Name,
    /// Those, and `/` `:` `+` `*` `@` `%`.
    Value,
    /// Those of a name, and `!` `[` `]` `@`.
    Variable,
    /// Letters, digits, `_` `*` `,`.
    Facility,
    /// Those, and `.` `=` `!` `;`.
    Selector,
    /// Letters, digits, `_` `*` `,` `-` `+` `;`.
    Users,
}

/// Whether a byte is blank.
pub fn is_blank(byte: u8) -> bool
    ensures { result ≡ spec.is_blank byte }
{
    byte == b' ' || byte == b'\t' || byte == b'\n' || byte == 12 || byte == b'\r'
}

/// Whether a byte is a letter, a digit or `_`.
pub fn is_word(byte: u8) -> bool
    ensures { result ≡ spec.is_word byte }
{
    byte.is_ascii_alphabetic() || byte.is_ascii_digit() || byte == b'_'
}

fn is_name(byte: u8) -> bool
    ensures { result ≡ spec.is_name byte }
{
    is_word(byte) || byte == b'.' || byte == b'-' || byte == b'$'
}

fn is_value(byte: u8) -> bool
    ensures { result ≡ spec.is_value byte }
{
    is_name(byte)
        || byte == b'/'
        || byte == b':'
        || byte == b'+'
        || byte == b'*'
        || byte == b'@'
        || byte == b'%'
}

fn is_variable(byte: u8) -> bool
    ensures { result ≡ spec.is_variable byte }
{
    is_name(byte) || byte == b'!' || byte == b'[' || byte == b']' || byte == b'@'
}

fn is_facility(byte: u8) -> bool
    ensures { result ≡ spec.is_facility byte }
{
    is_word(byte) || byte == b'*' || byte == b','
}

fn is_selector(byte: u8) -> bool
    ensures { result ≡ spec.is_selector byte }
{
    is_facility(byte) || byte == b'.' || byte == b'=' || byte == b'!' || byte == b';'
}

fn is_users(byte: u8) -> bool
    ensures { result ≡ spec.is_users byte }
{
    is_facility(byte) || byte == b'-' || byte == b'+' || byte == b';'
}

/// Whether a byte is in the class.
pub(crate) fn is_in(class: Class, byte: u8) -> bool
    ensures { result ≡ spec.is_in class byte }
{
    match class {
        Class::Blank => is_blank(byte),
        Class::Line => byte != b'\n',
        Class::Word => is_word(byte),
        Class::Name => is_name(byte),
        Class::Value => is_value(byte),
        Class::Variable => is_variable(byte),
        Class::Facility => is_facility(byte),
        Class::Selector => is_selector(byte),
        Class::Users => is_users(byte),
    }
}
