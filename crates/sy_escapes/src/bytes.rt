//! Which bytes are escaped.

ghost use Rattle.std.specs.Prelude.{◌≡◌, ◌<◌};
ghost use Rattle.sy_escapes.specs.Escapes as spec;

/// Whether it is a control character.
pub fn is_control(byte: u8) -> bool
    ensures { result ≡ spec.is_control byte }
{
    byte <= 31 || byte == 127
}

fn is_octal(digit: u8) -> bool
    ensures { result ≡ spec.is_octal digit }
{
    48 <= digit && digit <= 55
}

/// Whether three octal digits come first.
pub fn begins_octal(bytes: &[u8]) -> bool
    ensures { result ≡ spec.begins_octal bytes.now }
{
    match bytes {
        [a, b, c, ..] => is_octal(*a) && is_octal(*b) && is_octal(*c),
        _ => false,
    }
}

/// Whether a byte is written as an escape, where these come after it.
pub fn is_escaped(byte: u8, later: &[u8]) -> bool
    ensures { result ≡ spec.is_escaped byte later.now }
{
    is_control(byte) || (byte == b'#' && begins_octal(later))
}

/// What is written for such a byte.
pub fn escape(byte: u8) -> [u8; 4]
    requires { byte < 128 }
    ensures { result ≡ spec.escape byte }
{
    [b'#', 48 + byte / 8 / 8, 48 + byte / 8 % 8, 48 + byte % 8]
}
