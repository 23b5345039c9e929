//! The names of a head that is written anew.
ghost use Rattle.std.specs.Prelude.{◌≡◌, ◌++◌, OnOk, map, take};
ghost use Rattle.sy_unread.specs.Repairs as spec;

use std::alloc::AllocError;

// A byte of a name.
fn name_byte(byte: u8) -> u8
    ensures { result ≡ spec.name_byte byte }
{
    if byte >= 33 && byte <= 126 {
        byte
    } else {
        b'_'
    }
}

// Appends bytes of a name.
fn append_bytes(text: &mut Vec<u8>, name: &[u8]) -> Result<(), AllocError>
    ensures { OnOk result (text.new.items ≡ text.old.items ++ map spec.name_byte name.now) }
{
    for byte in name {
        text.extend_from_slice(&[name_byte(*byte)])?;
    }
    Ok(())
}

// The first bytes, as many as the number says.
pub(crate) fn front(bytes: &[u8], most: usize) -> &[u8]
    ensures { result.now ≡ take most bytes.now }
{
    if bytes.len() <= most {
        return bytes;
    }
    let (front, _) = bytes.split_at(most);
    front
}

/// Appends a name for a field of at most so many bytes: it is cut there, bytes outside of %d33-126 are `_`, and where
/// there is none stands NILVALUE.
pub fn append_name(text: &mut Vec<u8>, name: &[u8], most: usize) -> Result<(), AllocError>
    ensures { OnOk result (text.new.items ≡ text.old.items ++ spec.name_of most name.now) }
{
    if name.is_empty() {
        return text.extend_from_slice(b"-");
    }
    append_bytes(text, front(name, most))
}
